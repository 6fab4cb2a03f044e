// What four registers decode to: definition and laws, with no code. The functions that decode stand above it.
#![tactic(auto)]
