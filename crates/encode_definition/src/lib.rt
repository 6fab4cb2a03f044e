// What a call is encoded to, and what it leaves in a lent run: definition and laws, with no code. The function that encodes stands above it.
#![tactic(auto)]
