// Bits of a word: fields, masks, halves and two's complement. Its definitions and laws serve every crate above; its one function makes halves of
// a register. Two's complement is std's `cast_signed` and `cast_unsigned`: proofs/TwosComplement.antt says which number and which word they give.
#![tactic(auto)]

pub mod halves;
