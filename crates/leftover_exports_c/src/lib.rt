// libleftover_exports.a, leftovers for C and Rust: each function of leftover_exports that is exported, with the clauses that it has there.
#![tactic(auto)]

ghost use Rattle.answers.specs.Answers.{through};
ghost use Rattle.answers.specs.Lent.{Writes};
ghost use Rattle.answers.specs.Told.{refusal_in};
ghost use Rattle.decode_definition.specs.Decode.{decode_of, decode_smccc};
ghost use Rattle.roundtrip.specs.Leftovers.{ignored_by};
ghost use Rattle.roundtrip.specs.Document01.{document01};
ghost use Rattle.roundtrip.specs.Smccc.{smccc};
ghost use Rattle.call_exports.specs.NineWords.{nine_words};
ghost use Rattle.leftover_exports.specs.Exports.{encode_words_with};

use answers::told::Refusal;

// The nine words of the call that four registers make, and the four leftover words: each register exclusive-or the word that encode writes. Refused with
// decode's numbers, 1 to 8; all lent words are then as they were.
#[unsafe(no_mangle)]
pub extern "C" fn psci_decode_with_leftovers(
    regs: &[u64; 4],
    call: &mut [u64; 9],
    leftovers: &mut [u64; 4],
) -> Refusal
    ensures call { Writes refusal_in (through nine_words (decode_of regs.now)) call.old result call.new }
    ensures leftovers { Writes refusal_in (ignored_by document01 regs.now) leftovers.old result leftovers.new }
{
    leftover_exports::psci_decode_with_leftovers(regs, call, leftovers)
}

// The same by Change 2's decoder: memory protect looks at the low half of r1. Refused as `psci_decode_with_leftovers` refuses.
#[unsafe(no_mangle)]
pub extern "C" fn psci_decode_smccc_with_leftovers(
    regs: &[u64; 4],
    call: &mut [u64; 9],
    leftovers: &mut [u64; 4],
) -> Refusal
    ensures call { Writes refusal_in (through nine_words (decode_smccc regs.now)) call.old result call.new }
    ensures leftovers { Writes refusal_in (ignored_by smccc regs.now) leftovers.old result leftovers.new }
{
    leftover_exports::psci_decode_smccc_with_leftovers(regs, call, leftovers)
}

// The four words of the call that nine words stand for, each exclusive-or its leftover. Refused with 1002 or 1003 where they stand for none, then with
// encode's 14, 15 or 31; the lent words are then as they were.
#[unsafe(no_mangle)]
pub extern "C" fn psci_encode_with_leftovers(
    call: &[u64; 9],
    leftovers: &[u64; 4],
    out: &mut [u64; 4],
) -> Refusal
    ensures writes { Writes refusal_in (encode_words_with call.now leftovers.now out.old) out.old result out.new }
{
    leftover_exports::psci_encode_with_leftovers(call, leftovers, out)
}
