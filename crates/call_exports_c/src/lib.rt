// libcall_exports.a, the codec for C and Rust: each function of call_exports that is exported, with the clauses that it has there.
#![tactic(auto)]

ghost use Rattle.answers.specs.Answers.{through};
ghost use Rattle.answers.specs.Lent.{Writes};
ghost use Rattle.answers.specs.Told.{refusal_in};
ghost use Rattle.decode_definition.specs.Decode.{decode_of, decode_smccc};
ghost use Rattle.roundtrip.specs.Document01.{recode_of};
ghost use Rattle.roundtrip.specs.Smccc.{recode_smccc};
ghost use Rattle.call_exports.specs.NineWords.{nine_words};
ghost use Rattle.call_exports.specs.Exports.{encode_words};

use answers::told::Refusal;

// The nine words of the call that four registers make. Refused with decode's numbers, 1 to 8; the lent words are then as they were.
#[unsafe(no_mangle)]
pub extern "C" fn psci_decode(regs: &[u64; 4], out: &mut [u64; 9]) -> Refusal
    ensures writes { Writes refusal_in (through nine_words (decode_of regs.now)) out.old result out.new }
{
    call_exports::psci_decode(regs, out)
}

// The same by Change 2's decoder: memory protect looks at the low half of r1. Refused as `psci_decode` refuses.
#[unsafe(no_mangle)]
pub extern "C" fn psci_decode_smccc(regs: &[u64; 4], out: &mut [u64; 9]) -> Refusal
    ensures writes { Writes refusal_in (through nine_words (decode_smccc regs.now)) out.old result out.new }
{
    call_exports::psci_decode_smccc(regs, out)
}

// The four words of the call that nine words stand for. Refused with 1002 or 1003 where they stand for none, then with encode's 14, 15 or 31; the lent
// words are then as they were.
#[unsafe(no_mangle)]
pub extern "C" fn psci_encode(call: &[u64; 9], out: &mut [u64; 4]) -> Refusal
    ensures writes { Writes refusal_in (encode_words call.now out.old) out.old result out.new }
{
    call_exports::psci_encode(call, out)
}

// Decodes four registers and encodes the call. Refused with decode's numbers, 1 to 8, and with no other; the lent words are then as they were.
#[unsafe(no_mangle)]
pub extern "C" fn psci_recode(regs: &[u64; 4], out: &mut [u64; 4]) -> Refusal
    ensures writes { Writes refusal_in (recode_of regs.now out.old) out.old result out.new }
{
    call_exports::psci_recode(regs, out)
}

// The same by Change 2's decoder: memory protect is written by the low half of r1. Refused as `psci_recode` refuses.
#[unsafe(no_mangle)]
pub extern "C" fn psci_recode_smccc(regs: &[u64; 4], out: &mut [u64; 4]) -> Refusal
    ensures writes { Writes refusal_in (recode_smccc regs.now out.old) out.old result out.new }
{
    call_exports::psci_recode_smccc(regs, out)
}
