// The codec for callers in C and Rust: decode, encode, and one after the other; what decodes, by document 01's decoder and by Change 2's. A call is
// handed over as nine words.
#![tactic(auto)]

ghost use Rattle.answers.specs.Answers.{through};
ghost use Rattle.answers.specs.Lent.{Writes};
ghost use Rattle.answers.specs.Told.{refusal_in};
ghost use Rattle.decode_definition.specs.Decode.{decode_of, decode_smccc};
ghost use Rattle.encode_definition.specs.Encode.{in_four};
ghost use Rattle.roundtrip.specs.Document01.{recode_of};
ghost use Rattle.roundtrip.specs.Smccc.{recode_smccc};
ghost use Rattle.call_exports.specs.NineWords.{nine_words};
ghost use Rattle.call_exports.specs.CallAsked.{asked_by};
ghost use Rattle.call_exports.specs.Exports.{encode_asked, encode_words};

pub mod call_asked;
pub mod from_parts;
pub mod low_bits;
mod nine_words;
mod original_words;
pub mod parts;
pub mod state_words;

use crate::call_asked::{Worded, call_asked};
use answers::told::{Refusal, accepted_words};
use roundtrip::{Codec, Document01, Smccc, recode, recode_smccc};

// The nine words of the call that four registers make, by any codec whose calls have nine words. Refused as its decoder refuses; the lent words are then
// as they were.
pub fn decode_nine<C: Codec>(regs: &[u64; 4], out: &mut [u64; 9]) -> Refusal
where
    C::Call: Worded,
    ensures writes { Writes refusal_in (through C.Call.words (C.decoding regs.now)) out.old result out.new }
{
    match C::decode(*regs) {
        Ok(call) => {
            *out = call.nine_words();
            accepted_words()
        }
        Err(error) => Refusal::from(error),
    }
}

// The four words of the call that nine words stand for, by any codec whose calls have nine words. Refused with `UNKNOWN_TAG` or `WRONG_PART` where they
// stand for none, then as its encoder refuses; the lent words are then as they were.
pub fn encode_nine<C: Codec>(call: &[u64; 9], out: &mut [u64; 4]) -> Refusal
where
    C::Call: Worded,
    ensures writes { Writes refusal_in (encode_asked (asked_by C.Call.words C.Call.tagged) (λ f run. in_four (C.words f) run) call.now out.old) out.old result out.new }
{
    match call_asked::<C::Call>(*call) {
        Ok(call) => Refusal::from(C::encode(call, out)),
        Err(error) => Refusal::from(error),
    }
}

// The nine words of the call that four registers make. Refused with decode's numbers, 1 to 8; the lent words are then as they were.
pub fn psci_decode(regs: &[u64; 4], out: &mut [u64; 9]) -> Refusal
    ensures writes { Writes refusal_in (through nine_words (decode_of regs.now)) out.old result out.new }
{
    decode_nine::<Document01>(regs, out)
}

// The same by Change 2's decoder: memory protect looks at the low half of r1. Refused as `psci_decode` refuses.
pub fn psci_decode_smccc(regs: &[u64; 4], out: &mut [u64; 9]) -> Refusal
    ensures writes { Writes refusal_in (through nine_words (decode_smccc regs.now)) out.old result out.new }
{
    decode_nine::<Smccc>(regs, out)
}

// The four words of the call that nine words stand for. Refused with `UNKNOWN_TAG` or `WRONG_PART` where they stand for none, then with encode's 14, 15
// or 31; the lent words are then as they were.
pub fn psci_encode(call: &[u64; 9], out: &mut [u64; 4]) -> Refusal
    ensures writes { Writes refusal_in (encode_words call.now out.old) out.old result out.new }
{
    encode_nine::<Document01>(call, out)
}

// Decodes four registers and encodes the call. Refused with decode's numbers, 1 to 8, and with no other; the lent words are then as they were.
pub fn psci_recode(regs: &[u64; 4], out: &mut [u64; 4]) -> Refusal
    ensures writes { Writes refusal_in (recode_of regs.now out.old) out.old result out.new }
{
    Refusal::from(recode::<Document01>(*regs, out))
}

// The same by Change 2's decoder: memory protect is written by the low half of r1. Refused as `psci_recode` refuses.
pub fn psci_recode_smccc(regs: &[u64; 4], out: &mut [u64; 4]) -> Refusal
    ensures writes { Writes refusal_in (recode_smccc regs.now out.old) out.old result out.new }
{
    Refusal::from(recode_smccc(*regs, out))
}
