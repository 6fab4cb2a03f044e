// Leftovers for callers in C and Rust, document 02's Change 7: decoding with leftovers, by document 01's decoder and by Change 2's, and writing with
// leftovers. A call is handed over as nine words, as call_exports does.
#![tactic(auto)]

ghost use Rattle.answers.specs.Answers.{through};
ghost use Rattle.answers.specs.Lent.{Writes};
ghost use Rattle.answers.specs.Told.{refusal_in};
ghost use Rattle.decode_definition.specs.Decode.{decode_of, decode_smccc};
ghost use Rattle.roundtrip.specs.Codec.{codec_of};
ghost use Rattle.roundtrip.specs.Leftovers.{ignored_by};
ghost use Rattle.roundtrip.specs.Document01.{document01};
ghost use Rattle.roundtrip.specs.Smccc.{smccc};
ghost use Rattle.call_exports.specs.NineWords.{nine_words};
ghost use Rattle.leftover_exports.specs.Exports.{encode_words_with};

use answers::told::{Refusal, accepted_words};
use call_exports::call_asked::{Worded, call_asked};
use roundtrip::leftovers::{encode_with_leftovers, words_of, xor_each};
use roundtrip::{Codec, Document01, Smccc};

// The nine words of the call that four registers make, and the four leftover words: each register exclusive-or the word that encode writes. Refused with
// decode's numbers, 1 to 8; all lent words are then as they were.
pub fn psci_decode_with_leftovers(
    regs: &[u64; 4],
    call: &mut [u64; 9],
    leftovers: &mut [u64; 4],
) -> Refusal
    ensures call { Writes refusal_in (through nine_words (decode_of regs.now)) call.old result call.new }
    ensures leftovers { Writes refusal_in (ignored_by document01 regs.now) leftovers.old result leftovers.new }
{
    decode_both::<Document01>(regs, call, leftovers)
}

// The same by Change 2's decoder: memory protect looks at the low half of r1. Refused as `psci_decode_with_leftovers` refuses.
pub fn psci_decode_smccc_with_leftovers(
    regs: &[u64; 4],
    call: &mut [u64; 9],
    leftovers: &mut [u64; 4],
) -> Refusal
    ensures call { Writes refusal_in (through nine_words (decode_smccc regs.now)) call.old result call.new }
    ensures leftovers { Writes refusal_in (ignored_by smccc regs.now) leftovers.old result leftovers.new }
{
    decode_both::<Smccc>(regs, call, leftovers)
}

// The four words of the call that nine words stand for, each exclusive-or its leftover. Refused with `UNKNOWN_TAG` or `WRONG_PART` where they stand for
// none, then with encode's 14, 15 or 31; the lent words are then as they were.
pub fn psci_encode_with_leftovers(
    call: &[u64; 9],
    leftovers: &[u64; 4],
    out: &mut [u64; 4],
) -> Refusal
    ensures writes { Writes refusal_in (encode_words_with call.now leftovers.now out.old) out.old result out.new }
{
    match call_asked(*call) {
        Ok(function) => Refusal::from(encode_with_leftovers::<Document01>(
            function, *leftovers, out,
        )),
        Err(error) => Refusal::from(error),
    }
}

// The nine words of the call that four registers make, and the leftovers, by any codec whose calls have nine words. Refused as its decoder refuses; all
// lent words are then as they were. It takes the leftovers of the decoder's answer: that a decoded call has words is demand 3, of which the contract of
// `decode_with_leftovers` says nothing.
fn decode_both<C: Codec>(regs: &[u64; 4], call: &mut [u64; 9], leftovers: &mut [u64; 4]) -> Refusal
where
    C::Call: Worded,
    ensures call { Writes refusal_in (through C.Call.words (C.decoding regs.now)) call.old result call.new }
    ensures leftovers { Writes refusal_in (ignored_by (codec_of C.decoding C.words C.look) regs.now) leftovers.old result leftovers.new }
{
    let r = *regs;
    match C::decode(r) {
        Ok(function) => {
            *call = function.nine_words();
            *leftovers = xor_each(r, words_of::<C>(function));
            accepted_words()
        }
        Err(error) => Refusal::from(error),
    }
}
