// The codec of boards that are set to the original power state, for callers in C and Rust: decode, encode, and one after the other. A call is handed
// over as nine words.
#![tactic(auto)]

ghost use Rattle.answers.specs.Answers.{through};
ghost use Rattle.answers.specs.Lent.{Writes};
ghost use Rattle.answers.specs.Told.{refusal_in};
ghost use Rattle.original_calls.specs.OriginalCalls.{original_decode_of};
ghost use Rattle.original_calls.specs.OriginalCodec.{recode_original};
ghost use Rattle.original_exports.specs.OriginalNineWords.{original_nine_words};
ghost use Rattle.original_exports.specs.OriginalAsked.{encode_original_words};

use answers::told::Refusal;
use call_exports::{decode_nine, encode_nine};
use original_calls::{OriginalFormat, recode_original};

// The nine words of the call that four registers make. Refused with decode's numbers, 1, 3 to 8 and 26; the lent words are then as they were.
pub fn psci_decode_original(regs: &[u64; 4], out: &mut [u64; 9]) -> Refusal
    ensures writes { Writes refusal_in (through original_nine_words (original_decode_of regs.now)) out.old result out.new }
{
    decode_nine::<OriginalFormat>(regs, out)
}

// The four words of the call that nine words stand for. Refused with `UNKNOWN_TAG` or `WRONG_PART` where they stand for none, then with encode's 14, 27
// or 31; the lent words are then as they were.
pub fn psci_encode_original(call: &[u64; 9], out: &mut [u64; 4]) -> Refusal
    ensures writes { Writes refusal_in (encode_original_words call.now out.old) out.old result out.new }
{
    encode_nine::<OriginalFormat>(call, out)
}

// Decodes four registers and encodes the call. Refused with decode's numbers, 1, 3 to 8 and 26, and with no other; the lent words are then as they
// were.
pub fn psci_recode_original(regs: &[u64; 4], out: &mut [u64; 4]) -> Refusal
    ensures writes { Writes refusal_in (recode_original regs.now out.old) out.old result out.new }
{
    Refusal::from(recode_original(*regs, out))
}
