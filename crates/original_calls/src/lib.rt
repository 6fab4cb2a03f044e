// Calls of boards that are set to the original power state, document 02's Change 1: their typed call, decoding, encoding, the codec of both for what is
// done by any codec, and `recode_original`. All of it is document 01's by another format of the power state; what differs stands in
// specs/TwoFormats.antt.
#![tactic(auto)]

ghost use Rattle.std.specs.Prelude.{◌≡◌, OnOk};
ghost use Rattle.answers.specs.Errors.{answered};
ghost use Rattle.answers.specs.Lent.{Writes, itself};
ghost use Rattle.function_ids.specs.CallTable.{kept01, look01};
ghost use Rattle.encode.specs.Answers.{encode_answer};
ghost use Rattle.original_calls.specs.OriginalCalls.{original_decode_of, original_call_in, original_words_of, original_encode_of};
ghost use Rattle.original_calls.specs.OriginalCodec.{recode_original};

use answers::Error;
use function::Call;
pub use function::StatelessFunction;
use roundtrip::{Codec, recode};
use words::OriginalPowerState;

// The calls with their arguments, the power states in the original format. Every value is one call, and no power state of the extended format
// has a place in it.
pub type OriginalFunction = Call<OriginalPowerState>;

// The call that four registers make, the power state of a suspend, residency or count in the original format. Refused as document 01's `decode`
// refuses, with 26 in the place of 2: in residency and count a refused MPIDR comes first. It is document 01's call of the registers with 0 for the
// power state, which is then put in.
#[tactic(auto, using(crate::proofs::ByCalls::by_call))]
#[inline(always)]
pub fn decode_original(regs: [u64; 4]) -> Result<OriginalFunction, Error>
    ensures decodes { answered result ≡ original_decode_of regs }
    ensures by_call { answered result ≡ original_call_in (kept01 regs) }
{
    decode::decode(regs)
}

// Writes the four words of a call. Refused in this order, and the run left as it was: a run not four numbers long with 17; a CPU on whose
// MPIDR and entry differ in form with 14, or a level above 3 with 27, or a vendor type above 0x7fffffff with 31.
pub fn encode_original(function: OriginalFunction, out: &mut [u64]) -> Result<(), Error>
    ensures writes { Writes itself (original_encode_of function out.old) out.old (encode_answer result out.new) out.new }
{
    encode::encode(function, out)
}

// Change 1's codec, for whatever is done by any: leftovers, a call as nine words, and `recode_original`.
pub struct OriginalFormat;

impl Codec for OriginalFormat {
    type Call = OriginalFunction;

    ghost decoding = { original_decode_of };

    ghost words = { original_words_of };

    ghost look = { look01 };

    #[tactic(auto, using(crate::proofs::Original::demand3_of_original))]
    #[inline(always)]
    fn decode(regs: [u64; 4]) -> Result<OriginalFunction, Error> {
        decode_original(regs)
    }

    fn encode(call: OriginalFunction, out: &mut [u64]) -> Result<(), Error> {
        encode_original(call, out)
    }
}

// Decodes four registers and encodes the call into a lent run. A refusal leaves the run as it was; after success it decodes as the registers do.
// Refused with decode's numbers, then with 17; 14, 27 and 31 can't come of a call that was decoded, by demand 3.
pub fn recode_original(regs: [u64; 4], out: &mut [u64]) -> Result<(), Error>
    ensures writes { Writes itself (recode_original regs out.old) out.old (encode_answer result out.new) out.new }
    ensures read_again { OnOk result (original_decode_of out.new ≡ original_decode_of regs) }
{
    recode::<OriginalFormat>(regs, out)
}
