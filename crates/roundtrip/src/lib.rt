// Demand 3: what is decoded encodes, decodes back and is zero elsewhere: statement, proof, and the program's part in it: a trait for any codec, document
// 01's and Change 2's as its instances, and `recode` by any of them; `recode_smccc` is Change 2's.
#![tactic(auto)]

ghost use Rattle.std.specs.Prelude.{◌≡◌, List, ℕ, OnOk};
ghost use Rattle.answers.specs.Answers.{Answer};
ghost use Rattle.answers.specs.Errors.{answered};
ghost use Rattle.answers.specs.Lent.{Writes, itself};
ghost use Rattle.function_ids.specs.CallTable.{Look, whole, look01, look_smccc};
ghost use Rattle.decode_definition.specs.Decode.{decode_by, decode_smccc};
ghost use Rattle.encode_definition.specs.Encode.{in_four, words_by, words_of};
ghost use Rattle.encode.specs.Answers.{encode_answer};
ghost use Rattle.roundtrip.specs.Codec.{codec_of, recode_by, Demand3};
ghost use Rattle.roundtrip.specs.Smccc.{recode_smccc};

pub mod leftovers;

use answers::Error;
use function::{Call, Function, StateFormat};
use std::marker::PhantomData;
use words::PowerState;

// A codec: its typed calls, and what decodes four registers and writes a call. Demand 3 holds of it.
pub trait Codec {
    type Call: Copy;

    // What decoding gives for four registers.
    ghost decoding: { List ℕ → Answer Self.Call };

    // The four words of a call, or the refusal of a call that has none.
    ghost words: { Self.Call → Answer (List ℕ) };

    // What is looked at in register 1, 2 or 3 under a function number.
    ghost look: { ℕ → ℕ → Look };

    // The call that four registers make, or why they make none; and demand 3.
    fn decode(regs: [u64; 4]) -> Result<Self::Call, Error>
        ensures decodes { answered result ≡ decoding regs }
        ensures demand3 { Demand3 (codec_of decoding words look) };

    // Writes the four words of a call. A refusal leaves the run as it was: first a run not four numbers long with 17, then a call that has no words.
    fn encode(call: Self::Call, out: &mut [u64]) -> Result<(), Error>
        ensures writes { Writes itself (in_four (words call) out.old) out.old (encode_answer result out.new) out.new };
}

// The codec of a format of the power state, as document 01 has it: memory protect looks at all of r1.
pub struct Format<S>(PhantomData<S>);

impl<S: StateFormat> Codec for Format<S> {
    type Call = Call<S>;

    ghost decoding = { decode_by S.read whole };

    ghost words = { words_by S.write };

    ghost look = { look01 };

    #[inline(always)]
    fn decode(regs: [u64; 4]) -> Result<Call<S>, Error> {
        decode::decode(regs)
    }

    fn encode(call: Call<S>, out: &mut [u64]) -> Result<(), Error> {
        encode::encode(call, out)
    }
}

// Document 01's codec: the extended format.
pub type Document01 = Format<PowerState>;

// Change 2's codec: memory protect is read by the low half of r1, and written as in document 01.
pub struct Smccc;

impl Codec for Smccc {
    type Call = Function;

    ghost decoding = { decode_smccc };

    ghost words = { words_of };

    ghost look = { look_smccc };

    #[tactic(auto, using(crate::proofs::TwoCodecs::demand3_of_smccc))]
    #[inline(always)]
    fn decode(regs: [u64; 4]) -> Result<Function, Error> {
        decode::decode_smccc(regs)
    }

    fn encode(call: Function, out: &mut [u64]) -> Result<(), Error> {
        encode::encode(call, out)
    }
}

// Decodes four registers and encodes the call into a lent run. A refusal leaves the run as it was; after success it decodes as the registers do.
// Refused with decode's numbers, then with 17: what encoding refuses beside that can't come of a call that was decoded, by demand 3.
pub fn recode<C: Codec>(regs: [u64; 4], out: &mut [u64]) -> Result<(), Error>
    ensures writes { Writes itself (recode_by (codec_of C.decoding C.words C.look) regs out.old) out.old (encode_answer result out.new) out.new }
    ensures read_again { OnOk result (C.decoding out.new ≡ C.decoding regs) }
{
    C::encode(C::decode(regs)?, out)
}

// The same by Change 2's decoder: memory protect is written by the low half of r1. Refused as `recode` refuses, and a refusal leaves the run as it
// was; 14, 15 and 31 can't come of a call that was decoded.
pub fn recode_smccc(regs: [u64; 4], out: &mut [u64]) -> Result<(), Error>
    ensures writes { Writes itself (recode_smccc regs out.old) out.old (encode_answer result out.new) out.new }
    ensures read_again { OnOk result (decode_smccc out.new ≡ decode_smccc regs) }
{
    recode::<Smccc>(regs, out)
}
