// Document 02, Change 7: decoding that keeps what it ignores as four leftover words, and writing that puts them back, by any codec.
ghost use Rattle.std.specs.Prelude.{◌≡◌};
ghost use Rattle.answers.specs.Answers.{through, and_then};
ghost use Rattle.answers.specs.Errors.{answered};
ghost use Rattle.answers.specs.Lent.{Writes, itself};
ghost use Rattle.encode_definition.specs.Encode.{in_four};
ghost use Rattle.encode.specs.Answers.{encode_answer};
ghost use Rattle.roundtrip.specs.Codec.{codec_of};
ghost use Rattle.roundtrip.specs.Leftovers.{xor_each, or_else, zeros, leftovers_by, encode_with_by};

use crate::Codec;
use answers::Error;
use std::array;

// What a decoder answers, and beside it the four words that it ignored.
#[derive(Clone, Copy, Debug, PartialEq, Eq)]
pub struct WithLeftovers<F> {
    pub answer: Result<F, Error>,
    pub leftovers: [u64; 4],
}

// Decoding with leftovers: each register exclusive-or the encoded word. Refused as the codec's decoder refuses; the leftovers of a refused set are its
// registers. By Change 2's decoder memory protect is written by the low half of r1, so its high half is left over.
pub fn decode_with_leftovers<C: Codec>(regs: [u64; 4]) -> WithLeftovers<C::Call>
    ensures answer { answered result.answer ≡ C.decoding regs }
    ensures leftovers { result.leftovers ≡ leftovers_by (codec_of C.decoding C.words C.look) regs }
{
    let answer = C::decode(regs);
    let leftovers = xor_each(regs, words_or_zeros::<C>(answer));
    WithLeftovers { answer, leftovers }
}

// Writes the four words of any call, each exclusive-or its leftover: with the leftovers of a decoded set, its registers. Refused as the codec's encoder
// refuses, in that order, and the run is then as it was.
pub fn encode_with_leftovers<C: Codec>(
    call: C::Call,
    leftovers: [u64; 4],
    out: &mut [u64],
) -> Result<(), Error>
    ensures writes { Writes itself (encode_with_by (codec_of C.decoding C.words C.look) call leftovers out.old) out.old (encode_answer result out.new) out.new }
{
    put_back(C::encode(call, out), leftovers, out)
}

// Leftovers into a run of four that encoding has written, by what encoding said: each word exclusive-or its leftover. Refused with 17 is a run of
// another length, then with what encoding refused; the run is then as it was. One by one: a `for` over the run and the leftovers needs an invariant, and
// is no shorter.
pub fn put_back(
    encoded: Result<(), Error>,
    leftovers: [u64; 4],
    out: &mut [u64],
) -> Result<(), Error>
    ensures writes { Writes itself (through (λ words. xor_each words leftovers) (in_four (encode_answer encoded out.old) out.old)) out.old (encode_answer result out.new) out.new }
{
    let length = out.len();
    if length != 4 {
        return Err(Error::WrongLength(length));
    }
    encoded?;
    out[0] ^= leftovers[0];
    out[1] ^= leftovers[1];
    out[2] ^= leftovers[2];
    out[3] ^= leftovers[3];
    Ok(())
}

// Four words, each exclusive-or its partner.
pub fn xor_each(a: [u64; 4], b: [u64; 4]) -> [u64; 4]
    ensures { result ≡ xor_each a b }
{
    array::from_fn(|i| a[i] ^ b[i])
}

// The four words of a call that was decoded; four zeros if none was.
fn words_or_zeros<C: Codec>(answer: Result<C::Call, Error>) -> [u64; 4]
    ensures { result ≡ or_else zeros (and_then (answered answer) C.words) }
{
    match answer {
        Ok(call) => words_of::<C>(call),
        Err(_) => [0, 0, 0, 0],
    }
}

// The four words of a call; four zeros if it has none. A decoded call has four: demand 3.
pub fn words_of<C: Codec>(call: C::Call) -> [u64; 4]
    ensures { result ≡ or_else zeros (C.words call) }
{
    let mut words = [0u64; 4];
    let _ = C::encode(call, &mut words);
    words
}
