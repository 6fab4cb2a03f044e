// Encoding: a call to a lent run of four numbers.
#![tactic(auto)]

ghost use Rattle.std.specs.Prelude.{◌≡◌, ◌∷◌, [], length};
ghost use Rattle.answers.specs.Answers.{accepted};
ghost use Rattle.answers.specs.Lent.{Writes, itself};
ghost use Rattle.function_ids.specs.FunctionIds.{function_number};
ghost use Rattle.encode_definition.specs.Encode.{in_four, words_by, written_of};
ghost use Rattle.encode.specs.Answers.{encode_answer};
ghost use Rattle.encode.specs.ArgumentAnswers.{arguments_answer};

pub mod arguments;

use crate::arguments::{Arguments, argument_words};
use answers::Error;
use function::{Call, StateFormat};
use function_ids::FunctionId;

// How many numbers a call's run has.
const RUN: usize = 4;

// Writes the four words of a call. Refused in this order, and the run left as it was: a run not four numbers long with 17; a CPU on whose
// MPIDR and entry differ in form with 14, or a power state as its format's writer refuses it (a state ID above 0x0fffffff of the extended format with 15,
// a level above 3 of the original one with 27), or a vendor type above 0x7fffffff with 31.
pub fn encode<S: StateFormat>(function: Call<S>, out: &mut [u64]) -> Result<(), Error>
    ensures writes { Writes itself (in_four (words_by S.write function) out.old) out.old (encode_answer result out.new) out.new }
{
    let length = out.len();
    if length != RUN {
        return Err(Error::WrongLength(length));
    }
    let function_id = function.function_id()?;
    let number = number_of(function_id);
    write_numbered(function_id, number, argument_words(function), out)
}

// Writes a function number and the arguments behind it. Refused in this order, and the run left as it was: a run not four numbers long with 17; then
// the arguments, with their own refusal. The number is sure: where one may be refused, as in `encode`, the caller asks for it first. With an answer for
// it as the parameter, and one test of the length, `encode` takes some twelve instructions more (docs/BENCHMARKS.md).
pub fn write(
    function_id: FunctionId,
    arguments: Result<Arguments, Error>,
    out: &mut [u64],
) -> Result<(), Error>
    ensures writes { Writes itself (written_of (accepted function_id) (arguments_answer arguments) out.old) out.old (encode_answer result out.new) out.new }
{
    write_numbered(function_id, number_of(function_id), arguments, out)
}

// The number of a function, as a word.
fn number_of(function_id: FunctionId) -> u64
    ensures { result ≡ function_number function_id }
{
    u64::from(u32::from(function_id))
}

// Writes as `write` does, by the function and its number. `encode` asks for the number in front of the arguments: LLVM then has it in each arm, and else
// looks for it by a jump of its own behind them (docs/BENCHMARKS.md).
fn write_numbered(
    function_id: FunctionId,
    number: u64,
    arguments: Result<Arguments, Error>,
    out: &mut [u64],
) -> Result<(), Error>
    requires { number ≡ function_number function_id }
    ensures writes { Writes itself (written_of (accepted function_id) (arguments_answer arguments) out.old) out.old (encode_answer result out.new) out.new }
{
    let length = out.len();
    if length != RUN {
        return Err(Error::WrongLength(length));
    }
    store(words(number, arguments?), out);
    Ok(())
}

// A function number and the arguments, as one array.
fn words(number: u64, arguments: Arguments) -> [u64; 4]
    ensures { result ≡ number ∷ arguments.r1 ∷ arguments.r2 ∷ arguments.r3 ∷ [] }
{
    let r1 = arguments.r1;
    let r2 = arguments.r2;
    let r3 = arguments.r3;
    [number, r1, r2, r3]
}

// The four words into a run of four, one by one: for `copy_from_slice` the build for strict alignment on AArch64 calls memcpy.
fn store(words: [u64; 4], out: &mut [u64])
    requires { length out.old ≡ 4 }
    ensures { out.new ≡ words }
{
    out[0] = words[0];
    out[1] = words[1];
    out[2] = words[2];
    out[3] = words[3];
}
