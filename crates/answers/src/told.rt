// What an exported function tells C of an answer: two words, which come back in registers on x86-64 and on AArch64.
ghost use Rattle.std.specs.Prelude.{◌≡◌, pos};
ghost use Rattle.answers.specs.Errors.{answered, refusal_number, refusal_value};
ghost use Rattle.answers.specs.Told.{refusal_is, refusal_in};

use crate::Error;

// A refusal's number and what it carries, or twice 0.
#[repr(C)]
#[derive(Clone, Copy, Debug, PartialEq, Eq)]
pub struct Refusal {
    pub number: u64,
    pub carried: u64,
}

// Nothing was refused.
pub fn accepted_words() -> Refusal
    ensures { result ≡ refusal_is 0 (pos 0) }
{
    Refusal {
        number: 0,
        carried: 0,
    }
}

impl From<Error> for Refusal {
    ghost from_gives = { λ error told. told ≡ refusal_is (refusal_number error) (refusal_value error) };

    // A refusal as it is told, of every error: its number, which is not 0, and what it carries.
    fn from(error: Error) -> Self {
        Self {
            number: error.number(),
            carried: error.value(),
        }
    }
}

impl From<Result<(), Error>> for Refusal {
    ghost from_gives = { λ answer told. told ≡ refusal_in (answered answer) };

    // What an operation said, as it is told: success as twice 0, an error as above.
    fn from(answer: Result<(), Error>) -> Self {
        match answer {
            Ok(()) => accepted_words(),
            Err(error) => Self::from(error),
        }
    }
}
