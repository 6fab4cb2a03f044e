// The call that nine words stand for, of any calls that have nine words.
ghost use Rattle.std.specs.Prelude.{◌≡◌, List, ℕ, get_or};
ghost use Rattle.answers.specs.Answers.{Answer};
ghost use Rattle.answers.specs.Told.{refusal_is};
ghost use Rattle.call_exports.specs.CallAsked.{asked_by};
ghost use Rattle.call_exports.specs.Refusals.{words_number, words_value, asked_answer};

use answers::told::Refusal;

// Refusals of words that ask for no call, by numbers that no paper has: a tag that no call has, which is carried, and words that are not those of the
// call of their tag, with 0.
pub const UNKNOWN_TAG: u64 = 1002;

pub const WRONG_PART: u64 = 1003;

// What is wrong with words that ask for no call.
#[derive(Clone, Copy, Debug, PartialEq, Eq)]
pub enum WordsError {
    UnknownTag(u64), // 1002
    WrongPart, // 1003
}

impl From<WordsError> for Refusal {
    ghost from_gives = { λ error told. told ≡ refusal_is (words_number error) (words_value error) };

    // The refusal as it is told, of every error: `UNKNOWN_TAG` with the tag, or `WRONG_PART` with 0.
    fn from(error: WordsError) -> Self {
        match error {
            WordsError::UnknownTag(tag) => Self {
                number: UNKNOWN_TAG,
                carried: tag,
            },
            WordsError::WrongPart => Self {
                number: WRONG_PART,
                carried: 0,
            },
        }
    }
}

// Calls that are handed over as nine words.
pub trait Worded: Copy {
    // The words of a call.
    ghost words: { Self → List ℕ };

    // The call of a tag, its parts cut to their slots.
    ghost tagged: { List ℕ → ℕ → Answer Self };

    // The words of a call: its tag, the parts of its fields in their order, then zeros. Every call has them.
    fn nine_words(self) -> [u64; 9]
        ensures { result ≡ words self };

    // The call of the tag in front, its parts cut to their slots. A tag above 21 is unknown.
    fn at_tag(c: [u64; 9]) -> Result<Self, WordsError>
        ensures { asked_answer result ≡ tagged c (get_or c 0 0) };
}

// The call whose nine words these are, of any calls that have nine words. A tag above 21 is unknown; words that are not those of the call of their tag,
// as a part that has no room in its slot, are wrong.
#[tactic(auto, unfolding(crate::specs::CallAsked::asked_by, crate::specs::SameWords::of_parts))]
pub fn call_asked<F: Worded>(c: [u64; 9]) -> Result<F, WordsError>
    ensures { asked_answer result ≡ asked_by F.words F.tagged c }
{
    let call = F::at_tag(c)?;
    if c == call.nine_words() {
        Ok(call)
    } else {
        Err(WordsError::WrongPart)
    }
}
