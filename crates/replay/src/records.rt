// A record: the operation, a call or a single value as nine words, four registers, and what is told: a refusal's number and what it carries. An
// answer changes only what it gives; every other word stays as it was asked.
use crate::BLOCK;
use crate::op::UnknownOperation;
use answers::told::{Refusal, accepted_words};
use call_exports::call_asked::WordsError;
use call_log::big_endian::word_at;

#[derive(Clone, Copy, Debug, PartialEq, Eq)]
pub(crate) struct Record {
    pub(crate) operation: u64,
    pub(crate) call: [u64; 9],
    pub(crate) regs: [u64; 4],
    pub(crate) told: Refusal,
}

// Turned in a word that an answer must write, so that it cannot be right by chance.
pub(crate) const WRONG: u64 = 0xa5a5_5a5a_c3c3_3c3c;

pub(crate) fn wrong_regs(regs: [u64; 4]) -> [u64; 4] {
    regs.map(|word| word ^ WRONG)
}

impl From<&[u8; BLOCK]> for Record {
    // The record of a block: its sixteen words.
    fn from(block: &[u8; BLOCK]) -> Self {
        Self {
            operation: word_at(block, 0),
            call: [1, 2, 3, 4, 5, 6, 7, 8, 9].map(|index| word_at(block, index)),
            regs: [10, 11, 12, 13].map(|index| word_at(block, index)),
            told: Refusal {
                number: word_at(block, 14),
                carried: word_at(block, 15),
            },
        }
    }
}

impl Record {
    pub(crate) fn told(self, told: Refusal) -> Self {
        Self { told, ..self }
    }

    // Refused, and the operation carried.
    pub(crate) fn unknown_operation(self) -> Self {
        self.told(Refusal::from(UnknownOperation(self.operation)))
    }

    pub(crate) fn accepted(self) -> Self {
        self.told(accepted_words())
    }

    // With one word in the first register.
    pub(crate) fn with_word(self, word: u64) -> Self {
        let mut regs = self.regs;
        regs[0] = word;
        Self { regs, ..self }
    }

    // The answer, if the record holds the value's own words.
    pub(crate) fn of_own(self, own: [u64; 9], answer: Self) -> Self {
        if self.call == own {
            answer
        } else {
            self.told(Refusal::from(WordsError::WrongPart))
        }
    }
}
