// Document 01, "The call log and its sheet": numbers, words and bytes as text, each put into a lent run at an offset. Where a text of the greatest
// length has no room nothing is written, and the offset stays.
#![tactic(auto)]

ghost use Rattle.std.specs.Prelude.{MatchBool, ◌∷◌, ◌++◌, ◌+◌, ◌≤◌, ◌<◌, length};
ghost use Rattle.number_text.specs.Put.{PutInRoom};
ghost use Rattle.number_text.specs.Text.{space, decimal, word_text, words_text};

pub mod digits;
mod text;

// No number of 64 bits has more decimal digits.
const MOST_DIGITS: usize = 20;

// These, and a word after a space.
const PAIR_ROOM: usize = 37;

// Four words, each after a space.
const WORDS_ROOM: usize = 68;

// A lent run, and the offset of what is put into it next. Any offset will do: past the end of the run, or near it, nothing has room.
#[derive(Drop)]
pub struct Writer<'a> {
    pub out: &'a mut [u8],
    pub at: usize,
}

impl<'a> Writer<'a> {
    // Whether so many bytes are there from the offset on. In this order the first test is one that a caller has often made (docs/BENCHMARKS.md).
    fn has_room(&self, size: usize) -> bool
        ensures { MatchBool result (self.now.at + size ≤ length self.now.out.now) (length self.now.out.now < self.now.at + size) }
    {
        size <= self.out.len() && self.at <= self.out.len() - size
    }

    // Some bytes as they are, where all of them have room.
    #[tactic(auto, using(crate::proofs::Putting::copied, crate::proofs::Putting::had_room))]
    pub fn put<const N: usize>(&mut self, bytes: [u8; N])
        ensures { PutInRoom N self.old bytes.entry self.new }
    {
        if self.has_room(N) {
            self.out[self.at..self.at + N].copy_from_slice(&bytes);
            self.at += N;
        }
    }

    // A number in decimal, with no 0 in front; of any number, where 20 bytes are there.
    pub fn put_decimal(&mut self, n: u64)
        ensures { PutInRoom 20 self.old (decimal n) self.new }
    {
        if self.has_room(MOST_DIGITS) {
            self.at = text::put_digits(self.out, self.at, n);
        }
    }

    // A number in decimal, then a space and the 16 hexadecimal digits of a word, where 37 bytes are there.
    pub fn put_pair(&mut self, n: u64, word: u64)
        ensures { PutInRoom 37 self.old (decimal n ++ (space ∷ word_text word)) self.new }
    {
        if self.has_room(PAIR_ROOM) {
            let second = text::put_digits(self.out, self.at, n);
            self.at = text::put_word(self.out, second, word);
        }
    }

    // Four words, each after a space, where 68 bytes are there.
    pub fn put_words(&mut self, words: [u64; 4])
        ensures { PutInRoom 68 self.old (words_text words) self.new }
    {
        if self.has_room(WORDS_ROOM) {
            self.at = text::put_words(self.out, self.at, words);
        }
    }
}
