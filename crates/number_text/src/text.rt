// Writers where there is room: each puts its text into a run at an offset, leaves all else as it was, and gives the offset after it.
//
// Each takes the run and the offset themselves and not a `Writer`: behind a reference to one a byte that is stored may be the offset's own, as far as
// LLVM knows, and it no longer makes many digits at a time: a word took 209 instructions, not 89. Given and taken by value it took 94, and a number's
// digits two thirds more.
//
// The digits are made here: std's `write!` to lent bytes says how many it took, and not which stand there.
ghost use Rattle.std.specs.Prelude.{[], ◌∷◌, ◌≡◌, ◌+◌, ◌≤◌, ◌<◌, length};
ghost use Rattle.answers.specs.Lent.{Wrote};
ghost use Rattle.number_text.specs.Digits.{glyph};
ghost use Rattle.number_text.specs.Text.{space, hexadecimal, word_text, words_text, decimal};

use crate::digits::digit;

// One byte.
fn put(out: &mut [u8], at: usize, byte: u8) -> usize
    requires { at + 1 ≤ length out.old }
    ensures { Wrote out.old at (byte ∷ []) out.new result }
{
    out[at] = byte;
    at + 1
}

// A digit below 16.
fn put_digit(out: &mut [u8], at: usize, d: u64) -> usize
    requires { (at < length out.old) × (d < 16) }
    ensures { Wrote out.old at (glyph d ∷ []) out.new result }
{
    put(out, at, digit(d))
}

// The last four hexadecimal digits of n.
#[tactic(auto, using(crate::proofs::Laws::hexadecimal_four))]
fn put_four(out: &mut [u8], at: usize, n: u64) -> usize
    requires { at + 4 ≤ length out.old }
    ensures text { Wrote out.old at (hexadecimal 4 n) out.new result }
    ensures room { (result ≡ at + 4) × (length out.new ≡ length out.old) }
{
    let a = put_digit(out, at, n / 0x1000 % 16);
    let b = put_digit(out, a, n / 0x100 % 16);
    let c = put_digit(out, b, n / 0x10 % 16);
    put_digit(out, c, n % 16)
}

// n in decimal.
#[tactic(auto, using(crate::proofs::Laws::decimal_one, crate::proofs::Laws::length_before))]
pub(crate) fn put_digits(out: &mut [u8], at: usize, n: u64) -> usize
    requires { at + 20 ≤ length out.old }
    ensures text { Wrote out.old at (decimal n) out.new result }
    ensures room { (result ≤ at + 20) × (length out.new ≡ length out.old) }
{
    if n < 10 {
        return put_digit(out, at, n);
    }
    let last = put_digits(out, at, n / 10);
    put_digit(out, last, n % 10)
}

// A space and the 16 hexadecimal digits of a word.
pub(crate) fn put_word(out: &mut [u8], at: usize, word: u64) -> usize
    requires { at + 17 ≤ length out.old }
    ensures text { Wrote out.old at (space ∷ word_text word) out.new result }
    ensures room { (result ≡ at + 17) × (length out.new ≡ length out.old) }
{
    let first = put(out, at, b' ');
    let a = put_four(out, first, word / 0x1_0000_0000_0000);
    let b = put_four(out, a, word / 0x1_0000_0000);
    let c = put_four(out, b, word / 0x1_0000);
    put_four(out, c, word)
}

// Four words, each after a space.
pub(crate) fn put_words(out: &mut [u8], at: usize, words: [u64; 4]) -> usize
    requires { at + 68 ≤ length out.old }
    ensures text { Wrote out.old at (words_text words) out.new result }
    ensures room { (result ≡ at + 68) × (length out.new ≡ length out.old) }
{
    let mut next = at;
    for word in words {
        next = put_word(out, next, word);
    }
    next
}
