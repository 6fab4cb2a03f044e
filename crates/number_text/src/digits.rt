// A digit as its character.
ghost use Rattle.std.specs.Prelude.{◌≡◌, ◌%◌};
ghost use Rattle.number_text.specs.Digits.{glyph};

// From the character after `9` to `a`.
const TO_LETTERS: u64 = 39;

// The last hexadecimal digit of a number. By a sum and not a test: the compiler then makes the digits of a word side by side
// (docs/BENCHMARKS.md).
pub fn digit(n: u64) -> u8
    ensures { result ≡ glyph (n % 16) }
{
    let d = n % 16;
    // 1 from ten on
    let letter = (d + 6) / 16;
    (0x30 + d + letter * TO_LETTERS) as u8
}
