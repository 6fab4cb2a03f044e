// The line of a record, for the benchmark and callers in C.
#![tactic(auto)]

ghost use Rattle.std.specs.Prelude.{◌≡◌};
ghost use Rattle.answers.specs.Lent.{Writes};
ghost use Rattle.record_line.specs.Errors.{line_refusal_number, line_refusal_value};
ghost use Rattle.record_line.specs.Line.{line_of};
ghost use Rattle.line_exports.specs.Exports.{refused_line, told_line};

use record_line::LineError;

// 0, and how many bytes of the lent run are the line; or a refusal's number, and what it carries. Two words, which C on x86-64 and on AArch64
// gives back in registers: a longer struct goes through a pointer, and the two do not pass that alike.
#[repr(C)]
#[derive(Clone, Copy, Debug, PartialEq, Eq)]
pub struct Written {
    pub number: u64,
    pub value: u64,
}

impl From<LineError> for Written {
    ghost from_gives = { λ error written. written ≡ refused_line (line_refusal_number error) (line_refusal_value error) };

    // A refusal as it is told, of every error: its number, which is not 0, and what it carries.
    fn from(error: LineError) -> Self {
        Self {
            number: error.number(),
            value: error.value(),
        }
    }
}

// Writes the line of a record, by its number and its four registers, at the front of the lent bytes; memory protect by the low half of r1. Refused
// with 24, a number above 1,899; the lent bytes are then as they were.
pub fn psci_line(number: usize, regs: &[u64; 4], out: &mut [u8; 80]) -> Written
    ensures writes { Writes told_line (line_of number regs.now out.old) out.old result out.new }
{
    match record_line::line(number, *regs, out) {
        Ok(size) => Written {
            number: 0,
            value: size as u64, // a `usize` has no `From` to a `u64`
        },
        Err(error) => Written::from(error),
    }
}
