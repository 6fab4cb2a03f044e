// libline_exports.a, the line of a record for C and Rust: the function of line_exports that is exported, with the clause that it has there.
#![tactic(auto)]

ghost use Rattle.answers.specs.Lent.{Writes};
ghost use Rattle.record_line.specs.Line.{line_of};
ghost use Rattle.line_exports.specs.Exports.{told_line};

use line_exports::Written;

// Writes the line of a record, by its number and its four registers, at the front of the lent bytes; memory protect by the low half of r1. Refused
// with 24, a number above 1,899; the lent bytes are then as they were.
#[unsafe(no_mangle)]
pub extern "C" fn psci_line(number: usize, regs: &[u64; 4], out: &mut [u8; 80]) -> Written
    ensures writes { Writes told_line (line_of number regs.now out.old) out.old result out.new }
{
    line_exports::psci_line(number, regs, out)
}
