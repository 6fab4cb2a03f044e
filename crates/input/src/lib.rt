// Reading of input that tells its end from a read that failed.
#![tactic(auto)]

ghost use Rattle.std.specs.Prelude.{◌≡◌, ◌≤◌, ◌<◌, length, take, drop, IfOk, IfErr, OnErr};
ghost use Rattle.std.specs.Io.KnownBytes.{Consumes, Keeps, IsAtEnd};
ghost use Rattle.input.specs.Reading.{Reading};

use std::io::Read;

// A read failed: so many bytes had been read before it.
#[derive(Clone, Copy, Debug, PartialEq, Eq)]
pub struct ReadFailed {
    pub size: usize,
}

// One read to the lent bytes from an offset on: the offset after what was read. A read that failed read nothing: the offset that it began at.
fn read_from<R: Read>(reader: &mut R, buf: &mut [u8], from: usize) -> Result<usize, ReadFailed>
    requires { from ≤ length buf.old }
    ensures onward { IfOk result (λ next. from ≤ next) }
    ensures within { IfOk result (λ next. next ≤ length buf.old) }
    ensures failed_reads_nothing { IfErr result (λ failed. failed.size ≡ from) }
    ensures front { take from buf.new ≡ take from buf.old }
    ensures bytes { IfOk result (λ next. Consumes (R.remaining reader.old) (R.remaining reader.new) (drop from (take next buf.new))) }
    ensures none_lost { OnErr result (Keeps (R.remaining reader.old) (R.remaining reader.new)) }
    ensures end { IfOk result (λ next. next ≡ from → from < length buf.old → IsAtEnd (R.remaining reader.new)) }
{
    match reader.read(&mut buf[from..]) {
        Ok(more) => Ok(from + more),
        Err(_) => Err(ReadFailed { size: from }),
    }
}

// Reads to the front of the lent bytes until they are full, the input ends or a read fails, and gives how many bytes were read. A read that a
// signal interrupts counts as one that failed. What the contract leaves free stands in specs/Reading.antt.
pub fn read_all<R: Read>(reader: &mut R, buf: &mut [u8]) -> Result<usize, ReadFailed>
    ensures { Reading (R.remaining reader.old) (R.remaining reader.new) buf.old buf.new result }
{
    let mut size = 0;
    while size < buf.len() {
        let next = read_from(reader, buf, size)?;
        if next == size {
            break;
        }
        size = next;
    }
    Ok(size)
}
