// What the log and its reader answer, a line for each answer.
use call_log::counts::Counted;
use call_log::errors::LogError;
use call_log::{counts, readers, records};
use record_line::LineError;
use std::{fmt, io};

// A refusal as it is printed: its number and the value that it carries.
#[derive(Clone, Copy, Debug, PartialEq, Eq)]
pub(crate) struct Refused {
    number: u64,
    value: u64,
}

// An impl for each error: one for both would need a trait for `number` and `value` in a crate below both.
impl From<LogError> for Refused {
    fn from(error: LogError) -> Self {
        Self {
            number: error.number(),
            value: error.value(),
        }
    }
}

impl From<LineError> for Refused {
    fn from(error: LineError) -> Self {
        Self {
            number: error.number(),
            value: error.value(),
        }
    }
}

impl fmt::Display for Refused {
    fn fmt<W: fmt::Write>(&self, f: &mut fmt::Formatter<W>) -> fmt::Result {
        let number = self.number;
        let value = self.value;
        write!(f, "refused {number} {value}")
    }
}

fn show_found(rt: &impl Print, found: Result<Option<usize>, LogError>) -> io::Result<()> {
    match found {
        Ok(Some(next)) => println!(rt; "record, next {next}"),
        Ok(None) => println!(rt; "end"),
        Err(error) => println!(rt; "{}", Refused::from(error)),
    }
}

pub(crate) fn show_read(rt: &impl Print, log: &[u8], at: usize) -> io::Result<()> {
    print!(rt; "{} bytes, read at {at}: ", log.len())?;
    show_found(rt, call_log::read_at(log, at))
}

pub(crate) fn show_part(rt: &impl Print, log: &[u8], at: usize) -> io::Result<()> {
    let length = records::record_at(log, at).len();
    println!(rt; "{} bytes, part at {at}: length {length}", log.len())
}

pub(crate) fn show_open(rt: &impl Print, log: &[u8]) -> io::Result<()> {
    print!(rt; "{} bytes, open: ", log.len())?;
    match call_log::open(log) {
        Ok(start) => println!(rt; "position {start}"),
        Err(error) => println!(rt; "{}", Refused::from(error)),
    }
}

pub(crate) fn show_count(rt: &impl Print, log: &[u8]) -> io::Result<()> {
    let Counted { records, refusal } = counts::count(log);
    println!(rt; "{} bytes, count: {records} {refusal}", log.len())
}

// What a reader made at a position answers the second time.
pub(crate) fn show_second(rt: &impl Print, log: &[u8], at: usize) -> io::Result<()> {
    print!(rt; "{} bytes, second answer of a reader at {at}: ", log.len())?;
    show_found(rt, readers::second(log, at))
}
