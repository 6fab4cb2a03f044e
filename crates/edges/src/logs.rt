// The edges of the log and its reader.
ghost use Rattle.std.specs.Prelude.{◌≤◌};

use crate::answered::{show_count, show_open, show_part, show_read, show_second};
use crate::example::LOG;
use call_log::{LENGTH_BYTES, MAX_LOG_LENGTH, RECORD_STEP};
use std::io;

// What is asked of a log, and at which position.
#[derive(Clone, Copy, Debug, PartialEq, Eq)]
enum Asked {
    Open,
    Read(usize),
    Part(usize),
    Count,
    Second(usize),
}

fn show_asked(rt: &impl Print, asked: Asked, log: &[u8]) -> io::Result<()> {
    match asked {
        Asked::Open => show_open(rt, log),
        Asked::Read(at) => show_read(rt, log, at),
        Asked::Part(at) => show_part(rt, log, at),
        Asked::Count => show_count(rt, log),
        Asked::Second(at) => show_second(rt, log, at),
    }
}

fn show_each(rt: &impl Print, log: &[u8], cases: &[Asked]) -> io::Result<()> {
    for asked in cases {
        show_asked(rt, *asked, log)?;
    }
    Ok(())
}

// What is asked of the whole log.
const WHOLE: [Asked; 16] = [
    Asked::Open,
    Asked::Read(0),
    Asked::Read(1),
    Asked::Read(2),
    Asked::Read(35),
    Asked::Read(68),
    Asked::Read(69),
    Asked::Read(70),
    Asked::Read(usize::MAX),
    Asked::Part(0),
    Asked::Part(1),
    Asked::Part(69),
    Asked::Count,
    Asked::Second(1),
    Asked::Second(35),
    Asked::Second(70),
];

// The whole log, then what is left when it is cut.
pub(crate) fn show_cases(rt: &impl Print) -> io::Result<()> {
    show_each(rt, &LOG, &WHOLE)?;
    show_each(
        rt,
        &[],
        &[Asked::Open, Asked::Count, Asked::Read(0), Asked::Read(1)],
    )?;
    show_each(rt, &LOG[1..], &[Asked::Open, Asked::Count])?;
    show_each(rt, &LOG[..1], &[Asked::Open, Asked::Count])?;
    show_each(rt, &LOG[..36], &[Asked::Read(35), Asked::Count])?;
    show_each(rt, &LOG[..37], &[Asked::Read(35)])?;
    show_each(
        rt,
        &LOG[..68],
        &[Asked::Read(35), Asked::Part(35), Asked::Count],
    )
}

// The two bytes that say how long the second record is, and what is read there then, in so many bytes of the log.
fn show_length(rt: &impl Print, length: u16, size: usize) -> io::Result<()>
    requires { size ≤ 69 }
{
    let mut log = LOG;
    [log[35], log[36]] = length.to_be_bytes();
    show_each(rt, &log[..size], &[Asked::Read(35), Asked::Count])
}

pub(crate) fn show_lengths(rt: &impl Print) -> io::Result<()> {
    show_length(rt, 0, 69)?;
    show_length(rt, 31, 69)?;
    show_length(rt, 33, 69)?;
    show_length(rt, 0x2000, 69)?;
    show_length(rt, 31, 68)?;
    show_length(rt, 33, 37)
}

// A version byte, and behind it the length bytes of records; a last byte on its own stays.
fn fill(log: &mut [u8], version: u8) {
    if let Some((first, records)) = log.split_first_mut() {
        *first = version;
        for record in records.chunks_mut(RECORD_STEP) {
            if let Some(low) = record.get_mut(LENGTH_BYTES - 1) {
                *low = 32;
            }
        }
    }
}

fn show_full(rt: &impl Print, log: &[u8]) -> io::Result<()> {
    show_each(
        rt,
        log,
        &[
            Asked::Open,
            Asked::Count,
            Asked::Read(64567),
            Asked::Read(64601),
        ],
    )
}

// A log of the greatest length, and one byte longer.
pub(crate) fn show_longest(rt: &impl Print, version: u8) -> io::Result<()> {
    let mut log = [0u8; MAX_LOG_LENGTH + 1];
    fill(&mut log, version);
    if let Some((_, longest)) = log.split_last() {
        show_full(rt, longest)?;
    }
    show_full(rt, &log)
}
