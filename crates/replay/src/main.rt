// Puts the codec to the answers of the Rust and to labelled cases, in blocks of 128 bytes on standard input. Plain code without promises: a
// slip here shows as a difference.
//
// A block is a record of sixteen big-endian words (records.rt), its operation first (op.rt), and an answer of the Rust, the power states of Change
// 1's operations by the masks of linux/psci.h, leftovers by exclusive-or: it is compared (compared.rt), or asks a sweep (sweeps.rt). But a block
// whose first byte is a printable character is a label: it is printed, and the record behind it is asked as it stands and shown (shown.rt), not
// compared.
//
// The last line says how many records and sweeps were compared, and how many differed. A block cut short counts as one that differs, and so
// does a record that a label lacks.
#![tactic(auto)]

mod calls;
mod compared;
mod leftovers;
mod op;
mod operations;
mod readers;
mod records;
mod shown;
mod sweeps;
mod values;
mod writers;

use call_log::big_endian::byte_at;
use compared::agrees;
use input::read_all;
use records::Record;
use shown::{show_case, show_label};
use std::io;

// The bytes of a block.
const BLOCK: usize = 128;

// What was compared so far, and whether the last block was a label, whose record comes next.
#[derive(Clone, Copy, Debug, PartialEq, Eq)]
struct Tally {
    seen: u64,
    differed: u64,
    labelled: bool,
}

// How the input goes on behind what was read: on, not at all, behind a block cut short, or with a read that failed.
#[derive(Clone, Copy, Debug, PartialEq, Eq)]
enum Rest {
    More,
    End,
    Cut,
    Failed,
}

impl Tally {
    fn count(&mut self, same: bool) {
        self.seen = self.seen.wrapping_add(1);
        if !same {
            self.differed = self.differed.wrapping_add(1);
        }
    }
}

fn block(rt: &impl Print, t: &mut Tally, bytes: &[u8; BLOCK]) -> io::Result<()> {
    if t.labelled {
        t.labelled = false;
        return show_case(rt, Record::from(bytes));
    }
    let first = byte_at(bytes, 0);
    if 0x20 <= first && first <= 0x7e {
        t.labelled = true;
        return show_label(rt, bytes);
    }
    t.count(agrees(Record::from(bytes)));
    Ok(())
}

// Whether the bytes were whole blocks.
fn blocks(rt: &impl Print, t: &mut Tally, bytes: &[u8]) -> io::Result<bool> {
    let (whole, rest) = bytes.as_chunks::<BLOCK>();
    for bytes in whole {
        block(rt, t, bytes)?;
    }
    Ok(rest.is_empty())
}

// Reads as many blocks as there is room for: fewer only at the end of the input, or where a read failed.
fn step<R: io::Read>(rt: &impl Print, reader: &mut R, t: &mut Tally) -> io::Result<Rest> {
    let mut buf = [0u8; 65536];
    match read_all(reader, &mut buf) {
        Ok(size) => {
            let is_whole = blocks(rt, t, &buf[..size])?;
            Ok(if size == buf.len() {
                Rest::More
            } else if is_whole {
                Rest::End
            } else {
                Rest::Cut
            })
        }
        Err(failed) => {
            blocks(rt, t, &buf[..failed.size])?;
            Ok(Rest::Failed)
        }
    }
}

fn run<R: io::Read>(rt: &impl Print, reader: &mut R, t: &mut Tally) -> io::Result<Rest> {
    for _ in 0..u64::MAX {
        let rest = step(rt, reader, t)?;
        if rest != Rest::More {
            return Ok(rest);
        }
    }
    Ok(Rest::More)
}

fn main(rt: HostRuntime) -> io::Result<()> {
    let mut t = Tally {
        seen: 0,
        differed: 0,
        labelled: false,
    };
    let rest = run(&rt, &mut rt.stdin(), &mut t)?;
    if t.labelled {
        rt.println("")?;
    }
    if rest == Rest::Failed {
        return rt.eprintln("replay: standard input could not be read");
    }
    if t.labelled || rest == Rest::Cut {
        t.count(false);
    }
    println!(rt; "{} {}", t.seen, t.differed)
}
