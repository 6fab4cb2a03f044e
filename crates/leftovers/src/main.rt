// Reads a call log from standard input and prints what decoding ignores of each record, its leftovers: document 02, Change 7. What they are, and that
// they are written so, is sheet_text's part. A log that could not be read to its end has none: a line on standard error says so. The program sheet
// differs in the writer and the name alone: a function of a library for both would be public and only print, and each public function promises something
// (tools/contracts).
#![tactic(auto)]

use input::read_all;
use sheet_text::{LISTING_ROOM, write_leftovers};
use std::io;

fn print_leftovers(rt: &impl Print, log: &[u8]) -> io::Result<()> {
    let mut out = [0u8; LISTING_ROOM];
    let size = write_leftovers(log, &mut out);
    rt.write_all(&out[..size])
}

fn main(rt: HostRuntime) -> io::Result<()> {
    // A log is at most 64,601 bytes long: 65,536 show that one is longer.
    let mut log = [0u8; 65536];
    match read_all(&mut rt.stdin(), &mut log) {
        Ok(size) => print_leftovers(&rt, &log[..size]),
        Err(_) => rt.eprintln("leftovers: standard input could not be read"),
    }
}
