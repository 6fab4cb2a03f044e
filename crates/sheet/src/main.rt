// Reads a call log from standard input and prints its sheet. What the sheet is, and that it is written so, is sheet_text's part. A log
// that could not be read to its end has no sheet: a line on standard error says so. The program leftovers says why the two share no function.
#![tactic(auto)]

use input::read_all;
use sheet_text::{SHEET_ROOM, write_sheet};
use std::io;

fn print_sheet(rt: &impl Print, log: &[u8]) -> io::Result<()> {
    let mut out = [0u8; SHEET_ROOM];
    let size = write_sheet(log, &mut out);
    rt.write_all(&out[..size])
}

fn main(rt: HostRuntime) -> io::Result<()> {
    // A log is at most 64,601 bytes long: 65,536 show that one is longer.
    let mut log = [0u8; 65536];
    match read_all(&mut rt.stdin(), &mut log) {
        Ok(size) => print_sheet(&rt, &log[..size]),
        Err(_) => rt.eprintln("sheet: standard input could not be read"),
    }
}
