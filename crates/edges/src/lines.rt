// The edges of the line, and the sheet of document 01's example.
use crate::answered::Refused;
use crate::example::LOG;
use call_log::records;
use sheet_text::{SHEET_ROOM, write_sheet};
use std::io;

// A line's answer, and below it all lent bytes.
fn show_line(rt: &impl Print, record: usize, regs: [u64; 4], out: &mut [u8]) -> io::Result<()> {
    print!(rt; "line {record} into {} bytes: ", out.len())?;
    match record_line::line(record, regs, out) {
        Ok(size) => println!(rt; "length {size}")?,
        Err(error) => println!(rt; "{}", Refused::from(error))?,
    }
    rt.write_all(out)?;
    rt.println("")
}

// The line of the example's record at a position, into 80 bytes that hold dots.
fn show_record(rt: &impl Print, at: usize, record: usize) -> io::Result<()> {
    let mut out = [b'.'; 80];
    let regs = records::registers_of(records::record_at(&LOG, at));
    show_line(rt, record, regs, &mut out)
}

pub(crate) fn show_lines(rt: &impl Print) -> io::Result<()> {
    show_record(rt, 1, 0)?;
    show_record(rt, 35, 1)?;
    show_record(rt, 1, 1899)?;
    show_record(rt, 1, 1900)?;
    show_record(rt, 1, usize::MAX)?;
    let mut short = [b'.'; 79];
    show_line(rt, 0, [0x8400_0002, 7, 0, 0], &mut short)?;
    show_line(rt, 1900, [0x8400_0002, 7, 0, 0], &mut short)?;
    let mut long = [b'.'; 81];
    show_line(
        rt,
        9,
        [0xc400_0003, 0x1_0002_0304, 0xfedc_ba98_7654_3210, 9],
        &mut long,
    )?;
    show_line(rt, 10, [0x8400_0003, 0x0100_0000, 0, 0], &mut long)?;
    show_protect(rt)
}

// Memory protect: a line has the low half of r1. The high half of a 64-bit field stays.
fn show_protect(rt: &impl Print) -> io::Result<()> {
    let mut out = [b'.'; 80];
    show_line(rt, 2, [0x8400_0013, 0x1_0000_0000, 6, 7], &mut out)?;
    show_line(rt, 3, [0x8400_0013, 0xffff_ffff_0000_0000, 6, 7], &mut out)?;
    show_line(rt, 4, [0x8400_0013, 0x8000_0000, 6, 7], &mut out)?;
    show_line(rt, 5, [0x8400_0013, 0xffff_ffff_0000_0001, 6, 7], &mut out)?;
    show_line(rt, 6, [0xc400_0005, 0x1_0000_0000, 6, 7], &mut out)
}

// The example's sheet, exactly as long as the length that it was given.
pub(crate) fn show_sheet(rt: &impl Print) -> io::Result<()> {
    let mut out = [b'.'; SHEET_ROOM];
    let size = write_sheet(&LOG, &mut out);
    rt.write_all(&out[..size])
}
