// Labelled cases: a line for each, with its label and what the codec answers.
use crate::op::{Decoder, Format, Given, Op};
use crate::operations::answer;
use crate::records::Record;
use answers::told::Refusal;
use call_exports::call_asked::{Worded, call_asked};
use call_exports::{psci_recode, psci_recode_smccc};
use call_log::big_endian::byte_at;
use line_exports::psci_line;
use original_calls::OriginalFormat;
use original_exports::psci_recode_original;
use roundtrip::{Codec, Document01};
use std::io;

// What lent words hold before a call is written to them.
const PATTERN: u64 = 0xa5a5;

fn show_words(rt: &impl Print, words: &[u64]) -> io::Result<()> {
    for word in words {
        print!(rt; " {word:x}")?;
    }
    Ok(())
}

// A function and no `Display`: `Refusal` is of another crate.
fn show_refusal(rt: &impl Print, number: u64, value: u64) -> io::Result<()> {
    print!(rt; ": refused {number} {value:x}")
}

// Accepted is told as twice 0: a success that carried something would be shown as a refusal.
fn show_told(rt: &impl Print, told: Refusal) -> io::Result<()> {
    if told.number | told.carried == 0 {
        rt.print(": accepted")
    } else {
        show_refusal(rt, told.number, told.carried)
    }
}

// The answer to a record, with the words that it gives. A word that was not written is as it was asked.
fn show_answer(rt: &impl Print, given: Given, q: Record) -> io::Result<()> {
    show_told(rt, q.told)?;
    match given {
        Given::Nine => show_words(rt, &q.call),
        Given::NineAndLeftovers => {
            show_words(rt, &q.call)?;
            show_words(rt, &q.regs)
        }
        Given::Four | Given::FourOverLeftovers | Given::One => show_words(rt, &q.regs),
    }
}

// A call written to a lent run by a codec, and what is told of it. `encode_nine` takes a run of four alone.
fn encoded<C: Codec>(call: [u64; 9], out: &mut [u64]) -> Refusal
where
    C::Call: Worded,
{
    match call_asked::<C::Call>(call) {
        Ok(call) => Refusal::from(C::encode(call, out)),
        Err(error) => Refusal::from(error),
    }
}

// A call written to the first numbers of five, of which as many are lent as the record carries; all five are shown.
fn show_lent(rt: &impl Print, format: Format, q: Record) -> io::Result<()> {
    let mut run = [PATTERN; 5];
    let length = (q.told.carried % 6) as usize;
    let out = &mut run[..length];
    let told = match format {
        Format::Extended => encoded::<Document01>(q.call, out),
        Format::Original => encoded::<OriginalFormat>(q.call, out),
    };
    show_told(rt, told)?;
    show_words(rt, &run)
}

fn show_recoded(rt: &impl Print, decoder: Decoder, q: Record) -> io::Result<()> {
    let mut regs = [PATTERN; 4];
    let told = match decoder {
        Decoder::Document01 => psci_recode(&q.regs, &mut regs),
        Decoder::Smccc => psci_recode_smccc(&q.regs, &mut regs),
        Decoder::Original => psci_recode_original(&q.regs, &mut regs),
    };
    show_told(rt, told)?;
    show_words(rt, &regs)
}

// What is told of a line, and below it all lent bytes.
fn show_line(rt: &impl Print, q: Record) -> io::Result<()> {
    let mut out = [b'.'; 80];
    let told = psci_line(q.call[0] as usize, &q.regs, &mut out);
    if told.number == 0 {
        print!(rt; ": length {}", told.value)?;
    } else {
        show_refusal(rt, told.number, told.value)?;
    }
    rt.println("")?;
    rt.write_all(&out)
}

pub(crate) fn show_case(rt: &impl Print, q: Record) -> io::Result<()> {
    match Op::try_from(q.operation) {
        Ok(Op::Heading) => {}
        Ok(Op::Lent(format)) => show_lent(rt, format, q)?,
        Ok(Op::Recode(decoder)) => show_recoded(rt, decoder, q)?,
        Ok(Op::Line) => show_line(rt, q)?,
        Ok(op) => show_answer(rt, op.given(), answer(op, q))?,
        Err(unknown) => show_answer(rt, unknown.given(), q.unknown_operation())?,
    }
    rt.println("")
}

// Byte 127 of a label is its length.
pub(crate) fn show_label(rt: &impl Print, label: &[u8]) -> io::Result<()> {
    let length = usize::from(byte_at(label, 127));
    if length < label.len() {
        rt.write_all(&label[..length])?;
    }
    Ok(())
}
