// The answer to a record, an arm for each operation of a call; those that read and write a single word are in readers.rt and writers.rt.
use crate::op::Op;
use crate::records::Record;
use crate::{calls, leftovers, readers, writers};

pub(crate) fn answer(op: Op, q: Record) -> Record {
    match op {
        Op::Decode(decoder) => calls::decoded(decoder, q),
        Op::Encode(format) => calls::encoded(format, q),
        Op::FunctionId(format) => calls::numbered(format, q),
        Op::DecodeWithLeftovers(decoder) => leftovers::decoded(decoder, q),
        Op::EncodeWithLeftovers(format) => leftovers::encoded(format, q),
        Op::Read(reader) => readers::answer(reader, q),
        Op::Write(writer) => writers::answer(writer, q),
        Op::Sweep | Op::Heading | Op::Lent(_) | Op::Recode(_) | Op::Line => q.unknown_operation(),
    }
}
