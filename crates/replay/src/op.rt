// The operations by their numbers. oracle/harness/src/lib.rs has those of an answer of the Rust, and says what each reads.
use answers::told::Refusal;

// Which decoder: document 01's, Change 2's, or Change 1's of the original power state.
#[derive(Clone, Copy, Debug, PartialEq, Eq)]
pub(crate) enum Decoder {
    Document01,
    Smccc,
    Original,
}

// The format of a power state: document 01's, or Change 1's.
#[derive(Clone, Copy, Debug, PartialEq, Eq)]
pub(crate) enum Format {
    Extended,
    Original,
}

// What reads a single word: r0, or its low half.
#[derive(Clone, Copy, Debug, PartialEq, Eq)]
pub(crate) enum Reader {
    FunctionId,
    ReturnCode,
    ErrorCode,
    ErrorCode32,
    ErrorCode64,
    Version,
    PowerState,
    Mpidr32,
    Mpidr64,
    MpidrRegister,
    OffType,
    Architectural,
    ResetType,
    Feature,
    HwState,
    SuspendMode,
    // An MPIDR of the low bytes of the registers.
    FromAff3210,
    FromAff210,
    OriginalPowerState,
}

// What writes a single word.
#[derive(Clone, Copy, Debug, PartialEq, Eq)]
pub(crate) enum Writer {
    FunctionId,
    ReturnCode,
    ErrorCode,
    ErrorCode32,
    ErrorCode64,
    Version,
    PowerState,
    Mpidr32,
    Mpidr64,
    OffType,
    Architectural,
    ResetType,
    Feature,
    HwState,
    SuspendMode,
    // A refusal to its error code.
    ErrorToCode,
    EntryAddress,
    EntryContext,
    OriginalPowerState,
}

#[derive(Clone, Copy, Debug, PartialEq, Eq)]
pub(crate) enum Op {
    Decode(Decoder),
    Encode(Format),
    FunctionId(Format),
    // Those of Change 7.
    DecodeWithLeftovers(Decoder),
    EncodeWithLeftovers(Format),
    Read(Reader),
    Write(Writer),
    // Many words to one reader or decoder.
    Sweep,
    // Those that only a labelled record has: a heading, which is a label alone; a call written to a lent run, whose length is what the record
    // carries; and, each by the function that is exported to C, the three recodes of four registers and the line of a record, whose number stands for
    // the tag.
    Heading,
    Lent(Format),
    Recode(Decoder),
    Line,
}

// The words that an answer gives, in the place of those that were asked.
#[derive(Clone, Copy, Debug, PartialEq, Eq)]
pub(crate) enum Given {
    Nine,
    // Nine words, and the leftovers in the place of the registers.
    NineAndLeftovers,
    Four,
    // Four words in the place of the leftovers.
    FourOverLeftovers,
    One,
}

impl Op {
    // The decoders and the readers give nine words, encode gives four registers, a function number or a single word is one.
    pub(crate) fn given(self) -> Given {
        match self {
            Self::Decode(_) | Self::Read(_) => Given::Nine,
            Self::DecodeWithLeftovers(_) => Given::NineAndLeftovers,
            Self::Encode(_) => Given::Four,
            Self::EncodeWithLeftovers(_) => Given::FourOverLeftovers,
            _ => Given::One,
        }
    }

    // Whether a sweep may ask it: a decoder without leftovers, or a reader of one word.
    pub(crate) fn is_swept(self) -> bool {
        match self {
            Self::Decode(_) => true,
            Self::Read(reader) => reader != Reader::FromAff3210 && reader != Reader::FromAff210,
            _ => false,
        }
    }
}

// No operation has this number, or none that is asked.
#[derive(Clone, Copy, Debug, PartialEq, Eq)]
pub(crate) struct UnknownOperation(pub(crate) u64);

// Its refusal, which carries the number, beside those of call_exports and the papers'.
const UNKNOWN_OPERATION: u64 = 1001;

impl From<UnknownOperation> for Refusal {
    fn from(operation: UnknownOperation) -> Self {
        Self {
            number: UNKNOWN_OPERATION,
            carried: operation.0,
        }
    }
}

// The numbers from here on are those of writers: also a number that no operation has is shown as one of these, or as one of the others.
const FIRST_WRITER: u64 = 48;

impl UnknownOperation {
    // What is shown of it: as of a decoder or a reader, or as of a writer.
    pub(crate) fn given(self) -> Given {
        if self.0 < FIRST_WRITER {
            Given::Nine
        } else {
            Given::One
        }
    }
}

impl TryFrom<u64> for Op {
    type Error = UnknownOperation;

    fn try_from(number: u64) -> Result<Self, UnknownOperation> {
        let op = match number {
            0 => Self::Decode(Decoder::Document01),
            1 => Self::Encode(Format::Extended),
            2 => Self::FunctionId(Format::Extended),
            3 => Self::Decode(Decoder::Smccc),
            4 => Self::Decode(Decoder::Original),
            5 => Self::Encode(Format::Original),
            6 => Self::FunctionId(Format::Original),
            7 => Self::DecodeWithLeftovers(Decoder::Document01),
            8 => Self::DecodeWithLeftovers(Decoder::Smccc),
            9 => Self::DecodeWithLeftovers(Decoder::Original),
            10 => Self::EncodeWithLeftovers(Format::Extended),
            11 => Self::EncodeWithLeftovers(Format::Original),
            16 => Self::Read(Reader::FunctionId),
            17 => Self::Read(Reader::ReturnCode),
            18 => Self::Read(Reader::ErrorCode),
            19 => Self::Read(Reader::ErrorCode32),
            20 => Self::Read(Reader::ErrorCode64),
            21 => Self::Read(Reader::Version),
            22 => Self::Read(Reader::PowerState),
            23 => Self::Read(Reader::Mpidr32),
            24 => Self::Read(Reader::Mpidr64),
            25 => Self::Read(Reader::MpidrRegister),
            26 => Self::Read(Reader::OffType),
            27 => Self::Read(Reader::Architectural),
            28 => Self::Read(Reader::ResetType),
            29 => Self::Read(Reader::Feature),
            30 => Self::Read(Reader::HwState),
            31 => Self::Read(Reader::SuspendMode),
            32 => Self::Read(Reader::FromAff3210),
            33 => Self::Read(Reader::FromAff210),
            34 => Self::Read(Reader::OriginalPowerState),
            48 => Self::Write(Writer::FunctionId),
            49 => Self::Write(Writer::ReturnCode),
            50 => Self::Write(Writer::ErrorCode),
            51 => Self::Write(Writer::ErrorCode32),
            52 => Self::Write(Writer::ErrorCode64),
            53 => Self::Write(Writer::Version),
            54 => Self::Write(Writer::PowerState),
            55 => Self::Write(Writer::Mpidr32),
            56 => Self::Write(Writer::Mpidr64),
            57 => Self::Write(Writer::OffType),
            58 => Self::Write(Writer::Architectural),
            59 => Self::Write(Writer::ResetType),
            60 => Self::Write(Writer::Feature),
            61 => Self::Write(Writer::HwState),
            62 => Self::Write(Writer::SuspendMode),
            63 => Self::Write(Writer::ErrorToCode),
            64 => Self::Write(Writer::EntryAddress),
            65 => Self::Write(Writer::EntryContext),
            66 => Self::Write(Writer::OriginalPowerState),
            2000 => Self::Sweep,
            3000 => Self::Heading,
            3001 => Self::Lent(Format::Extended),
            3002 => Self::Lent(Format::Original),
            3003 => Self::Recode(Decoder::Document01),
            3004 => Self::Recode(Decoder::Smccc),
            3005 => Self::Recode(Decoder::Original),
            3006 => Self::Line,
            _ => return Err(UnknownOperation(number)),
        };
        Ok(op)
    }
}
