// The operations that read a single word, r0 or its low half, and those that make an MPIDR of the low bytes of the registers.
use crate::op::Reader;
use crate::records::Record;
use crate::values::Words;
use answers::Error;
use answers::told::Refusal;
use call_exports::low_bits::{low8, low32};
use codes::{ErrorCode, ReturnCode};
use function_ids::FunctionId;
use words::{
    ArchitecturalResetType, HwState, Mpidr, OriginalPowerState, PowerState, PsciFeature, ResetType,
    SuspendMode, SystemOff2Type, Version,
};

fn given<T: Words>(q: Record, value: T) -> Record {
    Record {
        call: value.words(),
        ..q.accepted()
    }
}

fn read<T: Words>(q: Record, value: Result<T, Error>) -> Record {
    match value {
        Ok(value) => given(q, value),
        Err(error) => q.told(Refusal::from(error)),
    }
}

pub(crate) fn answer(reader: Reader, q: Record) -> Record {
    let [r0, r1, r2, r3] = q.regs;
    let word = low32(r0);
    match reader {
        Reader::FunctionId => read(q, FunctionId::try_from(word)),
        Reader::ReturnCode => read(q, ReturnCode::try_from(word.cast_signed())),
        Reader::ErrorCode => read(q, ErrorCode::try_from(word.cast_signed())),
        Reader::ErrorCode32 => read(q, ErrorCode::try_from(word)),
        Reader::ErrorCode64 => read(q, ErrorCode::try_from(r0)),
        Reader::Version => read(q, Version::try_from(word)),
        Reader::PowerState => read(q, PowerState::try_from(word)),
        Reader::Mpidr32 => read(q, Mpidr::try_from(word)),
        Reader::Mpidr64 => read(q, Mpidr::try_from(r0)),
        Reader::MpidrRegister => given(q, Mpidr::from_register_value(r0)),
        Reader::OffType => read(q, SystemOff2Type::try_from(word)),
        Reader::Architectural => read(q, ArchitecturalResetType::try_from(word)),
        Reader::ResetType => read(q, ResetType::try_from(word)),
        Reader::Feature => read(q, PsciFeature::try_from(word)),
        Reader::HwState => read(q, HwState::try_from(word)),
        Reader::SuspendMode => read(q, SuspendMode::try_from(word)),
        Reader::FromAff3210 => given(
            q,
            Mpidr::from_aff3210(low8(r0), low8(r1), low8(r2), low8(r3)),
        ),
        Reader::FromAff210 => given(q, Mpidr::from_aff210(low8(r0), low8(r1), low8(r2))),
        Reader::OriginalPowerState => read(q, OriginalPowerState::try_from(word)),
    }
}
