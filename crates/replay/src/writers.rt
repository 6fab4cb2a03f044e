// The operations that write a single word: that of the value whose nine words the record holds.
use crate::op::Writer;
use crate::records::Record;
use crate::values::{Words, code_index};
use answers::Error;
use answers::told::Refusal;
use codes::{ErrorCode, ReturnCode};
use function_ids::FunctionId;
use words::{
    ArchitecturalResetType, EntryPoint, HwState, Mpidr, OriginalPowerState, PowerState,
    PsciFeature, ResetType, SuspendMode, SystemOff2Type, Version,
};

// The word of the value, if the record holds the value's own words.
fn written<T: Words, F: FnOnce(T) -> u64>(q: Record, write: F) -> Record
    requires { F.IsAlwaysCallable write }
{
    let value = T::of(q.call);
    q.of_own(value.words(), q.accepted().with_word(write(value)))
}

// The same where writing may refuse.
fn tried<T: Words, F: FnOnce(T) -> Result<u32, Error>>(q: Record, write: F) -> Record
    requires { F.IsAlwaysCallable write }
{
    let value = T::of(q.call);
    let answer = match write(value) {
        Ok(word) => q.accepted().with_word(u64::from(word)),
        Err(error) => q.told(Refusal::from(error)),
    };
    q.of_own(value.words(), answer)
}

// A signed number as a word of 32 bits.
fn signed_word(number: i32) -> u64 {
    u64::from(number.cast_unsigned())
}

pub(crate) fn answer(writer: Writer, q: Record) -> Record {
    match writer {
        Writer::FunctionId => written(q, |value: FunctionId| u64::from(u32::from(value))),
        Writer::ReturnCode => written(q, |value: ReturnCode| signed_word(i32::from(value))),
        Writer::ErrorCode => written(q, |value: ErrorCode| signed_word(i32::from(value))),
        Writer::ErrorCode32 => written(q, |value: ErrorCode| u64::from(u32::from(value))),
        Writer::ErrorCode64 => written(q, |value: ErrorCode| u64::from(value)),
        Writer::Version => tried(q, |value: Version| u32::try_from(value)),
        Writer::PowerState => tried(q, |value: PowerState| u32::try_from(value)),
        Writer::Mpidr32 => tried(q, |value: Mpidr| u32::try_from(value)),
        Writer::Mpidr64 => written(q, |value: Mpidr| u64::from(value)),
        Writer::OffType => written(q, |value: SystemOff2Type| u64::from(u32::from(value))),
        Writer::Architectural => written(q, |value: ArchitecturalResetType| {
            u64::from(u32::from(value))
        }),
        Writer::ResetType => tried(q, |value: ResetType| u32::try_from(value)),
        Writer::Feature => written(q, |value: PsciFeature| u64::from(u32::from(value))),
        Writer::HwState => written(q, |value: HwState| u64::from(u32::from(value))),
        Writer::SuspendMode => written(q, |value: SuspendMode| u64::from(u32::from(value))),
        // A refusal's error code, by its index.
        Writer::ErrorToCode => written(q, |value: Error| code_index(ErrorCode::from(value))),
        Writer::EntryAddress => written(q, |value: EntryPoint| value.entry_point_address()),
        Writer::EntryContext => written(q, |value: EntryPoint| value.context_id()),
        Writer::OriginalPowerState => tried(q, |value: OriginalPowerState| u32::try_from(value)),
    }
}
