// The operations on calls in a record: decode by the three decoders and encode in both formats of a power state, each by the function that is
// exported to C, and the function number in both formats.
use crate::op::{Decoder, Format};
use crate::records::Record;
use answers::told::Refusal;
use call_exports::call_asked::call_asked;
use call_exports::state_words::StateWords;
use call_exports::{psci_decode, psci_decode_smccc, psci_encode};
use function::Call;
use function_ids::FunctionId;
use original_exports::{psci_decode_original, psci_encode_original};
use words::{OriginalPowerState, PowerState};

pub(crate) fn decoded(decoder: Decoder, q: Record) -> Record {
    let mut call = q.call;
    let told = match decoder {
        Decoder::Document01 => psci_decode(&q.regs, &mut call),
        Decoder::Smccc => psci_decode_smccc(&q.regs, &mut call),
        Decoder::Original => psci_decode_original(&q.regs, &mut call),
    };
    Record {
        call,
        ..q.told(told)
    }
}

pub(crate) fn encoded(format: Format, q: Record) -> Record {
    let mut regs = q.regs;
    let told = match format {
        Format::Extended => psci_encode(&q.call, &mut regs),
        Format::Original => psci_encode_original(&q.call, &mut regs),
    };
    Record {
        regs,
        ..q.told(told)
    }
}

// The function number of the call that nine words stand for, or what is told of it.
fn number_of<S: StateWords>(call: [u64; 9]) -> Result<FunctionId, Refusal> {
    Ok(call_asked::<Call<S>>(call)?.function_id()?)
}

pub(crate) fn numbered(format: Format, q: Record) -> Record {
    let number = match format {
        Format::Extended => number_of::<PowerState>(q.call),
        Format::Original => number_of::<OriginalPowerState>(q.call),
    };
    match number {
        Ok(function_id) => q.accepted().with_word(u64::from(u32::from(function_id))),
        Err(refusal) => q.told(refusal),
    }
}
