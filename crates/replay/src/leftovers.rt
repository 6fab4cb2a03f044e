// The operations with leftovers in a record: decode by the three decoders and encode in both formats of a power state. In the place of the registers
// a decoder gives the leftovers, and encode, which finds them there, its four words. Each goes by the function that is exported to C, but for the
// original format, whose leftovers are not exported.
use crate::op::{Decoder, Format};
use crate::records::{Record, wrong_regs};
use answers::told::Refusal;
use call_exports::call_asked::{Worded, call_asked};
use leftover_exports::{
    psci_decode_smccc_with_leftovers, psci_decode_with_leftovers, psci_encode_with_leftovers,
};
use original_calls::OriginalFormat;
use roundtrip::leftovers::{decode_with_leftovers, encode_with_leftovers};

// What was told, and in the place of the registers four words that were lent as `wrong_regs`. A refusal must have left them so, and is shown to have
// left the registers.
fn lent(q: Record, told: Refusal, words: [u64; 4]) -> Record {
    let regs = if told.number == 0 {
        words
    } else {
        wrong_regs(words)
    };
    Record {
        regs,
        ..q.told(told)
    }
}

// By roundtrip's own functions: nothing that is exported to C decodes or encodes with leftovers in this format.
fn decoded_original(q: Record) -> Record {
    let decoded = decode_with_leftovers::<OriginalFormat>(q.regs);
    let regs = decoded.leftovers;
    match decoded.answer {
        Ok(function) => Record {
            call: function.nine_words(),
            regs,
            ..q.accepted()
        },
        Err(error) => Record {
            regs,
            ..q.told(Refusal::from(error))
        },
    }
}

pub(crate) fn decoded(decoder: Decoder, q: Record) -> Record {
    let mut call = q.call;
    let mut words = wrong_regs(q.regs);
    let told = match decoder {
        Decoder::Document01 => psci_decode_with_leftovers(&q.regs, &mut call, &mut words),
        Decoder::Smccc => psci_decode_smccc_with_leftovers(&q.regs, &mut call, &mut words),
        Decoder::Original => return decoded_original(q),
    };
    Record {
        call,
        ..lent(q, told, words)
    }
}

// A call in the original format, written over its leftovers; nine words that are no call are turned back, and leave the registers.
fn encoded_original(q: Record, words: &mut [u64]) -> Refusal {
    match call_asked(q.call) {
        Ok(function) => Refusal::from(encode_with_leftovers::<OriginalFormat>(
            function, q.regs, words,
        )),
        Err(error) => Refusal::from(error),
    }
}

pub(crate) fn encoded(format: Format, q: Record) -> Record {
    let mut words = wrong_regs(q.regs);
    let told = match format {
        Format::Extended => psci_encode_with_leftovers(&q.call, &q.regs, &mut words),
        Format::Original => encoded_original(q, &mut words),
    };
    lent(q, told, words)
}
