// A sweep: one reader or decoder asked about many words, and all words of its answers folded into one digest.
use crate::op::Op;
use crate::operations::answer;
use crate::records::{Record, WRONG};
use answers::told::Refusal;

const MAX_COUNT: u64 = 65536;

// A digest with one more word in it.
pub(crate) fn folded_word(d: u64, word: u64) -> u64 {
    let a = d.wrapping_add(word);
    let b = a ^ (a << 13);
    let c = b ^ (b >> 7);
    c ^ (c << 17)
}

// A digest with more words in it.
pub(crate) fn folded(d: u64, words: &[u64]) -> u64 {
    words.iter().fold(d, |d, word| folded_word(d, *word))
}

fn folded_record(d: u64, q: Record) -> u64 {
    let asked = folded(folded_word(d, q.operation), &q.call);
    folded(folded(asked, &q.regs), &[q.told.number, q.told.carried])
}

// The bits that are shifted out are lost.
fn shifted(i: u64, shift: u64) -> u64 {
    i << (shift % 64)
}

// The first question; a later one has another r0.
fn first_question(q: Record) -> Record {
    Record {
        operation: q.call[0],
        call: [0; 9],
        regs: q.regs,
        told: Refusal {
            number: WRONG,
            carried: WRONG,
        },
    }
}

// In front of the registers stand an operation, a shift and a count.
fn digest(op: Op, q: Record) -> u64 {
    let first = first_question(q);
    let mut d = 0;
    for i in 0..q.call[2] {
        let asked = first.with_word(q.regs[0] ^ shifted(i, q.call[1]));
        d = folded_record(d, answer(op, asked));
    }
    d
}

// Whether the digest of a sweep, which it carries, is the codec's. A sweep that asks no reader or decoder, or has too great a shift or count, counts
// as one that differs.
pub(crate) fn is_digest_same(q: Record) -> bool {
    match Op::try_from(q.call[0]) {
        Ok(op) => {
            op.is_swept()
                && q.call[1] < 64
                && q.call[2] <= MAX_COUNT
                && digest(op, q) == q.told.carried
        }
        Err(_) => false,
    }
}
