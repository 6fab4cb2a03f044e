// An answer of the Rust against the codec's: its question is asked anew, and the whole record is compared.
use crate::op::{Given, Op};
use crate::operations::answer;
use crate::records::{Record, WRONG, wrong_regs};
use crate::sweeps::{folded, folded_word, is_digest_same};
use answers::told::Refusal;

// The question of an answered record: every word that the answer writes is made wrong. A refusal writes its number and what it carries, and no other
// word. With leftovers the registers are the question's.
fn question(op: Op, q: Record) -> Record {
    let asked = q.told(Refusal {
        number: q.told.number ^ WRONG,
        carried: q.told.carried ^ WRONG,
    });
    if q.told.number != 0 {
        return asked;
    }
    match op.given() {
        Given::Nine | Given::NineAndLeftovers => Record {
            call: q.call.map(|word| word ^ WRONG),
            ..asked
        },
        Given::Four => Record {
            regs: wrong_regs(q.regs),
            ..asked
        },
        Given::FourOverLeftovers => asked,
        Given::One => asked.with_word(q.regs[0] ^ WRONG),
    }
}

// An answer with leftovers as the Rust's is recorded: it has no room for the registers that were asked, so these stand in their place, and as the
// last word a digest of what the answer carries and of its four words.
fn digested(q: Record, answer: Record) -> Record {
    let carried = folded(folded_word(0, answer.told.carried), &answer.regs);
    let regs = q.regs;
    Record {
        regs,
        ..answer.told(Refusal {
            number: answer.told.number,
            carried,
        })
    }
}

// Whether the answer to an operation is what was recorded.
fn is_recorded(op: Op, q: Record) -> bool {
    let answer = answer(op, question(op, q));
    match op.given() {
        Given::NineAndLeftovers | Given::FourOverLeftovers => digested(q, answer) == q,
        _ => answer == q,
    }
}

// Whether the codec gives what the Rust gave.
pub(crate) fn agrees(q: Record) -> bool {
    match Op::try_from(q.operation) {
        Ok(Op::Sweep) => is_digest_same(q),
        Ok(op) => is_recorded(op, q),
        Err(_) => q.unknown_operation() == q,
    }
}
