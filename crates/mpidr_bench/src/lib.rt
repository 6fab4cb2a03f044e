// Two readers of a 64-bit MPIDR, for oracle/bench alone: the codec's, by the halves of the register, and one by the whole register with the
// same contract. C reaches both in the same way.
#![tactic(auto)]

ghost use Rattle.std.specs.Prelude.{◌≡◌, get_or};
ghost use Rattle.answers.specs.Answers.{through};
ghost use Rattle.answers.specs.Errors.{answered};
ghost use Rattle.answers.specs.Lent.{Writes};
ghost use Rattle.answers.specs.Told.{refusal_in};
ghost use Rattle.words.specs.Mpidrs.{read_mpidr64};
ghost use Rattle.mpidr_bench.specs.Exports.{affinity_words};

use answers::Error;
use answers::told::{Refusal, accepted_words};
use words::Mpidr;

// The MPIDR of a 64-bit word, with affinity 3, from the whole register: the answers of `Mpidr::try_from`. A word with a bit of 24–31 or
// 40–63 is refused with 4, and carried.
#[tactic(auto, using(crate::proofs::Whole::whole_refused, crate::proofs::Whole::whole_passed))]
pub fn try_from_whole(value: u64) -> Result<Mpidr, Error>
    ensures { answered result ≡ read_mpidr64 value }
{
    let mbz = Mpidr::mbz_bits_64();
    if value & mbz != 0 {
        Err(Error::InvalidMpidr64(value))
    } else {
        Ok(Mpidr::from_aff3210(
            ((value >> 32) % 0x100) as u8,
            ((value >> 16) % 0x100) as u8,
            ((value >> 8) % 0x100) as u8,
            (value % 0x100) as u8,
        ))
    }
}

// Affinities 0 to 3 as words.
fn affinity_words(mpidr: Mpidr) -> [u64; 4]
    ensures { result ≡ affinity_words mpidr }
{
    [
        u64::from(mpidr.aff0),
        u64::from(mpidr.aff1),
        u64::from(mpidr.aff2),
        mpidr.aff3.map_or(0, u64::from),
    ]
}

// A reader's answer as C takes it: affinities 0 to 3 in the lent words; or a refusal, which leaves them as they were.
fn told(answer: Result<Mpidr, Error>, out: &mut [u64; 4]) -> Refusal
    ensures writes { Writes refusal_in (through affinity_words (answered answer)) out.old result out.new }
{
    match answer {
        Ok(mpidr) => {
            *out = affinity_words(mpidr);
            accepted_words()
        }
        Err(error) => Refusal::from(error),
    }
}

// The codec's reader, by the halves of the register: affinities 0 to 3. Refused with 4; the lent words are then as they were.
pub fn bench_mpidr_halves(register: &[u64; 1], out: &mut [u64; 4]) -> Refusal
    ensures writes { Writes refusal_in (through affinity_words (read_mpidr64 (get_or register.now 0 0))) out.old result out.new }
{
    told(Mpidr::try_from(register[0]), out)
}

// The reader of the whole register, with the same answers.
pub fn bench_mpidr_whole(register: &[u64; 1], out: &mut [u64; 4]) -> Refusal
    ensures writes { Writes refusal_in (through affinity_words (read_mpidr64 (get_or register.now 0 0))) out.old result out.new }
{
    told(try_from_whole(register[0]), out)
}
