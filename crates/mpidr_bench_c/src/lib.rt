// libmpidr_bench.a, for oracle/bench alone: each function of mpidr_bench that is exported, with the clauses that it has there.
#![tactic(auto)]

ghost use Rattle.std.specs.Prelude.{get_or};
ghost use Rattle.answers.specs.Answers.{through};
ghost use Rattle.answers.specs.Lent.{Writes};
ghost use Rattle.answers.specs.Told.{refusal_in};
ghost use Rattle.words.specs.Mpidrs.{read_mpidr64};
ghost use Rattle.mpidr_bench.specs.Exports.{affinity_words};

use answers::told::Refusal;

// The codec's reader, by the halves of the register: affinities 0 to 3. Refused with 4; the lent words are then as they were.
#[unsafe(no_mangle)]
pub extern "C" fn bench_mpidr_halves(register: &[u64; 1], out: &mut [u64; 4]) -> Refusal
    ensures writes { Writes refusal_in (through affinity_words (read_mpidr64 (get_or register.now 0 0))) out.old result out.new }
{
    mpidr_bench::bench_mpidr_halves(register, out)
}

// The reader of the whole register, with the same answers.
#[unsafe(no_mangle)]
pub extern "C" fn bench_mpidr_whole(register: &[u64; 1], out: &mut [u64; 4]) -> Refusal
    ensures writes { Writes refusal_in (through affinity_words (read_mpidr64 (get_or register.now 0 0))) out.old result out.new }
{
    mpidr_bench::bench_mpidr_whole(register, out)
}
