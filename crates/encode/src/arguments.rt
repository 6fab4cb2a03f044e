// The argument words of a call.
ghost use Rattle.std.specs.Prelude.{◌≡◌, ◌∷◌, []};
ghost use Rattle.answers.specs.Answers.{accepted, through};
ghost use Rattle.answers.specs.Errors.{answered};
ghost use Rattle.encode_definition.specs.Arguments.{arguments_by};
ghost use Rattle.encode.specs.ArgumentAnswers.{arguments_answer};

use answers::Error;
use function::{Call, StateFormat};

// Words 1 to 3 of a call.
#[derive(Clone, Copy, Debug, PartialEq, Eq)]
pub struct Arguments {
    pub r1: u64,
    pub r2: u64,
    pub r3: u64,
}

// The fields of a call in their registers, zero elsewhere. A power state is refused as its format's writer refuses it (in the extended format a state ID
// above 0x0fffffff with 15, in the original format a level above 3 with 27), a vendor type above 0x7fffffff with 31; any other level is not checked.
#[tactic(auto, using(words::proofs::Flags::flag_word_is), unfolding(encode_definition::specs::Arguments::arguments_by))]
pub fn argument_words<S: StateFormat>(function: Call<S>) -> Result<Arguments, Error>
    ensures { arguments_answer result ≡ arguments_by S.write function }
{
    match function {
        Call::Version => three(0, 0, 0),
        Call::CpuSuspend { state, entry } => with_first(
            state.to_word(),
            entry.entry_point_address(),
            entry.context_id(),
        ),
        Call::CpuOff => three(0, 0, 0),
        Call::CpuOn { target_cpu, entry } => three(
            u64::from(target_cpu),
            entry.entry_point_address(),
            entry.context_id(),
        ),
        Call::AffinityInfo {
            mpidr,
            lowest_affinity_level,
        } => three(u64::from(mpidr), u64::from(lowest_affinity_level), 0),
        Call::Migrate { target_affinity } => three(u64::from(target_affinity), 0, 0),
        Call::MigrateInfoType => three(0, 0, 0),
        Call::MigrateInfoUpCpu { .. } => three(0, 0, 0),
        Call::SystemOff => three(0, 0, 0),
        Call::SystemOff2 { off_type, cookie } => three(
            u64::from(u32::from(off_type)),
            u64::from(cookie),
            0,
        ),
        Call::SystemReset => three(0, 0, 0),
        Call::SystemReset2 { reset_type, cookie } => with_first(
            u32::try_from(reset_type),
            u64::from(cookie),
            0,
        ),
        Call::MemProtect { enabled } => three(u64::from(enabled), 0, 0),
        Call::MemProtectCheckRange { range } => three(range.base_word(), range.length_word(), 0),
        Call::Features { psci_func_id } => three(u64::from(u32::from(psci_func_id)), 0, 0),
        Call::CpuFreeze => three(0, 0, 0),
        Call::CpuDefaultSuspend { entry } => three(
            entry.entry_point_address(),
            entry.context_id(),
            0,
        ),
        Call::NodeHwState {
            target_cpu,
            power_level,
        } => three(u64::from(target_cpu), u64::from(power_level), 0),
        Call::SystemSuspend { entry } => three(entry.entry_point_address(), entry.context_id(), 0),
        Call::SetSuspendMode { mode } => three(u64::from(u32::from(mode)), 0, 0),
        Call::StatResidency {
            target_cpu,
            power_state,
        } => with_second(u64::from(target_cpu), power_state.to_word()),
        Call::StatCount {
            target_cpu,
            power_state,
        } => with_second(u64::from(target_cpu), power_state.to_word()),
    }
}

// Three words that can't be refused.
fn three(r1: u64, r2: u64, r3: u64) -> Result<Arguments, Error>
    ensures { arguments_answer result ≡ accepted (r1 ∷ r2 ∷ r3 ∷ []) }
{
    Ok(Arguments { r1, r2, r3 })
}

// The words of a call with a word in r1 whose writer may refuse: then its refusal.
pub fn with_first(word: Result<u32, Error>, r2: u64, r3: u64) -> Result<Arguments, Error>
    ensures { arguments_answer result ≡ through (λ w. w ∷ r2 ∷ r3 ∷ []) (answered word) }
{
    three(u64::from(word?), r2, r3)
}

// The words of a call with a word in r2 whose writer may refuse: then its refusal. r3 is zero.
pub fn with_second(r1: u64, word: Result<u32, Error>) -> Result<Arguments, Error>
    ensures { arguments_answer result ≡ through (λ w. r1 ∷ w ∷ 0 ∷ []) (answered word) }
{
    three(r1, u64::from(word?), 0)
}
