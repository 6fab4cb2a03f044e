// The calls of any format of the power state as nine words, and the call of a tag.
ghost use Rattle.std.specs.Prelude.{◌≡◌};
ghost use Rattle.call_exports.specs.CallAsked.{call_at_by};
ghost use Rattle.call_exports.specs.NineWords.{nine_words_by};

use crate::call_asked::{Worded, WordsError};
use crate::from_parts::{
    cookie_in, entry_in, feature_in, mode_in, mpidr_in, range_in, reset_type_in,
};
use crate::low_bits::low32;
use crate::parts::{entry_of, form_part, mpidr_and, three, vendor, vendor_type};
use crate::state_words::StateWords;
use function::Call;
use words::SystemOff2Type;

// The words of a call, in a function of its own: LLVM then reads the call by whole words, for 8 instructions less than in the method itself.
#[tactic(auto, using(words::proofs::Flags::flag_word_is), unfolding(crate::specs::NineWords::nine_words_by))]
fn nine_words<S: StateWords>(function: Call<S>) -> [u64; 9]
    ensures { result ≡ nine_words_by S.parts function }
{
    match function {
        Call::Version => three(0, 0, 0, 0),
        Call::CpuSuspend { state, entry } => state.suspend_words(entry),
        Call::CpuOff => three(2, 0, 0, 0),
        Call::CpuOn { target_cpu, entry } => mpidr_and(
            3,
            target_cpu,
            form_part(entry),
            entry.entry_point_address(),
            entry.context_id(),
        ),
        Call::AffinityInfo {
            mpidr,
            lowest_affinity_level,
        } => mpidr_and(4, mpidr, u64::from(lowest_affinity_level), 0, 0),
        Call::Migrate { target_affinity } => mpidr_and(5, target_affinity, 0, 0, 0),
        Call::MigrateInfoType => three(6, 0, 0, 0),
        Call::MigrateInfoUpCpu { is_32bit } => three(7, u64::from(is_32bit), 0, 0),
        Call::SystemOff => three(8, 0, 0, 0),
        Call::SystemOff2 {
            off_type: _,
            cookie,
        } => three(9, 0, form_part(cookie), u64::from(cookie)),
        Call::SystemReset => three(10, 0, 0, 0),
        Call::SystemReset2 { reset_type, cookie } => [
            11,
            vendor(reset_type),
            vendor_type(reset_type),
            form_part(cookie),
            u64::from(cookie),
            0,
            0,
            0,
            0,
        ],
        Call::MemProtect { enabled } => three(12, u64::from(enabled), 0, 0),
        Call::MemProtectCheckRange { range } => three(
            13,
            form_part(range),
            range.base_word(),
            range.length_word(),
        ),
        Call::Features { psci_func_id } => three(14, u64::from(u32::from(psci_func_id)), 0, 0),
        Call::CpuFreeze => three(15, 0, 0, 0),
        Call::CpuDefaultSuspend { entry } => entry_of(16, entry),
        Call::NodeHwState {
            target_cpu,
            power_level,
        } => mpidr_and(17, target_cpu, u64::from(power_level), 0, 0),
        Call::SystemSuspend { entry } => entry_of(18, entry),
        Call::SetSuspendMode { mode } => three(19, u64::from(u32::from(mode)), 0, 0),
        Call::StatResidency {
            target_cpu,
            power_state,
        } => power_state.words_behind(20, target_cpu),
        Call::StatCount {
            target_cpu,
            power_state,
        } => power_state.words_behind(21, target_cpu),
    }
}

impl<S: StateWords> Worded for Call<S> {
    ghost words = { nine_words_by S.parts };

    ghost tagged = { call_at_by S.suspended S.behind };

    fn nine_words(self) -> [u64; 9] {
        nine_words(self)
    }

    #[tactic(auto, unfolding(crate::specs::CallAsked::call_at_by))]
    fn at_tag(c: [u64; 9]) -> Result<Self, WordsError> {
        let [tag, p1, p2, p3, p4, p5, p6, p7, p8] = c;
        let mpidr = mpidr_in(c);
        let function = match tag {
            0 => Self::Version,
            1 => S::suspended(c),
            2 => Self::CpuOff,
            3 => Self::CpuOn {
                target_cpu: mpidr,
                entry: entry_in(p6, p7, p8),
            },
            4 => Self::AffinityInfo {
                mpidr,
                lowest_affinity_level: low32(p6),
            },
            5 => Self::Migrate {
                target_affinity: mpidr,
            },
            6 => Self::MigrateInfoType,
            7 => Self::MigrateInfoUpCpu { is_32bit: p1 != 0 },
            8 => Self::SystemOff,
            9 => Self::SystemOff2 {
                off_type: SystemOff2Type::HibernateOff,
                cookie: cookie_in(p2, p3),
            },
            10 => Self::SystemReset,
            11 => Self::SystemReset2 {
                reset_type: reset_type_in(p1, p2),
                cookie: cookie_in(p3, p4),
            },
            12 => Self::MemProtect { enabled: p1 != 0 },
            13 => Self::MemProtectCheckRange {
                range: range_in(p1, p2, p3),
            },
            14 => Self::Features {
                psci_func_id: feature_in(p1),
            },
            15 => Self::CpuFreeze,
            16 => Self::CpuDefaultSuspend {
                entry: entry_in(p1, p2, p3),
            },
            17 => Self::NodeHwState {
                target_cpu: mpidr,
                power_level: low32(p6),
            },
            18 => Self::SystemSuspend {
                entry: entry_in(p1, p2, p3),
            },
            19 => Self::SetSuspendMode { mode: mode_in(p1) },
            20 => Self::StatResidency {
                target_cpu: mpidr,
                power_state: S::behind(c),
            },
            21 => Self::StatCount {
                target_cpu: mpidr,
                power_state: S::behind(c),
            },
            _ => return Err(WordsError::UnknownTag(tag)),
        };
        Ok(function)
    }
}
