// A call in another format of the power state: document 02, Change 1.
ghost use Rattle.std.specs.Prelude.{◌≡◌};
ghost use Rattle.function.specs.States.{with_state};

use crate::Call;

impl<S: Copy> Call<S> {
    // The call with this power state in the place of its own; a call that has none as it is. Every call has an answer.
    pub fn with_state<T: Copy>(self, state: T) -> Call<T>
        ensures { result ≡ with_state self state }
    {
        match self {
            Self::Version => Call::Version,
            Self::CpuSuspend { entry, .. } => Call::CpuSuspend { state, entry },
            Self::CpuOff => Call::CpuOff,
            Self::CpuOn { target_cpu, entry } => Call::CpuOn { target_cpu, entry },
            Self::AffinityInfo {
                mpidr,
                lowest_affinity_level,
            } => Call::AffinityInfo {
                mpidr,
                lowest_affinity_level,
            },
            Self::Migrate { target_affinity } => Call::Migrate { target_affinity },
            Self::MigrateInfoType => Call::MigrateInfoType,
            Self::MigrateInfoUpCpu { is_32bit } => Call::MigrateInfoUpCpu { is_32bit },
            Self::SystemOff => Call::SystemOff,
            Self::SystemOff2 { off_type, cookie } => Call::SystemOff2 { off_type, cookie },
            Self::SystemReset => Call::SystemReset,
            Self::SystemReset2 { reset_type, cookie } => Call::SystemReset2 { reset_type, cookie },
            Self::MemProtect { enabled } => Call::MemProtect { enabled },
            Self::MemProtectCheckRange { range } => Call::MemProtectCheckRange { range },
            Self::Features { psci_func_id } => Call::Features { psci_func_id },
            Self::CpuFreeze => Call::CpuFreeze,
            Self::CpuDefaultSuspend { entry } => Call::CpuDefaultSuspend { entry },
            Self::NodeHwState {
                target_cpu,
                power_level,
            } => Call::NodeHwState {
                target_cpu,
                power_level,
            },
            Self::SystemSuspend { entry } => Call::SystemSuspend { entry },
            Self::SetSuspendMode { mode } => Call::SetSuspendMode { mode },
            Self::StatResidency { target_cpu, .. } => Call::StatResidency {
                target_cpu,
                power_state: state,
            },
            Self::StatCount { target_cpu, .. } => Call::StatCount {
                target_cpu,
                power_state: state,
            },
        }
    }
}
