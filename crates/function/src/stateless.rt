// The calls that have no power state, which are the same in every format of it: document 02, Change 1.
ghost use Rattle.std.specs.Prelude.{◌≡◌};
ghost use Rattle.function.specs.Stateless.{among, function_of};

use crate::{Call, Function};

// What stands in the place of a power state in a call that has none: no value can. It has no `Debug` and no `==`: no call could be made of them.
#[derive(Clone, Copy)]
pub enum NoState {}

// The 19 calls that have no power state.
pub type StatelessFunction = Call<NoState>;

impl Call<NoState> {
    // The same call in any format of the power state. Every call has one.
    pub fn in_format<S: Copy>(self) -> Call<S>
        ensures { result ≡ among self }
    {
        match self {
            Self::Version => Call::Version,
            Self::CpuOff => Call::CpuOff,
            Self::CpuOn { target_cpu, entry } => Call::CpuOn { target_cpu, entry },
            Self::AffinityInfo {
                mpidr,
                lowest_affinity_level,
            } => Call::AffinityInfo {
                mpidr,
                lowest_affinity_level,
            },
            Self::Migrate { target_affinity } => Call::Migrate { target_affinity },
            Self::MigrateInfoType => Call::MigrateInfoType,
            Self::MigrateInfoUpCpu { is_32bit } => Call::MigrateInfoUpCpu { is_32bit },
            Self::SystemOff => Call::SystemOff,
            Self::SystemOff2 { off_type, cookie } => Call::SystemOff2 { off_type, cookie },
            Self::SystemReset => Call::SystemReset,
            Self::SystemReset2 { reset_type, cookie } => Call::SystemReset2 { reset_type, cookie },
            Self::MemProtect { enabled } => Call::MemProtect { enabled },
            Self::MemProtectCheckRange { range } => Call::MemProtectCheckRange { range },
            Self::Features { psci_func_id } => Call::Features { psci_func_id },
            Self::CpuFreeze => Call::CpuFreeze,
            Self::CpuDefaultSuspend { entry } => Call::CpuDefaultSuspend { entry },
            Self::NodeHwState {
                target_cpu,
                power_level,
            } => Call::NodeHwState {
                target_cpu,
                power_level,
            },
            Self::SystemSuspend { entry } => Call::SystemSuspend { entry },
            Self::SetSuspendMode { mode } => Call::SetSuspendMode { mode },
        }
    }

    // The same call among document 01's. Every call has one.
    pub fn to_function(self) -> Function
        ensures { result ≡ function_of self }
    {
        self.in_format()
    }
}
