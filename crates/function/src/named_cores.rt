// The cores that a call names: document 02, Change 6.
ghost use Rattle.std.specs.Prelude.{◌≡◌};
ghost use Rattle.function.specs.NamedCores.{named_cores};

use crate::Call;
use words::Mpidr;

// A group of cores: every core whose affinity fields from a level up are the MPIDR's. An absent affinity 3 is handed on as it is, and so is a
// level above 3.
#[derive(Clone, Copy, Debug, PartialEq, Eq)]
pub struct CoreGroup {
    pub mpidr: Mpidr,
    pub level: u32,
}

impl<S: Copy> Call<S> {
    // The cores that a call names: those of its MPIDR, at level 0 except in affinity info; none if it has none. Node hardware state counts as
    // level 0.
    #[tactic(auto, unfolding(crate::specs::NamedCores::named_cores))]
    pub fn named_cores(self) -> Option<CoreGroup>
        ensures { result ≡ named_cores self }
    {
        match self {
            Self::AffinityInfo {
                mpidr,
                lowest_affinity_level,
            } => Some(CoreGroup {
                mpidr,
                level: lowest_affinity_level,
            }),
            Self::CpuOn {
                target_cpu: mpidr,
                ..
            }
            | Self::Migrate {
                target_affinity: mpidr,
            }
            | Self::NodeHwState {
                target_cpu: mpidr,
                ..
            }
            | Self::StatResidency {
                target_cpu: mpidr,
                ..
            }
            | Self::StatCount {
                target_cpu: mpidr,
                ..
            } => Some(CoreGroup { mpidr, level: 0 }),
            Self::Version
            | Self::CpuSuspend { .. }
            | Self::CpuOff
            | Self::MigrateInfoType
            | Self::MigrateInfoUpCpu { .. }
            | Self::SystemOff
            | Self::SystemOff2 { .. }
            | Self::SystemReset
            | Self::SystemReset2 { .. }
            | Self::MemProtect { .. }
            | Self::MemProtectCheckRange { .. }
            | Self::Features { .. }
            | Self::CpuFreeze
            | Self::CpuDefaultSuspend { .. }
            | Self::SystemSuspend { .. }
            | Self::SetSuspendMode { .. } => None,
        }
    }
}
