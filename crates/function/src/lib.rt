// The typed call: the enum Call, over the format of its power state (state_format.rt), its function number, the cores that it names (named_cores.rt), the
// call in another format (states.rt), and the calls that have no power state (stateless.rt).
#![tactic(auto)]

ghost use Rattle.std.specs.Prelude.{◌≡◌};
ghost use Rattle.answers.specs.Errors.{answered};
ghost use Rattle.function.specs.Functions.{function_id_of};

pub mod forms;
mod named_cores;
mod state_format;
mod stateless;
mod states;

use answers::Error;
use forms::Formed;
use function_ids::FunctionId;
pub use named_cores::CoreGroup;
pub use state_format::StateFormat;
pub use stateless::{NoState, StatelessFunction};
use words::{
    Cookie, EntryPoint, MemProtectRange, Mpidr, PowerState, PsciFeature, ResetType, SuspendMode,
    SystemOff2Type,
};

// The calls with their arguments, the power state in any format.
#[derive(Clone, Copy, Debug, PartialEq, Eq)]
pub enum Call<S> {
    Version,
    CpuSuspend {
        state: S,
        entry: EntryPoint,
    },
    CpuOff,
    CpuOn {
        target_cpu: Mpidr,
        entry: EntryPoint,
    },
    AffinityInfo {
        mpidr: Mpidr,
        lowest_affinity_level: u32,
    },
    Migrate {
        target_affinity: Mpidr,
    },
    MigrateInfoType,
    MigrateInfoUpCpu {
        is_32bit: bool,
    },
    SystemOff,
    SystemOff2 {
        off_type: SystemOff2Type,
        cookie: Cookie,
    },
    SystemReset,
    SystemReset2 {
        reset_type: ResetType,
        cookie: Cookie,
    },
    MemProtect {
        enabled: bool,
    },
    MemProtectCheckRange {
        range: MemProtectRange,
    },
    Features {
        psci_func_id: PsciFeature,
    },
    CpuFreeze,
    CpuDefaultSuspend {
        entry: EntryPoint,
    },
    NodeHwState {
        target_cpu: Mpidr,
        power_level: u32,
    },
    SystemSuspend {
        entry: EntryPoint,
    },
    SetSuspendMode {
        mode: SuspendMode,
    },
    StatResidency {
        target_cpu: Mpidr,
        power_state: S,
    },
    StatCount {
        target_cpu: Mpidr,
        power_state: S,
    },
}

// Document 01's calls: the extended format.
pub type Function = Call<PowerState>;

impl<S: Copy> Call<S> {
    // The function number, in the form that the call follows. A CPU on whose MPIDR and entry differ in form is refused with 14; nothing else
    // is refused.
    #[tactic(auto, unfolding(crate::specs::Functions::function_id_of))]
    pub fn function_id(self) -> Result<FunctionId, Error>
        ensures { answered result ≡ function_id_of self }
    {
        let function_id = match self {
            Self::Version => FunctionId::PsciVersion,
            Self::CpuSuspend { entry, .. } => {
                entry.in_form(FunctionId::CpuSuspend32, FunctionId::CpuSuspend64)
            }
            Self::CpuOff => FunctionId::CpuOff,
            Self::CpuOn { target_cpu, entry } => forms::cpu_on(target_cpu, entry)?,
            Self::AffinityInfo { mpidr, .. } => {
                mpidr.in_form(FunctionId::AffinityInfo32, FunctionId::AffinityInfo64)
            }
            Self::Migrate { target_affinity } => {
                target_affinity.in_form(FunctionId::Migrate32, FunctionId::Migrate64)
            }
            Self::MigrateInfoType => FunctionId::MigrateInfoType,
            Self::MigrateInfoUpCpu { is_32bit: true } => FunctionId::MigrateInfoUpCpu32,
            Self::MigrateInfoUpCpu { is_32bit: false } => FunctionId::MigrateInfoUpCpu64,
            Self::SystemOff => FunctionId::SystemOff,
            Self::SystemOff2 { cookie, .. } => {
                cookie.in_form(FunctionId::SystemOff232, FunctionId::SystemOff264)
            }
            Self::SystemReset => FunctionId::SystemReset,
            Self::SystemReset2 { cookie, .. } => {
                cookie.in_form(FunctionId::SystemReset232, FunctionId::SystemReset264)
            }
            Self::MemProtect { .. } => FunctionId::MemProtect,
            Self::MemProtectCheckRange { range } => range.in_form(
                FunctionId::MemProtectCheckRange32,
                FunctionId::MemProtectCheckRange64,
            ),
            Self::Features { .. } => FunctionId::PsciFeatures,
            Self::CpuFreeze => FunctionId::CpuFreeze,
            Self::CpuDefaultSuspend { entry } => entry.in_form(
                FunctionId::CpuDefaultSuspend32,
                FunctionId::CpuDefaultSuspend64,
            ),
            Self::NodeHwState { target_cpu, .. } => {
                target_cpu.in_form(FunctionId::NodeHwState32, FunctionId::NodeHwState64)
            }
            Self::SystemSuspend { entry } => {
                entry.in_form(FunctionId::SystemSuspend32, FunctionId::SystemSuspend64)
            }
            Self::SetSuspendMode { .. } => FunctionId::PsciSetSuspendMode,
            Self::StatResidency { target_cpu, .. } => target_cpu.in_form(
                FunctionId::PsciStatResidency32,
                FunctionId::PsciStatResidency64,
            ),
            Self::StatCount { target_cpu, .. } => {
                target_cpu.in_form(FunctionId::PsciStatCount32, FunctionId::PsciStatCount64)
            }
        };
        Ok(function_id)
    }
}
