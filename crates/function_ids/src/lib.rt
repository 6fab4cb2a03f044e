// The 35 function numbers: the enum FunctionId, its reader and its writer, and their rising order (indexes.rt). The table of calls is a definition
// alone (specs/CallTable.antt).
#![tactic(auto)]

ghost use Rattle.std.specs.Prelude.{◌≡◌};
ghost use Rattle.answers.specs.Errors.{answered};
ghost use Rattle.function_ids.specs.FunctionIds.{function_number, read_function_id};

mod indexes;

use answers::Error;

// The functions with their numbers, DEN0022 5.1, in rising order of the low half: 0x84000000 + n is the 32-bit form, 0xc4000000 + n the 64-bit form.
#[derive(Clone, Copy, Debug, PartialEq, Eq)]
pub enum FunctionId {
    PsciVersion = 0x8400_0000,
    CpuSuspend32 = 0x8400_0001,
    CpuSuspend64 = 0xc400_0001,
    CpuOff = 0x8400_0002,
    CpuOn32 = 0x8400_0003,
    CpuOn64 = 0xc400_0003,
    AffinityInfo32 = 0x8400_0004,
    AffinityInfo64 = 0xc400_0004,
    Migrate32 = 0x8400_0005,
    Migrate64 = 0xc400_0005,
    MigrateInfoType = 0x8400_0006,
    MigrateInfoUpCpu32 = 0x8400_0007,
    MigrateInfoUpCpu64 = 0xc400_0007,
    SystemOff = 0x8400_0008,
    SystemReset = 0x8400_0009,
    PsciFeatures = 0x8400_000a,
    CpuFreeze = 0x8400_000b,
    CpuDefaultSuspend32 = 0x8400_000c,
    CpuDefaultSuspend64 = 0xc400_000c,
    NodeHwState32 = 0x8400_000d,
    NodeHwState64 = 0xc400_000d,
    SystemSuspend32 = 0x8400_000e,
    SystemSuspend64 = 0xc400_000e,
    PsciSetSuspendMode = 0x8400_000f,
    PsciStatResidency32 = 0x8400_0010,
    PsciStatResidency64 = 0xc400_0010,
    PsciStatCount32 = 0x8400_0011,
    PsciStatCount64 = 0xc400_0011,
    SystemReset232 = 0x8400_0012,
    SystemReset264 = 0xc400_0012,
    MemProtect = 0x8400_0013,
    MemProtectCheckRange32 = 0x8400_0014,
    MemProtectCheckRange64 = 0xc400_0014,
    SystemOff232 = 0x8400_0015,
    SystemOff264 = 0xc400_0015,
}

impl FunctionId {
    // The numbers by name, for the reader and decode.
    pub const PSCI_VERSION: u32 = Self::PsciVersion as u32;

    pub const CPU_SUSPEND_32: u32 = Self::CpuSuspend32 as u32;

    pub const CPU_SUSPEND_64: u32 = Self::CpuSuspend64 as u32;

    pub const CPU_OFF: u32 = Self::CpuOff as u32;

    pub const CPU_ON_32: u32 = Self::CpuOn32 as u32;

    pub const CPU_ON_64: u32 = Self::CpuOn64 as u32;

    pub const AFFINITY_INFO_32: u32 = Self::AffinityInfo32 as u32;

    pub const AFFINITY_INFO_64: u32 = Self::AffinityInfo64 as u32;

    pub const MIGRATE_32: u32 = Self::Migrate32 as u32;

    pub const MIGRATE_64: u32 = Self::Migrate64 as u32;

    pub const MIGRATE_INFO_TYPE: u32 = Self::MigrateInfoType as u32;

    pub const MIGRATE_INFO_UP_CPU_32: u32 = Self::MigrateInfoUpCpu32 as u32;

    pub const MIGRATE_INFO_UP_CPU_64: u32 = Self::MigrateInfoUpCpu64 as u32;

    pub const SYSTEM_OFF: u32 = Self::SystemOff as u32;

    pub const SYSTEM_RESET: u32 = Self::SystemReset as u32;

    pub const PSCI_FEATURES: u32 = Self::PsciFeatures as u32;

    pub const CPU_FREEZE: u32 = Self::CpuFreeze as u32;

    pub const CPU_DEFAULT_SUSPEND_32: u32 = Self::CpuDefaultSuspend32 as u32;

    pub const CPU_DEFAULT_SUSPEND_64: u32 = Self::CpuDefaultSuspend64 as u32;

    pub const NODE_HW_STATE_32: u32 = Self::NodeHwState32 as u32;

    pub const NODE_HW_STATE_64: u32 = Self::NodeHwState64 as u32;

    pub const SYSTEM_SUSPEND_32: u32 = Self::SystemSuspend32 as u32;

    pub const SYSTEM_SUSPEND_64: u32 = Self::SystemSuspend64 as u32;

    pub const PSCI_SET_SUSPEND_MODE: u32 = Self::PsciSetSuspendMode as u32;

    pub const PSCI_STAT_RESIDENCY_32: u32 = Self::PsciStatResidency32 as u32;

    pub const PSCI_STAT_RESIDENCY_64: u32 = Self::PsciStatResidency64 as u32;

    pub const PSCI_STAT_COUNT_32: u32 = Self::PsciStatCount32 as u32;

    pub const PSCI_STAT_COUNT_64: u32 = Self::PsciStatCount64 as u32;

    pub const SYSTEM_RESET2_32: u32 = Self::SystemReset232 as u32;

    pub const SYSTEM_RESET2_64: u32 = Self::SystemReset264 as u32;

    pub const MEM_PROTECT: u32 = Self::MemProtect as u32;

    pub const MEM_PROTECT_CHECK_RANGE_32: u32 = Self::MemProtectCheckRange32 as u32;

    pub const MEM_PROTECT_CHECK_RANGE_64: u32 = Self::MemProtectCheckRange64 as u32;

    pub const SYSTEM_OFF2_32: u32 = Self::SystemOff232 as u32;

    pub const SYSTEM_OFF2_64: u32 = Self::SystemOff264 as u32;
}

impl TryFrom<u32> for FunctionId {
    type Error = Error;

    ghost try_from_gives = { λ value result. answered result ≡ read_function_id value };

    // The function of a number; a number that none of the 35 has is refused with 1, and carried.
    // Inlined wherever it is called, as `PsciFeature::try_from` is.
    #[inline(always)]
    #[tactic(auto, unfolding(crate::specs::FunctionIds::read_function_id))]
    fn try_from(value: u32) -> Result<Self, Error> {
        let function_id = match value {
            Self::PSCI_VERSION => Self::PsciVersion,
            Self::CPU_SUSPEND_32 => Self::CpuSuspend32,
            Self::CPU_SUSPEND_64 => Self::CpuSuspend64,
            Self::CPU_OFF => Self::CpuOff,
            Self::CPU_ON_32 => Self::CpuOn32,
            Self::CPU_ON_64 => Self::CpuOn64,
            Self::AFFINITY_INFO_32 => Self::AffinityInfo32,
            Self::AFFINITY_INFO_64 => Self::AffinityInfo64,
            Self::MIGRATE_32 => Self::Migrate32,
            Self::MIGRATE_64 => Self::Migrate64,
            Self::MIGRATE_INFO_TYPE => Self::MigrateInfoType,
            Self::MIGRATE_INFO_UP_CPU_32 => Self::MigrateInfoUpCpu32,
            Self::MIGRATE_INFO_UP_CPU_64 => Self::MigrateInfoUpCpu64,
            Self::SYSTEM_OFF => Self::SystemOff,
            Self::SYSTEM_RESET => Self::SystemReset,
            Self::PSCI_FEATURES => Self::PsciFeatures,
            Self::CPU_FREEZE => Self::CpuFreeze,
            Self::CPU_DEFAULT_SUSPEND_32 => Self::CpuDefaultSuspend32,
            Self::CPU_DEFAULT_SUSPEND_64 => Self::CpuDefaultSuspend64,
            Self::NODE_HW_STATE_32 => Self::NodeHwState32,
            Self::NODE_HW_STATE_64 => Self::NodeHwState64,
            Self::SYSTEM_SUSPEND_32 => Self::SystemSuspend32,
            Self::SYSTEM_SUSPEND_64 => Self::SystemSuspend64,
            Self::PSCI_SET_SUSPEND_MODE => Self::PsciSetSuspendMode,
            Self::PSCI_STAT_RESIDENCY_32 => Self::PsciStatResidency32,
            Self::PSCI_STAT_RESIDENCY_64 => Self::PsciStatResidency64,
            Self::PSCI_STAT_COUNT_32 => Self::PsciStatCount32,
            Self::PSCI_STAT_COUNT_64 => Self::PsciStatCount64,
            Self::SYSTEM_RESET2_32 => Self::SystemReset232,
            Self::SYSTEM_RESET2_64 => Self::SystemReset264,
            Self::MEM_PROTECT => Self::MemProtect,
            Self::MEM_PROTECT_CHECK_RANGE_32 => Self::MemProtectCheckRange32,
            Self::MEM_PROTECT_CHECK_RANGE_64 => Self::MemProtectCheckRange64,
            Self::SYSTEM_OFF2_32 => Self::SystemOff232,
            Self::SYSTEM_OFF2_64 => Self::SystemOff264,
            _ => return Err(Error::UnrecognisedFunctionId(value)),
        };
        Ok(function_id)
    }
}

impl From<FunctionId> for u32 {
    ghost from_gives = { λ function_id number. number ≡ function_number function_id };

    // The number of a function.
    fn from(function_id: FunctionId) -> u32 {
        function_id as u32
    }
}
