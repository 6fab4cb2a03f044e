// The 35 functions in rising order of their numbers, which is not the order of the enum: the 32-bit forms have the indexes 0 to 21, the 64-bit
// forms 22 to 34.
ghost use Rattle.std.specs.Prelude.{◌≡◌};
ghost use Rattle.function_ids.specs.FunctionIndexes.{index_of, function_at};

use crate::FunctionId;

impl FunctionId {
    // The functions in that order.
    const RISING: [Self; 35] = [
        Self::PsciVersion,
        Self::CpuSuspend32,
        Self::CpuOff,
        Self::CpuOn32,
        Self::AffinityInfo32,
        Self::Migrate32,
        Self::MigrateInfoType,
        Self::MigrateInfoUpCpu32,
        Self::SystemOff,
        Self::SystemReset,
        Self::PsciFeatures,
        Self::CpuFreeze,
        Self::CpuDefaultSuspend32,
        Self::NodeHwState32,
        Self::SystemSuspend32,
        Self::PsciSetSuspendMode,
        Self::PsciStatResidency32,
        Self::PsciStatCount32,
        Self::SystemReset232,
        Self::MemProtect,
        Self::MemProtectCheckRange32,
        Self::SystemOff232,
        Self::CpuSuspend64,
        Self::CpuOn64,
        Self::AffinityInfo64,
        Self::Migrate64,
        Self::MigrateInfoUpCpu64,
        Self::CpuDefaultSuspend64,
        Self::NodeHwState64,
        Self::SystemSuspend64,
        Self::PsciStatResidency64,
        Self::PsciStatCount64,
        Self::SystemReset264,
        Self::MemProtectCheckRange64,
        Self::SystemOff264,
    ];

    // How many of the 35 functions have a smaller number: 0 to 34.
    #[tactic(auto, unfolding(crate::specs::FunctionIndexes::index_of))]
    pub fn index(self) -> u64
        ensures { result ≡ index_of self }
    {
        match self {
            Self::PsciVersion => 0,
            Self::CpuSuspend32 => 1,
            Self::CpuSuspend64 => 22,
            Self::CpuOff => 2,
            Self::CpuOn32 => 3,
            Self::CpuOn64 => 23,
            Self::AffinityInfo32 => 4,
            Self::AffinityInfo64 => 24,
            Self::Migrate32 => 5,
            Self::Migrate64 => 25,
            Self::MigrateInfoType => 6,
            Self::MigrateInfoUpCpu32 => 7,
            Self::MigrateInfoUpCpu64 => 26,
            Self::SystemOff => 8,
            Self::SystemReset => 9,
            Self::PsciFeatures => 10,
            Self::CpuFreeze => 11,
            Self::CpuDefaultSuspend32 => 12,
            Self::CpuDefaultSuspend64 => 27,
            Self::NodeHwState32 => 13,
            Self::NodeHwState64 => 28,
            Self::SystemSuspend32 => 14,
            Self::SystemSuspend64 => 29,
            Self::PsciSetSuspendMode => 15,
            Self::PsciStatResidency32 => 16,
            Self::PsciStatResidency64 => 30,
            Self::PsciStatCount32 => 17,
            Self::PsciStatCount64 => 31,
            Self::SystemReset232 => 18,
            Self::SystemReset264 => 32,
            Self::MemProtect => 19,
            Self::MemProtectCheckRange32 => 20,
            Self::MemProtectCheckRange64 => 33,
            Self::SystemOff232 => 21,
            Self::SystemOff264 => 34,
        }
    }

    // The function at an index, which is taken modulo 35.
    #[tactic(auto, unfolding(crate::specs::FunctionIndexes::function_at))]
    pub fn at_index(index: u64) -> Self
        ensures { result ≡ function_at index }
    {
        Self::RISING[(index % 35) as usize]
    }
}
