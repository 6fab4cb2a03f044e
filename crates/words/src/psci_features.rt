ghost use Rattle.std.specs.Prelude.{◌≡◌};
ghost use Rattle.answers.specs.Errors.{answered};
ghost use Rattle.words.specs.PsciFeatures.{read_feature, feature_number};

use answers::Error;
use function_ids::FunctionId;

// PSCI_FEATURES psci_func_id, DEN0022 5.1.15.
#[derive(Clone, Copy, Debug, PartialEq, Eq)]
pub enum PsciFeature {
    PsciFunction(FunctionId),
    SmcccVersion,
}

impl PsciFeature {
    const SMCCC_VERSION: u32 = 0x8000_0000;
}

impl TryFrom<u32> for PsciFeature {
    type Error = Error;

    ghost try_from_gives = { λ value result. answered result ≡ read_feature value };

    // The SMCCC version of 0x80000000, the function of one of the 35 numbers; any other word is refused with 1, and carried.
    // Inlined in both of its callers: else every decode has a stack frame for the call (docs/BENCHMARKS.md).
    #[inline(always)]
    #[tactic(auto, unfolding(crate::specs::PsciFeatures::read_feature))]
    fn try_from(value: u32) -> Result<Self, Error> {
        if value == Self::SMCCC_VERSION {
            return Ok(Self::SmcccVersion);
        }
        Ok(Self::PsciFunction(FunctionId::try_from(value)?))
    }
}

impl From<PsciFeature> for u32 {
    ghost from_gives = { λ feature number. number ≡ feature_number feature };

    // The feature's number: the inverse of its reader.
    fn from(feature: PsciFeature) -> u32 {
        match feature {
            PsciFeature::PsciFunction(function_id) => u32::from(function_id),
            PsciFeature::SmcccVersion => PsciFeature::SMCCC_VERSION,
        }
    }
}
