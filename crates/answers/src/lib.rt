// What is turned back, and why: document 01, "What is turned back, by operation". The number beside each case is document 01's, above 25
// that of a request in document 02.
#![tactic(auto)]

ghost use Rattle.std.specs.Prelude.{◌≡◌};
ghost use Rattle.bits.specs.Signs.{word_of};
ghost use Rattle.answers.specs.Errors.{refusal_number, refusal_value};

pub mod told;

// What the codec turns back, with the value that it carries.
#[derive(Clone, Copy, Debug, PartialEq, Eq)]
pub enum Error {
    UnrecognisedFunctionId(u32), // 1
    InvalidPowerState(u32), // 2
    InvalidMpidr32(u32), // 3
    InvalidMpidr64(u64), // 4
    InvalidLowerAffinityLevel(u32), // 5
    UnrecognisedSystemOff2Type(u32), // 6
    UnrecognisedSystemReset2Type(u32), // 7
    UnrecognisedSuspendMode(u32), // 8
    UnrecognisedErrorCode(i32), // 9
    OverflowingErrorCode(i64), // 10
    InvalidVersion(u32), // 11
    UnrecognisedHwState(u32), // 12
    IgnoredNonZeroAff3(u8), // 13
    MixedCallForms, // 14
    InvalidStateId(u32), // 15
    InvalidMajorVersion(u16), // 16
    WrongLength(usize), // 17
    InvalidOriginalPowerState(u32), // 26
    InvalidPowerLevel(u8), // 27
    InvalidVendorType(u32), // 31
}

impl Error {
    // The papers' number of a refusal.
    pub fn number(self) -> u64
        ensures { result ≡ refusal_number self }
    {
        match self {
            Self::UnrecognisedFunctionId(_) => 1,
            Self::InvalidPowerState(_) => 2,
            Self::InvalidMpidr32(_) => 3,
            Self::InvalidMpidr64(_) => 4,
            Self::InvalidLowerAffinityLevel(_) => 5,
            Self::UnrecognisedSystemOff2Type(_) => 6,
            Self::UnrecognisedSystemReset2Type(_) => 7,
            Self::UnrecognisedSuspendMode(_) => 8,
            Self::UnrecognisedErrorCode(_) => 9,
            Self::OverflowingErrorCode(_) => 10,
            Self::InvalidVersion(_) => 11,
            Self::UnrecognisedHwState(_) => 12,
            Self::IgnoredNonZeroAff3(_) => 13,
            Self::MixedCallForms => 14,
            Self::InvalidStateId(_) => 15,
            Self::InvalidMajorVersion(_) => 16,
            Self::WrongLength(_) => 17,
            Self::InvalidOriginalPowerState(_) => 26,
            Self::InvalidPowerLevel(_) => 27,
            Self::InvalidVendorType(_) => 31,
        }
    }

    // The value that it carries, as a word: a signed one in two's complement of 64 bits.
    pub fn value(self) -> u64
        ensures { result ≡ word_of 64 (refusal_value self) }
    {
        match self {
            Self::UnrecognisedFunctionId(value) => u64::from(value),
            Self::InvalidPowerState(value) => u64::from(value),
            Self::InvalidMpidr32(value) => u64::from(value),
            Self::InvalidMpidr64(value) => value,
            Self::InvalidLowerAffinityLevel(value) => u64::from(value),
            Self::UnrecognisedSystemOff2Type(value) => u64::from(value),
            Self::UnrecognisedSystemReset2Type(value) => u64::from(value),
            Self::UnrecognisedSuspendMode(value) => u64::from(value),
            Self::UnrecognisedErrorCode(value) => i64::from(value).cast_unsigned(),
            Self::OverflowingErrorCode(value) => value.cast_unsigned(),
            Self::InvalidVersion(value) => u64::from(value),
            Self::UnrecognisedHwState(value) => u64::from(value),
            Self::IgnoredNonZeroAff3(value) => u64::from(value),
            Self::MixedCallForms => 0,
            Self::InvalidStateId(value) => u64::from(value),
            Self::InvalidMajorVersion(value) => u64::from(value),
            Self::WrongLength(value) => value as u64,
            Self::InvalidOriginalPowerState(value) => u64::from(value),
            Self::InvalidPowerLevel(value) => u64::from(value),
            Self::InvalidVendorType(value) => u64::from(value),
        }
    }
}
