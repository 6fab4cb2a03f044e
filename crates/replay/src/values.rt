// A single value as nine words, a 0, its parts and zeros; and the value that nine words stand for, each part cut to its slot. call_exports has
// the parts that a call has too.
use answers::Error;
use call_exports::from_parts::{
    entry_in, feature_in, mode_in, mpidr_in, power_state_in, reset_type_in,
};
use call_exports::low_bits::{low8, low16, low32};
use call_exports::parts::{down, entry_of, mpidr_and, state_id, three, vendor, vendor_type};
use codes::{ErrorCode, ReturnCode};
use function_ids::FunctionId;
use words::{
    ArchitecturalResetType, EntryPoint, HwState, Mpidr, OriginalPowerState, PowerState,
    PsciFeature, ResetType, SuspendMode, SystemOff2Type, Version,
};

// A value that a record can hold in the place of a call. It is no From, which takes a type of this crate.
pub(crate) trait Words: Copy {
    fn words(self) -> [u64; 9];

    // Words that no value has stand for a value whose words are others, as in call_exports.
    fn of(words: [u64; 9]) -> Self;
}

// The words of a value that is one part.
fn one_part(part: u64) -> [u64; 9] {
    three(0, part, 0, 0)
}

// The codes in the order of their numbers from -1 down: a code's part is its index here, and not its number.
const CODES: [ErrorCode; 9] = [
    ErrorCode::NotSupported,
    ErrorCode::InvalidParameters,
    ErrorCode::Denied,
    ErrorCode::AlreadyOn,
    ErrorCode::OnPending,
    ErrorCode::InternalFailure,
    ErrorCode::NotPresent,
    ErrorCode::Disabled,
    ErrorCode::InvalidAddress,
];

pub(crate) fn code_index(error_code: ErrorCode) -> u64 {
    let index = CODES.iter().position(|code| *code == error_code);
    index.unwrap_or(CODES.len()) as u64
}

fn code_at(index: u64) -> ErrorCode {
    let code = usize::try_from(index).ok().and_then(|at| CODES.get(at));
    code.copied().unwrap_or(ErrorCode::NotSupported)
}

impl Words for FunctionId {
    fn words(self) -> [u64; 9] {
        one_part(u64::from(u32::from(self)))
    }

    fn of(words: [u64; 9]) -> Self {
        Self::try_from(low32(words[1])).unwrap_or(Self::PsciVersion)
    }
}

impl Words for ErrorCode {
    fn words(self) -> [u64; 9] {
        one_part(code_index(self))
    }

    fn of(words: [u64; 9]) -> Self {
        code_at(words[1])
    }
}

impl Words for ReturnCode {
    fn words(self) -> [u64; 9] {
        match self {
            Self::Success => one_part(0),
            Self::Error(error_code) => three(0, 1, code_index(error_code), 0),
        }
    }

    fn of(words: [u64; 9]) -> Self {
        if words[1] == 0 {
            Self::Success
        } else {
            Self::Error(code_at(words[2]))
        }
    }
}

impl Words for Version {
    fn words(self) -> [u64; 9] {
        three(0, u64::from(self.major), u64::from(self.minor), 0)
    }

    fn of(words: [u64; 9]) -> Self {
        Self {
            major: low16(words[1]),
            minor: low16(words[2]),
        }
    }
}

impl Words for PowerState {
    fn words(self) -> [u64; 9] {
        three(0, down(self), state_id(self), 0)
    }

    fn of(words: [u64; 9]) -> Self {
        power_state_in(words[1], words[2])
    }
}

impl Words for OriginalPowerState {
    fn words(self) -> [u64; 9] {
        three(
            0,
            u64::from(self.power_down),
            u64::from(self.state_id),
            u64::from(self.level),
        )
    }

    fn of(words: [u64; 9]) -> Self {
        Self {
            state_id: low16(words[2]),
            power_down: words[1] != 0,
            level: low8(words[3]),
        }
    }
}

impl Words for Mpidr {
    fn words(self) -> [u64; 9] {
        mpidr_and(0, self, 0, 0, 0)
    }

    fn of(words: [u64; 9]) -> Self {
        mpidr_in(words)
    }
}

impl Words for EntryPoint {
    fn words(self) -> [u64; 9] {
        entry_of(0, self)
    }

    fn of(words: [u64; 9]) -> Self {
        entry_in(words[1], words[2], words[3])
    }
}

impl Words for SystemOff2Type {
    fn words(self) -> [u64; 9] {
        one_part(0)
    }

    fn of(_words: [u64; 9]) -> Self {
        Self::HibernateOff
    }
}

impl Words for ArchitecturalResetType {
    fn words(self) -> [u64; 9] {
        one_part(0)
    }

    fn of(_words: [u64; 9]) -> Self {
        Self::SystemWarmReset
    }
}

impl Words for ResetType {
    fn words(self) -> [u64; 9] {
        three(0, vendor(self), vendor_type(self), 0)
    }

    fn of(words: [u64; 9]) -> Self {
        reset_type_in(words[1], words[2])
    }
}

impl Words for PsciFeature {
    fn words(self) -> [u64; 9] {
        one_part(u64::from(u32::from(self)))
    }

    fn of(words: [u64; 9]) -> Self {
        feature_in(words[1])
    }
}

impl Words for HwState {
    fn words(self) -> [u64; 9] {
        one_part(u64::from(u32::from(self)))
    }

    fn of(words: [u64; 9]) -> Self {
        Self::try_from(low32(words[1])).unwrap_or(Self::On)
    }
}

impl Words for SuspendMode {
    fn words(self) -> [u64; 9] {
        one_part(u64::from(u32::from(self)))
    }

    fn of(words: [u64; 9]) -> Self {
        mode_in(words[1])
    }
}

impl Words for Error {
    fn words(self) -> [u64; 9] {
        three(0, self.number(), self.value(), 0)
    }

    // A number that no refusal has stands for 14, whose words are others.
    fn of(words: [u64; 9]) -> Self {
        let value = words[2];
        let word = low32(value);
        match words[1] {
            1 => Self::UnrecognisedFunctionId(word),
            2 => Self::InvalidPowerState(word),
            3 => Self::InvalidMpidr32(word),
            4 => Self::InvalidMpidr64(value),
            5 => Self::InvalidLowerAffinityLevel(word),
            6 => Self::UnrecognisedSystemOff2Type(word),
            7 => Self::UnrecognisedSystemReset2Type(word),
            8 => Self::UnrecognisedSuspendMode(word),
            9 => Self::UnrecognisedErrorCode(word.cast_signed()),
            10 => Self::OverflowingErrorCode(value.cast_signed()),
            11 => Self::InvalidVersion(word),
            12 => Self::UnrecognisedHwState(word),
            13 => Self::IgnoredNonZeroAff3(low8(value)),
            15 => Self::InvalidStateId(word),
            16 => Self::InvalidMajorVersion(low16(value)),
            17 => Self::WrongLength(value as usize),
            26 => Self::InvalidOriginalPowerState(word),
            27 => Self::InvalidPowerLevel(low8(value)),
            31 => Self::InvalidVendorType(word),
            _ => Self::MixedCallForms,
        }
    }
}
