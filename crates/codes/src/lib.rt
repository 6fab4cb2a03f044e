// Error codes and return codes, signed, with their readers and writers: document 01, "Single words".
#![tactic(auto)]

ghost use Rattle.std.specs.Prelude.{◌≡◌};
ghost use Rattle.answers.specs.Errors.{answered};
ghost use Rattle.codes.specs.Codes.{code_of_refusal, error_code_of, code_number, read_error_code, read_error_code64, return_number, read_return_code};
ghost use Rattle.bits.specs.Signs.{signed, word_of};

use answers::Error;

// DEN0022 5.2.2.
#[derive(Clone, Copy, Debug, PartialEq, Eq)]
pub enum ErrorCode {
    NotSupported = -1,
    InvalidParameters = -2,
    Denied = -3,
    AlreadyOn = -4,
    OnPending = -5,
    InternalFailure = -6,
    NotPresent = -7,
    Disabled = -8,
    InvalidAddress = -9,
}

impl ErrorCode {
    // The code of a refusal by its number: 1 becomes −1, every other number −2. It serves the refusals of the log and the line too.
    pub fn from_refusal(number: u64) -> Self
        ensures { result ≡ code_of_refusal number }
    {
        if number == 1 {
            Self::NotSupported
        } else {
            Self::InvalidParameters
        }
    }
}

impl From<Error> for ErrorCode {
    ghost from_gives = { λ error code. code ≡ error_code_of error };

    // The code of an error: that of its refusal's number.
    fn from(error: Error) -> Self {
        Self::from_refusal(error.number())
    }
}

impl TryFrom<i32> for ErrorCode {
    type Error = Error;

    ghost try_from_gives = { λ value result. answered result ≡ read_error_code value };

    // The code of a signed number from −9 to −1; any other is refused with 9, and carried.
    #[tactic(auto, unfolding(crate::specs::Codes::read_error_code))]
    fn try_from(value: i32) -> Result<Self, Error> {
        let error_code = match value {
            -1 => Self::NotSupported,
            -2 => Self::InvalidParameters,
            -3 => Self::Denied,
            -4 => Self::AlreadyOn,
            -5 => Self::OnPending,
            -6 => Self::InternalFailure,
            -7 => Self::NotPresent,
            -8 => Self::Disabled,
            -9 => Self::InvalidAddress,
            _ => return Err(Error::UnrecognisedErrorCode(value)),
        };
        Ok(error_code)
    }
}

impl TryFrom<u32> for ErrorCode {
    type Error = Error;

    ghost try_from_gives = { λ value result. answered result ≡ read_error_code (signed 32 value) };

    // The same of a word of 32 bits, read as two's complement.
    fn try_from(value: u32) -> Result<Self, Error> {
        Self::try_from(value.cast_signed())
    }
}

impl TryFrom<u64> for ErrorCode {
    type Error = Error;

    ghost try_from_gives = { λ value result. answered result ≡ read_error_code64 (signed 64 value) };

    // The same of a word of 64 bits; a number that does not fit 32 bits is refused with 10 first, and carried.
    #[tactic(auto, unfolding(crate::specs::Codes::read_error_code64))]
    fn try_from(value: u64) -> Result<Self, Error> {
        let number = value.cast_signed();
        match i32::try_from(number) {
            Ok(code) => Self::try_from(code),
            Err(_) => Err(Error::OverflowingErrorCode(number)),
        }
    }
}

impl From<ErrorCode> for i32 {
    ghost from_gives = { λ error_code number. number ≡ code_number error_code };

    // The code's number, −9 to −1.
    fn from(error_code: ErrorCode) -> i32 {
        error_code as i32
    }
}

impl From<ErrorCode> for u32 {
    ghost from_gives = { λ error_code word. word ≡ word_of 32 (code_number error_code) };

    // The same as a word of 32 bits, in two's complement.
    fn from(error_code: ErrorCode) -> u32 {
        i32::from(error_code).cast_unsigned()
    }
}

impl From<ErrorCode> for u64 {
    ghost from_gives = { λ error_code word. word ≡ word_of 64 (code_number error_code) };

    // The same as a word of 64 bits: sign-extended.
    fn from(error_code: ErrorCode) -> u64 {
        i64::from(i32::from(error_code)).cast_unsigned()
    }
}

// Success, or an error code. No `Result`: it has conversions of its own, which a type of std can't be given here.
#[derive(Clone, Copy, Debug, PartialEq, Eq)]
pub enum ReturnCode {
    Success,
    Error(ErrorCode),
}

impl TryFrom<i32> for ReturnCode {
    type Error = Error;

    ghost try_from_gives = { λ value result. answered result ≡ read_return_code value };

    // Success of 0, the error of a number from −9 to −1; any other is refused with 9, and carried.
    #[tactic(auto, unfolding(crate::specs::Codes::read_return_code))]
    fn try_from(value: i32) -> Result<Self, Error> {
        if value == 0 {
            return Ok(Self::Success);
        }
        Ok(Self::Error(ErrorCode::try_from(value)?))
    }
}

impl From<ReturnCode> for i32 {
    ghost from_gives = { λ return_code number. number ≡ return_number return_code };

    // 0 for success, the error's number otherwise.
    fn from(return_code: ReturnCode) -> i32 {
        match return_code {
            ReturnCode::Success => 0,
            ReturnCode::Error(error_code) => i32::from(error_code),
        }
    }
}
