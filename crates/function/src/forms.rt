// The parts of a call that its form follows.
ghost use Rattle.std.specs.Prelude.{◌≡◌};
ghost use Rattle.answers.specs.Errors.{answered};
ghost use Rattle.function_ids.specs.FunctionIds.{Form};
ghost use Rattle.function.specs.Forms.{in_form, entry_form, mpidr_form, cookie_form, range_form, on_number};

use answers::Error;
use function_ids::FunctionId;
use words::{Cookie, EntryPoint, MemProtectRange, Mpidr};

// A part of a call that has a 32-bit and a 64-bit form.
pub trait Formed {
    ghost form: { Self → Form };

    // One of two values, by the part's form.
    fn in_form<T: Copy>(self, in_32: T, in_64: T) -> T
        ensures { result ≡ in_form (form self) in_32 in_64 };
}

impl Formed for EntryPoint {
    ghost form = { entry_form };

    fn in_form<T: Copy>(self, in_32: T, in_64: T) -> T {
        match self {
            Self::Entry32 { .. } => in_32,
            Self::Entry64 { .. } => in_64,
        }
    }
}

// Affinity 3 is absent in the 32-bit form.
impl Formed for Mpidr {
    ghost form = { λ mpidr. mpidr_form mpidr.aff3 };

    fn in_form<T: Copy>(self, in_32: T, in_64: T) -> T {
        match self.aff3 {
            None => in_32,
            Some(_) => in_64,
        }
    }
}

impl Formed for Cookie {
    ghost form = { cookie_form };

    fn in_form<T: Copy>(self, in_32: T, in_64: T) -> T {
        match self {
            Self::Cookie32(_) => in_32,
            Self::Cookie64(_) => in_64,
        }
    }
}

impl Formed for MemProtectRange {
    ghost form = { range_form };

    fn in_form<T: Copy>(self, in_32: T, in_64: T) -> T {
        match self {
            Self::Range32 { .. } => in_32,
            Self::Range64 { .. } => in_64,
        }
    }
}

// The function of CPU on: an MPIDR and an entry that differ in form are refused with 14.
pub fn cpu_on(target_cpu: Mpidr, entry: EntryPoint) -> Result<FunctionId, Error>
    ensures { answered result ≡ on_number (mpidr_form target_cpu.aff3) (entry_form entry) }
{
    match (target_cpu.aff3, entry) {
        (None, EntryPoint::Entry32 { .. }) => Ok(FunctionId::CpuOn32),
        (Some(_), EntryPoint::Entry64 { .. }) => Ok(FunctionId::CpuOn64),
        _ => Err(Error::MixedCallForms),
    }
}
