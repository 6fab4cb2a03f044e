// The value that parts stand for, each part cut to its slot.
ghost use Rattle.std.specs.Prelude.{◌≡◌, None, Some};
ghost use Rattle.call_exports.specs.LowBits.{low, byte};
ghost use Rattle.call_exports.specs.FromParts.{either, mpidr_in, power_state_in, entry_in, cookie_in, range_in, reset_type_in, feature_in, mode_in};

use crate::low_bits::{low8, low32};
use words::{
    ArchitecturalResetType, Cookie, EntryPoint, MemProtectRange, Mpidr, PowerState, PsciFeature,
    ResetType, SuspendMode,
};

// The MPIDR of parts 1 to 5: whether affinity 3 is there, then affinities 3 to 0.
pub fn mpidr_in(c: [u64; 9]) -> Mpidr
    ensures { result ≡ mpidr_in c }
{
    Mpidr {
        aff0: low8(c[5]),
        aff1: low8(c[4]),
        aff2: low8(c[3]),
        aff3: if c[1] == 0 { None } else { Some(low8(c[2])) },
    }
}

// 0 for standby or retention, any other number for power down; the low 32 bits of the state ID.
pub fn power_state_in(down: u64, id: u64) -> PowerState
    ensures { result ≡ power_state_in down id }
{
    if down == 0 {
        PowerState::StandbyOrRetention(low32(id))
    } else {
        PowerState::PowerDown(low32(id))
    }
}

// 0 for the 32-bit form, of the low 32 bits of each word; any other number for the 64-bit form.
pub fn entry_in(form: u64, address: u64, context: u64) -> EntryPoint
    ensures { result ≡ entry_in form address context }
{
    if form == 0 {
        EntryPoint::Entry32 {
            entry_point_address: low32(address),
            context_id: low32(context),
        }
    } else {
        EntryPoint::Entry64 {
            entry_point_address: address,
            context_id: context,
        }
    }
}

// 0 for the 32-bit form, of the low 32 bits; any other number for the 64-bit form.
pub fn cookie_in(form: u64, word: u64) -> Cookie
    ensures { result ≡ cookie_in form word }
{
    if form == 0 {
        Cookie::Cookie32(low32(word))
    } else {
        Cookie::Cookie64(word)
    }
}

// 0 for the 32-bit form, of the low 32 bits of each word; any other number for the 64-bit form.
pub fn range_in(form: u64, base: u64, length: u64) -> MemProtectRange
    ensures { result ≡ range_in form base length }
{
    if form == 0 {
        MemProtectRange::Range32 {
            base: low32(base),
            length: low32(length),
        }
    } else {
        MemProtectRange::Range64 { base, length }
    }
}

// 0 for the architectural type, whatever the word; any other number for the vendor type of its low 32 bits.
pub fn reset_type_in(vendor: u64, word: u64) -> ResetType
    ensures { result ≡ reset_type_in vendor word }
{
    if vendor == 0 {
        ResetType::Architectural(ArchitecturalResetType::SystemWarmReset)
    } else {
        ResetType::VendorSpecific(low32(word))
    }
}

// The feature of the number in the low 32 bits; the SMCCC version where no feature has that number.
pub fn feature_in(number: u64) -> PsciFeature
    ensures { result ≡ feature_in number }
{
    PsciFeature::try_from(low32(number)).unwrap_or(PsciFeature::SmcccVersion)
}

// 0 for platform coordinated, any other number for OS initiated.
pub fn mode_in(number: u64) -> SuspendMode
    ensures { result ≡ mode_in number }
{
    if number == 0 {
        SuspendMode::PlatformCoordinated
    } else {
        SuspendMode::OsInitiated
    }
}
