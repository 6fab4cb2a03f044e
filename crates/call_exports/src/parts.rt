// The parts of a value, each as a word; and some of them as nine words.
ghost use Rattle.std.specs.Prelude.{◌≡◌, ◌∷◌, [], ◌++◌};
ghost use Rattle.words.specs.Mpidrs.{aff3_number};
ghost use Rattle.call_exports.specs.Parts.{nine, values_of, mpidr_parts, entry_parts, form_part, down_part, state_id, vendor_part, vendor_type};

use function::forms::Formed;
use words::{EntryPoint, Mpidr, PowerState, ResetType};

// 0 for the 32-bit form, 1 for the 64-bit form: of an MPIDR whether affinity 3 is there.
pub fn form_part<T: Formed>(part: T) -> u64
    ensures { result ≡ form_part (T.form part) }
{
    part.in_form(0, 1)
}

// Affinity 3, 0 where it is absent.
pub fn aff3(mpidr: Mpidr) -> u64
    ensures { result ≡ aff3_number mpidr.aff3 }
{
    mpidr.aff3.map_or(0, u64::from)
}

// 1 for power down, 0 for standby or retention.
pub fn down(state: PowerState) -> u64
    ensures { result ≡ down_part state }
{
    match state {
        PowerState::StandbyOrRetention(_) => 0,
        PowerState::PowerDown(_) => 1,
    }
}

// The state ID, whatever its width.
pub fn state_id(state: PowerState) -> u64
    ensures { result ≡ state_id state }
{
    match state {
        PowerState::StandbyOrRetention(id) | PowerState::PowerDown(id) => u64::from(id),
    }
}

// 1 for a vendor type, 0 for the architectural one.
pub fn vendor(reset_type: ResetType) -> u64
    ensures { result ≡ vendor_part reset_type }
{
    match reset_type {
        ResetType::Architectural(_) => 0,
        ResetType::VendorSpecific(_) => 1,
    }
}

// The vendor type, 0 for the architectural one.
pub fn vendor_type(reset_type: ResetType) -> u64
    ensures { result ≡ vendor_type reset_type }
{
    match reset_type {
        ResetType::Architectural(_) => 0,
        ResetType::VendorSpecific(word) => u64::from(word),
    }
}

// A tag and up to three parts as nine words.
pub fn three(tag: u64, a: u64, b: u64, c: u64) -> [u64; 9]
    ensures { result ≡ nine (tag ∷ a ∷ b ∷ c ∷ []) }
{
    [tag, a, b, c, 0, 0, 0, 0, 0]
}

// A tag, the parts of an MPIDR and up to three more as nine words.
pub fn mpidr_and(tag: u64, mpidr: Mpidr, a: u64, b: u64, c: u64) -> [u64; 9]
    ensures { result ≡ nine (tag ∷ values_of (mpidr_parts mpidr) ++ a ∷ b ∷ c ∷ []) }
{
    [
        tag,
        form_part(mpidr),
        aff3(mpidr),
        u64::from(mpidr.aff2),
        u64::from(mpidr.aff1),
        u64::from(mpidr.aff0),
        a,
        b,
        c,
    ]
}

// A tag and the parts of an entry point as nine words.
pub fn entry_of(tag: u64, entry: EntryPoint) -> [u64; 9]
    ensures { result ≡ nine (tag ∷ values_of (entry_parts entry)) }
{
    three(
        tag,
        form_part(entry),
        entry.entry_point_address(),
        entry.context_id(),
    )
}
