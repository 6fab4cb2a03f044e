// Reset types, each with its reader and its writer: document 01, "Single words"; document 02, Change 5.
ghost use Rattle.std.specs.Prelude.{◌≡◌};
ghost use Rattle.answers.specs.Errors.{answered};
ghost use Rattle.words.specs.ResetTypes.{architectural_number, read_architectural_reset_type, read_reset_type, write_reset_type};

use answers::Error;

// SYSTEM_RESET2 architectural reset type, DEN0022 5.1.12.
#[derive(Clone, Copy, Debug, PartialEq, Eq)]
pub enum ArchitecturalResetType {
    SystemWarmReset = 0,
}

impl TryFrom<u32> for ArchitecturalResetType {
    type Error = Error;

    ghost try_from_gives = { λ value result. answered result ≡ read_architectural_reset_type value };

    // The type of 0; any other word is refused with 7, and carried.
    #[tactic(auto, unfolding(crate::specs::ResetTypes::read_architectural_reset_type))]
    fn try_from(value: u32) -> Result<Self, Error> {
        match value {
            0 => Ok(Self::SystemWarmReset),
            _ => Err(Error::UnrecognisedSystemReset2Type(value)),
        }
    }
}

impl From<ArchitecturalResetType> for u32 {
    ghost from_gives = { λ reset_type word. word ≡ architectural_number reset_type };

    // The type's word, 0.
    fn from(reset_type: ArchitecturalResetType) -> u32 {
        reset_type as u32
    }
}

// SYSTEM_RESET2 reset type, DEN0022 5.1.12.
#[derive(Clone, Copy, Debug, PartialEq, Eq)]
pub enum ResetType {
    Architectural(ArchitecturalResetType),
    VendorSpecific(u32),
}

impl ResetType {
    const VENDOR_SPECIFIC_BIT: u32 = 0x8000_0000;
}

impl TryFrom<u32> for ResetType {
    type Error = Error;

    ghost try_from_gives = { λ value result. answered result ≡ read_reset_type value };

    // With bit 31 set the vendor type of the other bits, otherwise the architectural type; where that is refused so is this, with 7.
    #[tactic(auto, unfolding(crate::specs::ResetTypes::read_reset_type))]
    fn try_from(value: u32) -> Result<Self, Error> {
        if value & Self::VENDOR_SPECIFIC_BIT != 0 {
            return Ok(Self::VendorSpecific(value & !Self::VENDOR_SPECIFIC_BIT));
        }
        Ok(Self::Architectural(ArchitecturalResetType::try_from(value)?))
    }
}

impl TryFrom<ResetType> for u32 {
    type Error = Error;

    ghost try_from_gives = { λ reset_type result. answered result ≡ write_reset_type reset_type };

    // The type's word: bit 31 marks a vendor type. A vendor type above 0x7fffffff, which has no room beside that bit, is refused with 31, and
    // carried.
    #[tactic(auto, unfolding(crate::specs::ResetTypes::write_reset_type))]
    fn try_from(reset_type: ResetType) -> Result<u32, Error> {
        match reset_type {
            ResetType::Architectural(architectural) => Ok(u32::from(architectural)),
            ResetType::VendorSpecific(vendor_type) => {
                if vendor_type & ResetType::VENDOR_SPECIFIC_BIT != 0 {
                    Err(Error::InvalidVendorType(vendor_type))
                } else {
                    Ok(vendor_type | ResetType::VENDOR_SPECIFIC_BIT)
                }
            }
        }
    }
}
