ghost use Rattle.std.specs.Prelude.{◌≡◌};
ghost use Rattle.answers.specs.Errors.{answered};
ghost use Rattle.words.specs.SystemOff2Types.{read_system_off2_type, system_off2_number};

use answers::Error;

// SYSTEM_OFF2 type, DEN0022 5.1.10.
#[derive(Clone, Copy, Debug, PartialEq, Eq)]
pub enum SystemOff2Type {
    HibernateOff = 1,
}

impl TryFrom<u32> for SystemOff2Type {
    type Error = Error;

    ghost try_from_gives = { λ value result. answered result ≡ read_system_off2_type value };

    // The type of 1; any other word is refused with 6, and carried.
    #[tactic(auto, unfolding(crate::specs::SystemOff2Types::read_system_off2_type))]
    fn try_from(value: u32) -> Result<Self, Error> {
        match value {
            1 => Ok(Self::HibernateOff),
            _ => Err(Error::UnrecognisedSystemOff2Type(value)),
        }
    }
}

impl From<SystemOff2Type> for u32 {
    ghost from_gives = { λ off_type word. word ≡ system_off2_number off_type };

    // The type's word, 1.
    fn from(off_type: SystemOff2Type) -> u32 {
        off_type as u32
    }
}
