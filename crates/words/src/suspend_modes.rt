ghost use Rattle.std.specs.Prelude.{◌≡◌};
ghost use Rattle.answers.specs.Errors.{answered};
ghost use Rattle.words.specs.SuspendModes.{read_suspend_mode, suspend_mode_number};

use answers::Error;

// PSCI_SET_SUSPEND_MODE mode, DEN0022 5.1.20.
#[derive(Clone, Copy, Debug, PartialEq, Eq)]
pub enum SuspendMode {
    PlatformCoordinated = 0,
    OsInitiated = 1,
}

impl TryFrom<u32> for SuspendMode {
    type Error = Error;

    ghost try_from_gives = { λ value result. answered result ≡ read_suspend_mode value };

    // The mode of 0 or 1; any other word is refused with 8, and carried.
    #[tactic(auto, unfolding(crate::specs::SuspendModes::read_suspend_mode))]
    fn try_from(value: u32) -> Result<Self, Error> {
        match value {
            0 => Ok(Self::PlatformCoordinated),
            1 => Ok(Self::OsInitiated),
            _ => Err(Error::UnrecognisedSuspendMode(value)),
        }
    }
}

impl From<SuspendMode> for u32 {
    ghost from_gives = { λ mode word. word ≡ suspend_mode_number mode };

    // The mode's word, 0 or 1.
    fn from(mode: SuspendMode) -> u32 {
        mode as u32
    }
}
