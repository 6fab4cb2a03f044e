ghost use Rattle.std.specs.Prelude.{◌≡◌};
ghost use Rattle.answers.specs.Errors.{answered};
ghost use Rattle.words.specs.HwStates.{read_hw_state, hw_state_number};

use answers::Error;

// NODE_HW_STATE return value, DEN0022 5.1.18.
#[derive(Clone, Copy, Debug, PartialEq, Eq)]
pub enum HwState {
    On = 0,
    Off = 1,
    Standby = 2,
}

impl TryFrom<u32> for HwState {
    type Error = Error;

    ghost try_from_gives = { λ value result. answered result ≡ read_hw_state value };

    // The state of 0, 1 or 2; any other word is refused with 12, and carried.
    #[tactic(auto, unfolding(crate::specs::HwStates::read_hw_state))]
    fn try_from(value: u32) -> Result<Self, Error> {
        match value {
            0 => Ok(Self::On),
            1 => Ok(Self::Off),
            2 => Ok(Self::Standby),
            _ => Err(Error::UnrecognisedHwState(value)),
        }
    }
}

impl From<HwState> for u32 {
    ghost from_gives = { λ state word. word ≡ hw_state_number state };

    // The state's word, 0 to 2.
    fn from(state: HwState) -> u32 {
        state as u32
    }
}
