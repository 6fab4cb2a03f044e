// A power state, with its reader and its writer: document 01, "Single words".
ghost use Rattle.std.specs.Prelude.{◌≡◌, ◌/◌, ◌%◌, ◌^◌};
ghost use Rattle.answers.specs.Errors.{answered};
ghost use Rattle.words.specs.PowerStates.{read_power_state, write_power_state, with_state_id};

use answers::Error;

// A power state in the extended state ID format, DEN0022 table 8.
#[derive(Clone, Copy, Debug, PartialEq, Eq)]
pub enum PowerState {
    StandbyOrRetention(u32),
    PowerDown(u32),
}

impl PowerState {
    const STATE_TYPE_PD_BIT: u32 = 1 << 30;

    const STATE_ID_MASK: u32 = 0x0fff_ffff;

    const MBZ_BITS: u32 = !(Self::STATE_TYPE_PD_BIT | Self::STATE_ID_MASK);

    // The word of a state type, which has no bit in the state ID's place, and a state ID.
    fn word(state_type_bit: u32, state_id: u32) -> Result<u32, Error>
        requires { state_type_bit % 2 ^ 30 ≡ 0 }
        ensures { answered result ≡ with_state_id (state_type_bit / 2 ^ 30) state_id }
    {
        if state_id & !Self::STATE_ID_MASK != 0 {
            Err(Error::InvalidStateId(state_id))
        } else {
            Ok(state_type_bit | state_id)
        }
    }
}

impl TryFrom<u32> for PowerState {
    type Error = Error;

    ghost try_from_gives = { λ value result. answered result ≡ read_power_state value };

    // The state of a word whose bits 28, 29 and 31 are zero; any other word is refused with 2, and carried.
    fn try_from(value: u32) -> Result<Self, Error> {
        if value & Self::MBZ_BITS != 0 {
            return Err(Error::InvalidPowerState(value));
        }
        let state_id = value & Self::STATE_ID_MASK;
        if value & Self::STATE_TYPE_PD_BIT != 0 {
            Ok(Self::PowerDown(state_id))
        } else {
            Ok(Self::StandbyOrRetention(state_id))
        }
    }
}

impl TryFrom<PowerState> for u32 {
    type Error = Error;

    ghost try_from_gives = { λ state result. answered result ≡ write_power_state state };

    // The state's word. A state ID above 0x0fffffff is refused with 15, and carried.
    #[tactic(auto, unfolding(crate::specs::PowerStates::write_power_state))]
    fn try_from(state: PowerState) -> Result<u32, Error> {
        match state {
            PowerState::StandbyOrRetention(state_id) => PowerState::word(0, state_id),
            PowerState::PowerDown(state_id) => {
                PowerState::word(PowerState::STATE_TYPE_PD_BIT, state_id)
            }
        }
    }
}
