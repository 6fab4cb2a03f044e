// A power state in the original format, with its reader and its writer: document 02, Change 1.
ghost use Rattle.std.specs.Prelude.{◌≡◌};
ghost use Rattle.answers.specs.Errors.{answered};
ghost use Rattle.words.specs.OriginalPowerStates.{read_original_power_state, write_original_power_state};

use answers::Error;

// A power state in DEN0022's original format. The word has room for a level of at most 3.
#[derive(Clone, Copy, Debug, PartialEq, Eq)]
pub struct OriginalPowerState {
    pub state_id: u16,
    pub power_down: bool,
    pub level: u8,
}

impl OriginalPowerState {
    const STATE_TYPE_PD_BIT: u32 = 1 << 16;

    const STATE_ID_MASK: u32 = 0x0000_ffff;

    const LEVEL_SHIFT: u32 = 24;

    const LEVEL_MASK: u32 = 0x3 << Self::LEVEL_SHIFT;

    const MBZ_BITS: u32 = !(Self::STATE_TYPE_PD_BIT | Self::STATE_ID_MASK | Self::LEVEL_MASK);

    // The bits of a level that have no room in the word: those of a level above 3.
    const LEVEL_MBZ_BITS: u8 = 0xfc;
}

impl TryFrom<u32> for OriginalPowerState {
    type Error = Error;

    ghost try_from_gives = { λ value result. answered result ≡ read_original_power_state value };

    // The state of a word whose bits 17 to 23 and 26 to 31 are zero; any other word is refused with 26, and carried.
    fn try_from(value: u32) -> Result<Self, Error> {
        if value & Self::MBZ_BITS != 0 {
            return Err(Error::InvalidOriginalPowerState(value));
        }
        Ok(Self {
            state_id: (value & Self::STATE_ID_MASK) as u16,
            power_down: value & Self::STATE_TYPE_PD_BIT != 0,
            level: (value >> Self::LEVEL_SHIFT) as u8,
        })
    }
}

impl TryFrom<OriginalPowerState> for u32 {
    type Error = Error;

    ghost try_from_gives = { λ state result. answered result ≡ write_original_power_state state };

    // The state's word. A level above 3 is refused with 27, and carried.
    fn try_from(state: OriginalPowerState) -> Result<u32, Error> {
        let level = state.level;
        if level & OriginalPowerState::LEVEL_MBZ_BITS != 0 {
            return Err(Error::InvalidPowerLevel(level));
        }
        let high = u32::from(level) << OriginalPowerState::LEVEL_SHIFT;
        let low = u32::from(state.state_id);
        if state.power_down {
            Ok(high | OriginalPowerState::STATE_TYPE_PD_BIT | low)
        } else {
            Ok(high | low)
        }
    }
}
