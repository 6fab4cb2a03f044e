// The format of a call's power state: what reads the state of a word, what writes its word, and that the one takes back what the other gave.
ghost use Rattle.std.specs.Prelude.{◌≡◌, ℕ};
ghost use Rattle.answers.specs.Answers.{Answer};
ghost use Rattle.answers.specs.Errors.{answered};
ghost use Rattle.answers.specs.Inverses.{WritesBack, Word32};
ghost use Rattle.words.specs.PowerStates.{read_power_state, write_power_state};
ghost use Rattle.words.specs.OriginalPowerStates.{read_original_power_state, write_original_power_state};
ghost use Rattle.words.proofs.PowerStateLaws.{power_state_laws};
ghost use Rattle.words.proofs.OriginalPowerStateLaws.{original_power_state_laws};
ghost use Rattle.function.specs.declared.Call.TheVariants.{CpuSuspend};

use crate::Call;
use answers::Error;
use words::{EntryPoint, OriginalPowerState, PowerState};

// A format of the power state.
pub trait StateFormat: Copy {
    ghost read: { ℕ → Answer Self };

    ghost write: { Self → Answer ℕ };

    // The state of a word, or the refusal of its reader.
    fn from_word(word: u32) -> Result<Self, Error>
        ensures { answered result ≡ read word };

    // The state's word, or the refusal of its writer.
    fn to_word(self) -> Result<u32, Error>
        ensures { answered result ≡ write self };

    // A suspend with this state.
    fn suspend(self, entry: EntryPoint) -> Call<Self>
        ensures { result ≡ CpuSuspend self entry }
    {
        Call::CpuSuspend { state: self, entry }
    }

    // what is read of a word is written as that word
    ghost writes_back: { WritesBack Word32 read write };
}

// The extended format.
impl StateFormat for PowerState {
    ghost read = { read_power_state };

    ghost write = { write_power_state };

    ghost writes_back = { power_state_laws.power_state_writes_back };

    // Refused with 2 is a word with a bit outside the fields, and carried.
    fn from_word(word: u32) -> Result<Self, Error> {
        PowerState::try_from(word)
    }

    // Refused with 15 is a state ID above 0x0fffffff, and carried.
    fn to_word(self) -> Result<u32, Error> {
        u32::try_from(self)
    }

    // The state is made anew for each type: a copy of its eight bytes would be one store across what are two fields in other calls, and the
    // compiler would then keep all of them in memory until the end (docs/BENCHMARKS.md).
    fn suspend(self, entry: EntryPoint) -> Call<Self> {
        match self {
            Self::StandbyOrRetention(state_id) => Call::CpuSuspend {
                state: Self::StandbyOrRetention(state_id),
                entry,
            },
            Self::PowerDown(state_id) => Call::CpuSuspend {
                state: Self::PowerDown(state_id),
                entry,
            },
        }
    }
}

// The original format.
impl StateFormat for OriginalPowerState {
    ghost read = { read_original_power_state };

    ghost write = { write_original_power_state };

    ghost writes_back = { original_power_state_laws.original_writes_back };

    // Refused with 26 is a word with a bit outside the fields, and carried.
    fn from_word(word: u32) -> Result<Self, Error> {
        OriginalPowerState::try_from(word)
    }

    // Refused with 27 is a level above 3, and carried.
    fn to_word(self) -> Result<u32, Error> {
        u32::try_from(self)
    }
}
