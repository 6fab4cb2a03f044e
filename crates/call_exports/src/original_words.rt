// A power state of the original format among the nine words of a call: three parts.
ghost use Rattle.std.specs.Prelude.{◌≡◌};
ghost use Rattle.call_exports.specs.OriginalWords.{original_state_parts, original_state_in, original_suspended, original_behind};

use crate::from_parts::entry_in;
use crate::low_bits::{low8, low16};
use crate::parts::{form_part, mpidr_and};
use crate::state_words::StateWords;
use function::Call;
use words::{EntryPoint, Mpidr, OriginalPowerState};

// 0 for standby or retention, any other number for power down; the low 16 bits of the state ID; the low byte of the level.
fn original_state_in(down: u64, id: u64, level: u64) -> OriginalPowerState
    ensures { result ≡ original_state_in down id level }
{
    OriginalPowerState {
        state_id: low16(id),
        power_down: down != 0,
        level: low8(level),
    }
}

impl StateWords for OriginalPowerState {
    ghost parts = { original_state_parts };

    ghost suspended = { original_suspended };

    ghost behind = { original_behind };

    #[tactic(auto, using(words::proofs::Flags::flag_word_is))]
    fn suspend_words(self, entry: EntryPoint) -> [u64; 9] {
        [
            1,
            u64::from(self.power_down),
            u64::from(self.state_id),
            u64::from(self.level),
            form_part(entry),
            entry.entry_point_address(),
            entry.context_id(),
            0,
            0,
        ]
    }

    #[tactic(auto, using(words::proofs::Flags::flag_word_is))]
    fn words_behind(self, number: u64, mpidr: Mpidr) -> [u64; 9] {
        mpidr_and(
            number,
            mpidr,
            u64::from(self.power_down),
            u64::from(self.state_id),
            u64::from(self.level),
        )
    }

    fn suspended(c: [u64; 9]) -> Call<Self> {
        Call::CpuSuspend {
            state: original_state_in(c[1], c[2], c[3]),
            entry: entry_in(c[4], c[5], c[6]),
        }
    }

    fn behind(c: [u64; 9]) -> Self {
        original_state_in(c[6], c[7], c[8])
    }
}
