// A power state among the nine words of a call, by its format.
ghost use Rattle.std.specs.Prelude.{◌≡◌, List, ℕ, ◌∷◌, ◌++◌};
ghost use Rattle.call_exports.specs.Parts.{CallPart, tag, values_of, nine, mpidr_parts, entry_parts, power_state_parts};
ghost use Rattle.call_exports.specs.CallAsked.{suspended_in, state_behind};
ghost use Rattle.function.specs.declared.Call.{Call as CallOf};

use crate::from_parts::{entry_in, power_state_in};
use crate::parts::{down, form_part, mpidr_and, state_id};
use function::Call;
use words::{EntryPoint, Mpidr, PowerState};

// A format of the power state whose parts stand among nine words.
pub trait StateWords: Copy {
    // The parts of a state.
    ghost parts: { Self → List CallPart };

    // The suspend of nine words, its parts cut to their slots.
    ghost suspended: { List ℕ → CallOf Self };

    // The state of nine words that have it behind an MPIDR, its parts cut to their slots.
    ghost behind: { List ℕ → Self };

    // The nine words of a suspend: the state's parts, then those of its entry.
    fn suspend_words(self, entry: EntryPoint) -> [u64; 9]
        ensures { result ≡ nine (values_of (tag 1 ∷ parts self ++ entry_parts entry)) };

    // The nine words of a call that has a tag, an MPIDR and this state.
    fn words_behind(self, number: u64, mpidr: Mpidr) -> [u64; 9]
        ensures { result ≡ nine (values_of (tag number ∷ mpidr_parts mpidr ++ parts self)) };

    // The suspend of nine words, whatever their tag.
    fn suspended(c: [u64; 9]) -> Call<Self>
        ensures { result ≡ suspended c };

    // The state behind an MPIDR in nine words, whatever their tag.
    fn behind(c: [u64; 9]) -> Self
        ensures { result ≡ behind c };
}

// The extended format: two parts.
impl StateWords for PowerState {
    ghost parts = { power_state_parts };

    ghost suspended = { suspended_in };

    ghost behind = { state_behind };

    fn suspend_words(self, entry: EntryPoint) -> [u64; 9] {
        [
            1,
            down(self),
            state_id(self),
            form_part(entry),
            entry.entry_point_address(),
            entry.context_id(),
            0,
            0,
            0,
        ]
    }

    fn words_behind(self, number: u64, mpidr: Mpidr) -> [u64; 9] {
        mpidr_and(number, mpidr, down(self), state_id(self), 0)
    }

    fn suspended(c: [u64; 9]) -> Call<Self> {
        Call::CpuSuspend {
            state: power_state_in(c[1], c[2]),
            entry: entry_in(c[3], c[4], c[5]),
        }
    }

    fn behind(c: [u64; 9]) -> Self {
        power_state_in(c[6], c[7])
    }
}
