ghost use Rattle.std.specs.Prelude.{◌≡◌};
ghost use Rattle.words.specs.MemProtectRanges.{base_word, length_word};

// The memory range of MEM_PROTECT_CHECK_RANGE, DEN0022 5.1.14.
#[derive(Clone, Copy, Debug, PartialEq, Eq)]
pub enum MemProtectRange {
    Range32 { base: u32, length: u32 },
    Range64 { base: u64, length: u64 },
}

impl MemProtectRange {
    // The base as a word: a 32-bit one is widened.
    pub fn base_word(self) -> u64
        ensures { result ≡ base_word self }
    {
        match self {
            Self::Range32 { base, length: _ } => u64::from(base),
            Self::Range64 { base, length: _ } => base,
        }
    }

    // The length as a word: a 32-bit one is widened.
    pub fn length_word(self) -> u64
        ensures { result ≡ length_word self }
    {
        match self {
            Self::Range32 { base: _, length } => u64::from(length),
            Self::Range64 { base: _, length } => length,
        }
    }
}
