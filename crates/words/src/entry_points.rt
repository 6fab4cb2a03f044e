ghost use Rattle.std.specs.Prelude.{◌≡◌};
ghost use Rattle.words.specs.EntryPoints.{entry_address, entry_context};

// Where a core starts, and the value that it is handed.
#[derive(Clone, Copy, Debug, PartialEq, Eq)]
pub enum EntryPoint {
    Entry32 {
        entry_point_address: u32,
        context_id: u32,
    },
    Entry64 {
        entry_point_address: u64,
        context_id: u64,
    },
}

impl EntryPoint {
    // A 32-bit entry point from its two words.
    pub fn entry32(low_address: u32, low_context: u32) -> Self
        ensures { result ≡ EntryPoint.Entry32 low_address low_context }
    {
        Self::Entry32 {
            entry_point_address: low_address,
            context_id: low_context,
        }
    }

    // A 64-bit entry point from its two words.
    pub fn entry64(address: u64, context: u64) -> Self
        ensures { result ≡ EntryPoint.Entry64 address context }
    {
        Self::Entry64 {
            entry_point_address: address,
            context_id: context,
        }
    }

    // The address; a 32-bit one is widened.
    pub fn entry_point_address(self) -> u64
        ensures { result ≡ entry_address self }
    {
        match self {
            Self::Entry32 {
                entry_point_address,
                context_id: _,
            } => u64::from(entry_point_address),
            Self::Entry64 {
                entry_point_address,
                context_id: _,
            } => entry_point_address,
        }
    }

    // The context; a 32-bit one is widened.
    pub fn context_id(self) -> u64
        ensures { result ≡ entry_context self }
    {
        match self {
            Self::Entry32 {
                entry_point_address: _,
                context_id,
            } => u64::from(context_id),
            Self::Entry64 {
                entry_point_address: _,
                context_id,
            } => context_id,
        }
    }
}
