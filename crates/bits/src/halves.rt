// The two halves of a register of 64 bits: document 02, Change 4.
ghost use Rattle.std.specs.Prelude.{◌≡◌};
ghost use Rattle.bits.specs.Halves.{register_of};

// The upper and the lower 32 bits of a register.
#[derive(Clone, Copy, Debug, PartialEq, Eq)]
pub struct Halves {
    pub upper: u32,
    pub lower: u32,
}

impl From<u64> for Halves {
    ghost from_gives = { λ register halves. register_of halves ≡ register };

    // The halves of a register, for every register: the upper one times 2 to the 32nd plus the lower one is the register.
    fn from(register: u64) -> Self {
        Self {
            upper: (register >> 32) as u32,
            lower: (register % 0x1_0000_0000) as u32,
        }
    }
}
