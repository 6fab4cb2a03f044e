// MPIDR, which names a core, with its readers and writers: document 01, "Single words".
ghost use Rattle.std.specs.Prelude.{◌≡◌};
ghost use Rattle.answers.specs.Errors.{answered};
ghost use Rattle.bits.specs.Halves.{register_of};
ghost use Rattle.words.specs.Mpidrs.{read_mpidr32, read_mpidr64, mpidr64, write_mpidr32, write_mpidr64, mpidr_of, low_word, mbz_bits64, mbz_halves64};

use answers::Error;
use bits::halves::Halves;

// The affinity fields of MPIDR, which name a core. A 32-bit MPIDR lacks affinity 3.
#[derive(Clone, Copy, Debug, PartialEq, Eq)]
pub struct Mpidr {
    pub aff0: u8,
    pub aff1: u8,
    pub aff2: u8,
    pub aff3: Option<u8>,
}

impl Mpidr {
    // The bits that must be zero in a word of 32 bits, and of 64.
    const MBZ_BITS_32: u32 = 0xff00_0000;

    const MBZ_BITS_64: u64 = 0xffff_ff00_ff00_0000;

    // The same in the upper and in the lower half of a word of 64 bits.
    const MBZ_BITS_64_UPPER: u32 = 0xffff_ff00;

    const MBZ_BITS_64_LOWER: u32 = 0xff00_0000;

    // An MPIDR with affinity 3.
    pub fn from_aff3210(aff3: u8, aff2: u8, aff1: u8, aff0: u8) -> Self
        ensures { result ≡ mpidr_of aff0 aff1 aff2 (Some aff3) }
    {
        Self {
            aff0,
            aff1,
            aff2,
            aff3: Some(aff3),
        }
    }

    // An MPIDR without affinity 3.
    pub fn from_aff210(aff2: u8, aff1: u8, aff0: u8) -> Self
        ensures { result ≡ mpidr_of aff0 aff1 aff2 None }
    {
        Self {
            aff0,
            aff1,
            aff2,
            aff3: None,
        }
    }

    // The core that the register MPIDR_EL1 names, whatever its reserved bits hold: they are cleared, and affinity 3 is kept present.
    pub fn from_register_value(mpidr_el1: u64) -> Self
        ensures { result ≡ mpidr64 mpidr_el1 }
    {
        let register = Halves::from(mpidr_el1);
        let mbz = Self::mbz_halves();
        Self::fields_64(Halves {
            upper: register.upper & !mbz.upper,
            lower: register.lower & !mbz.lower,
        })
    }

    // MBZ_BITS_64, for a reader that goes by the whole register: crate mpidr_bench.
    pub fn mbz_bits_64() -> u64
        ensures { result ≡ mbz_bits64 }
    {
        Self::MBZ_BITS_64
    }

    // The masks of a register's halves, for the readers here. They are the two halves of MBZ_BITS_64: `mbz_halves` in specs/MpidrLaws.antt.
    fn mbz_halves() -> Halves
        ensures { result ≡ mbz_halves64 }
    {
        Halves {
            upper: Self::MBZ_BITS_64_UPPER,
            lower: Self::MBZ_BITS_64_LOWER,
        }
    }

    // The four affinity fields of a register by its halves, whatever its other bits.
    fn fields_64(register: Halves) -> Self
        ensures { result ≡ mpidr64 (register_of register) }
    {
        Self::from_aff3210(
            (register.upper % 0x100) as u8,
            ((register.lower >> 16) % 0x100) as u8,
            ((register.lower >> 8) % 0x100) as u8,
            (register.lower % 0x100) as u8,
        )
    }

    // Affinities 2 to 0 in their places.
    fn low_word(self) -> u32
        ensures { result ≡ low_word self }
    {
        (u32::from(self.aff2) << 16) | (u32::from(self.aff1) << 8) | u32::from(self.aff0)
    }
}

impl TryFrom<u32> for Mpidr {
    type Error = Error;

    ghost try_from_gives = { λ value result. answered result ≡ read_mpidr32 value };

    // The MPIDR of a 32-bit word, without affinity 3. A word with a bit of 24–31 is refused with 3, and carried.
    #[tactic(auto, unfolding(crate::specs::Mpidrs::read_mpidr32))]
    fn try_from(value: u32) -> Result<Self, Error> {
        if value & Self::MBZ_BITS_32 != 0 {
            Err(Error::InvalidMpidr32(value))
        } else {
            Ok(Self::from_aff210(
                ((value >> 16) % 0x100) as u8,
                ((value >> 8) % 0x100) as u8,
                (value % 0x100) as u8,
            ))
        }
    }
}

impl TryFrom<u64> for Mpidr {
    type Error = Error;

    ghost try_from_gives = { λ value result. answered result ≡ read_mpidr64 value };

    // The MPIDR of a 64-bit word, with affinity 3. A word with a bit of 24–31 or 40–63 is refused with 4, and carried.
    #[tactic(auto, using(crate::proofs::MpidrHalves::mbz_halves, crate::proofs::MpidrHalves::no_mbz_bit, crate::proofs::MpidrHalves::mbz_bit), unfolding(crate::specs::Mpidrs::read_mpidr64))]
    fn try_from(value: u64) -> Result<Self, Error> {
        let register = Halves::from(value);
        let mbz = Self::mbz_halves();
        // one test of both: of two with `||` between them the kit's LLVM makes one of the whole register
        if (register.upper & mbz.upper) | (register.lower & mbz.lower) != 0 {
            Err(Error::InvalidMpidr64(value))
        } else {
            Ok(Self::fields_64(register))
        }
    }
}

impl TryFrom<Mpidr> for u32 {
    type Error = Error;

    ghost try_from_gives = { λ mpidr result. answered result ≡ write_mpidr32 mpidr };

    // The word of 32 bits. Affinity 3 present and not 0 is refused with 13, and carried; present and 0 it is left out.
    #[tactic(auto, unfolding(crate::specs::Mpidrs::write_mpidr32))]
    fn try_from(mpidr: Mpidr) -> Result<u32, Error> {
        match mpidr.aff3 {
            Some(aff3) if aff3 != 0 => Err(Error::IgnoredNonZeroAff3(aff3)),
            _ => Ok(mpidr.low_word()),
        }
    }
}

impl From<Mpidr> for u64 {
    ghost from_gives = { λ mpidr word. word ≡ write_mpidr64 mpidr };

    // The word of 64 bits, with 0 for an absent affinity 3.
    #[tactic(auto, unfolding(crate::specs::Mpidrs::write_mpidr64))]
    fn from(mpidr: Mpidr) -> u64 {
        match mpidr.aff3 {
            None => u64::from(mpidr.low_word()),
            Some(aff3) => (u64::from(aff3) << 32) | u64::from(mpidr.low_word()),
        }
    }
}
