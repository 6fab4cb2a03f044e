// A version, with its reader and its writer: document 01, "Single words".
ghost use Rattle.std.specs.Prelude.{◌≡◌};
ghost use Rattle.answers.specs.Errors.{answered};
ghost use Rattle.words.specs.Versions.{read_version, write_version};

use answers::Error;

// A PSCI version.
#[derive(Clone, Copy, Debug, PartialEq, Eq)]
pub struct Version {
    pub major: u16,
    pub minor: u16,
}

impl Version {
    const MBZ_BITS: u32 = 0x8000_0000;

    const MAJOR_MBZ_BITS: u16 = 0x8000;
}

impl TryFrom<u32> for Version {
    type Error = Error;

    ghost try_from_gives = { λ value result. answered result ≡ read_version value };

    // The version of a word: major in bits 16–30, minor in bits 0–15. A word with bit 31 is refused with 11, and carried.
    #[tactic(auto, unfolding(crate::specs::Versions::read_version))]
    fn try_from(value: u32) -> Result<Self, Error> {
        if value & Self::MBZ_BITS != 0 {
            Err(Error::InvalidVersion(value))
        } else {
            Ok(Self {
                major: (value >> 16) as u16,
                minor: (value % 0x1_0000) as u16,
            })
        }
    }
}

impl TryFrom<Version> for u32 {
    type Error = Error;

    ghost try_from_gives = { λ version result. answered result ≡ write_version version };

    // The version's word. A major above 0x7fff is refused with 16, and carried.
    #[tactic(auto, unfolding(crate::specs::Versions::write_version))]
    fn try_from(version: Version) -> Result<u32, Error> {
        let major = version.major;
        if major & Version::MAJOR_MBZ_BITS != 0 {
            Err(Error::InvalidMajorVersion(major))
        } else {
            Ok((u32::from(major) << 16) | u32::from(version.minor))
        }
    }
}
