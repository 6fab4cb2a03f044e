// The low bits of a word, by remainder: an `as` is proved to lose nothing, so it does not cut a word by itself. A function for each width: one for all
// would need a trait with three impls that say the same.
ghost use Rattle.std.specs.Prelude.{◌≡◌};
ghost use Rattle.call_exports.specs.LowBits.{low, half, byte};

// The low 32 bits.
pub fn low32(part: u64) -> u32
    ensures { result ≡ low part }
{
    (part % 0x1_0000_0000) as u32
}

// The low 16 bits.
pub fn low16(part: u64) -> u16
    ensures { result ≡ half part }
{
    (part % 0x1_0000) as u16
}

// The low 8 bits.
pub fn low8(part: u64) -> u8
    ensures { result ≡ byte part }
{
    (part % 0x100) as u8
}
