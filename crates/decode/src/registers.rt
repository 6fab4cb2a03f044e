// Four registers: the function number in them, and what memory protect has of them.
ghost use Rattle.std.specs.Prelude.{◌≡◌};
ghost use Rattle.function_ids.specs.CallTable.{number_in};
ghost use Rattle.decode_definition.specs.TwoDecodings.{r1_read, low_half_for_protect};

use function_ids::FunctionId;

// The low half of register 0; its high half is ignored.
pub fn number_in(regs: [u64; 4]) -> u32
    ensures { result ≡ number_in regs }
{
    (regs[0] % 0x1_0000_0000) as u32
}

// The low half of register 1, if the number is memory protect's; otherwise register 1.
fn r1_read(regs: [u64; 4]) -> u64
    ensures { result ≡ r1_read regs }
{
    if number_in(regs) == FunctionId::MEM_PROTECT {
        regs[1] % 0x1_0000_0000
    } else {
        regs[1]
    }
}

// The registers with r1's low half in place of r1, if their number is memory protect's; any others as they are. Each is read for itself: of a copy
// of all four the build for strict alignment on AArch64 would call memcpy.
pub fn low_half_for_protect(regs: [u64; 4]) -> [u64; 4]
    ensures { result ≡ low_half_for_protect regs }
{
    [regs[0], r1_read(regs), regs[2], regs[3]]
}
