// Decoding: four registers to a typed call, as document 01 reads them and as DEN0028 does.
#![tactic(auto)]

ghost use Rattle.std.specs.Prelude.{◌≡◌};
ghost use Rattle.answers.specs.Errors.{answered};
ghost use Rattle.function_ids.specs.CallTable.{whole};
ghost use Rattle.decode_definition.specs.Decode.{decode_by, decode_smccc};

pub mod calls;
pub mod registers;

use crate::registers::{low_half_for_protect, number_in};
use answers::Error;
use function::{Call, Function, StateFormat};
use function_ids::FunctionId;
use words::{
    Cookie, EntryPoint, MemProtectRange, Mpidr, PsciFeature, ResetType, SuspendMode, SystemOff2Type,
};

// The call that four registers make, its power state in the format asked for. Refused with 1 is a number that no function has, then what
// docs/REFUSALS.md lists for the fields, level before MPIDR before power state; bits that no field has are ignored. Memory protect looks at all 64 bits of
// r1. One match on the number, and each arm returns for itself: the answer is then written where the caller wants it, and not copied from arm to arm.
// Always inlined, as are the functions of one line over it: the parts of a call then stay in registers until it is handed on, and no answer is written
// down only to be copied (docs/BENCHMARKS.md).
#[inline(always)]
pub fn decode<S: StateFormat>(regs: [u64; 4]) -> Result<Call<S>, Error>
    ensures { answered result ≡ decode_by S.read whole regs }
{
    let number = number_in(regs);
    let r1 = regs[1];
    let r2 = regs[2];
    let r3 = regs[3];
    // the low 32 bits of each
    let low1 = (r1 % 0x1_0000_0000) as u32;
    let low2 = (r2 % 0x1_0000_0000) as u32;
    let low3 = (r3 % 0x1_0000_0000) as u32;
    match number {
        FunctionId::PSCI_VERSION => return Ok(Call::Version),
        FunctionId::CPU_SUSPEND_32 => return calls::cpu_suspend(
            S::from_word(low1),
            EntryPoint::entry32(low2, low3),
        ),
        FunctionId::CPU_SUSPEND_64 => return calls::cpu_suspend(
            S::from_word(low1),
            EntryPoint::entry64(r2, r3),
        ),
        FunctionId::CPU_OFF => return Ok(Call::CpuOff),
        FunctionId::CPU_ON_32 => return calls::cpu_on(
            Mpidr::try_from(low1),
            EntryPoint::entry32(low2, low3),
        ),
        FunctionId::CPU_ON_64 => return calls::cpu_on(
            Mpidr::try_from(r1),
            EntryPoint::entry64(r2, r3),
        ),
        FunctionId::AFFINITY_INFO_32 => return calls::affinity_info(2, low2, Mpidr::try_from(low1)),
        FunctionId::AFFINITY_INFO_64 => return calls::affinity_info(3, low2, Mpidr::try_from(r1)),
        FunctionId::MIGRATE_32 => return calls::migrate(Mpidr::try_from(low1)),
        FunctionId::MIGRATE_64 => return calls::migrate(Mpidr::try_from(r1)),
        FunctionId::MIGRATE_INFO_TYPE => return Ok(Call::MigrateInfoType),
        FunctionId::MIGRATE_INFO_UP_CPU_32 => return Ok(Call::MigrateInfoUpCpu { is_32bit: true }),
        FunctionId::MIGRATE_INFO_UP_CPU_64 => return Ok(Call::MigrateInfoUpCpu { is_32bit: false }),
        FunctionId::SYSTEM_OFF => return Ok(Call::SystemOff),
        FunctionId::SYSTEM_RESET => return Ok(Call::SystemReset),
        FunctionId::PSCI_FEATURES => return calls::features(PsciFeature::try_from(low1)),
        FunctionId::CPU_FREEZE => return Ok(Call::CpuFreeze),
        FunctionId::CPU_DEFAULT_SUSPEND_32 => return Ok(Call::CpuDefaultSuspend {
            entry: EntryPoint::entry32(low1, low2),
        }),
        FunctionId::CPU_DEFAULT_SUSPEND_64 => return Ok(Call::CpuDefaultSuspend {
            entry: EntryPoint::entry64(r1, r2),
        }),
        FunctionId::NODE_HW_STATE_32 => return calls::node_hw_state(Mpidr::try_from(low1), low2),
        FunctionId::NODE_HW_STATE_64 => return calls::node_hw_state(Mpidr::try_from(r1), low2),
        FunctionId::SYSTEM_SUSPEND_32 => return Ok(Call::SystemSuspend {
            entry: EntryPoint::entry32(low1, low2),
        }),
        FunctionId::SYSTEM_SUSPEND_64 => return Ok(Call::SystemSuspend {
            entry: EntryPoint::entry64(r1, r2),
        }),
        FunctionId::PSCI_SET_SUSPEND_MODE => return calls::set_suspend_mode(SuspendMode::try_from(
            low1,
        )),
        FunctionId::PSCI_STAT_RESIDENCY_32 => return calls::stat_residency(
            Mpidr::try_from(low1),
            S::from_word(low2),
        ),
        FunctionId::PSCI_STAT_RESIDENCY_64 => return calls::stat_residency(
            Mpidr::try_from(r1),
            S::from_word(low2),
        ),
        FunctionId::PSCI_STAT_COUNT_32 => return calls::stat_count(
            Mpidr::try_from(low1),
            S::from_word(low2),
        ),
        FunctionId::PSCI_STAT_COUNT_64 => return calls::stat_count(
            Mpidr::try_from(r1),
            S::from_word(low2),
        ),
        FunctionId::SYSTEM_RESET2_32 => return calls::system_reset2(
            ResetType::try_from(low1),
            Cookie::Cookie32(low2),
        ),
        FunctionId::SYSTEM_RESET2_64 => return calls::system_reset2(
            ResetType::try_from(low1),
            Cookie::Cookie64(r2),
        ),
        FunctionId::MEM_PROTECT => return Ok(Call::MemProtect { enabled: r1 != 0 }),
        FunctionId::MEM_PROTECT_CHECK_RANGE_32 => return Ok(Call::MemProtectCheckRange {
            range: MemProtectRange::Range32 {
                base: low1,
                length: low2,
            },
        }),
        FunctionId::MEM_PROTECT_CHECK_RANGE_64 => return Ok(Call::MemProtectCheckRange {
            range: MemProtectRange::Range64 {
                base: r1,
                length: r2,
            },
        }),
        FunctionId::SYSTEM_OFF2_32 => return calls::system_off2(
            SystemOff2Type::try_from(low1),
            Cookie::Cookie32(low2),
        ),
        FunctionId::SYSTEM_OFF2_64 => return calls::system_off2(
            SystemOff2Type::try_from(low1),
            Cookie::Cookie64(r2),
        ),
        _ => return Err(Error::UnrecognisedFunctionId(number)),
    }
}

// The call that four registers make, by the SMC Calling Convention (DEN0028): memory protect looks at the low 32 bits of r1. Every other number
// has `decode`'s answer, refusals among them.
#[inline(always)]
pub fn decode_smccc(regs: [u64; 4]) -> Result<Function, Error>
    ensures { answered result ≡ decode_smccc regs }
{
    decode(low_half_for_protect(regs))
}
