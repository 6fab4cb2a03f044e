// A call from its fields as they were read: a refused field is the answer, and of two the one that RefusalOrders.antt puts first. By `map` and no `?`: for
// that LLVM takes what is behind an answer's tag as one lump, and decode then encode of CPU off takes a quarter more time (docs/BENCHMARKS.md).
ghost use Rattle.std.specs.Prelude.{◌≡◌};
ghost use Rattle.answers.specs.Answers.{through};
ghost use Rattle.answers.specs.Errors.{answered};
ghost use Rattle.function.specs.declared.Call.TheVariants.{CpuSuspend, CpuOn, Migrate, SystemOff2, SystemReset2, Features, NodeHwState, SetSuspendMode, StatResidency, StatCount};
ghost use Rattle.decode_definition.specs.RefusalOrders.{affinity_info, of_core_state};

use answers::Error;
use function::{Call, StateFormat};
use words::{Cookie, EntryPoint, Mpidr, PsciFeature, ResetType, SuspendMode, SystemOff2Type};

// CPU suspend, or the refusal of its power state.
pub fn cpu_suspend<S: StateFormat>(
    state: Result<S, Error>,
    entry: EntryPoint,
) -> Result<Call<S>, Error>
    ensures { answered result ≡ through (λ s. CpuSuspend s entry) (answered state) }
{
    state.map(|state| state.suspend(entry))
}

// CPU on, or the refusal of its MPIDR.
pub fn cpu_on<S: Copy>(mpidr: Result<Mpidr, Error>, entry: EntryPoint) -> Result<Call<S>, Error>
    ensures { answered result ≡ through (λ m. CpuOn m entry) (answered mpidr) }
{
    mpidr.map(|target_cpu| Call::CpuOn { target_cpu, entry })
}

// Migrate, or the refusal of its MPIDR.
pub fn migrate<S: Copy>(mpidr: Result<Mpidr, Error>) -> Result<Call<S>, Error>
    ensures { answered result ≡ through Migrate (answered mpidr) }
{
    mpidr.map(|target_affinity| Call::Migrate { target_affinity })
}

// Node hardware state of any level, or the refusal of its MPIDR.
pub fn node_hw_state<S: Copy>(
    mpidr: Result<Mpidr, Error>,
    power_level: u32,
) -> Result<Call<S>, Error>
    ensures { answered result ≡ through (λ m. NodeHwState m power_level) (answered mpidr) }
{
    mpidr.map(|target_cpu| Call::NodeHwState {
        target_cpu,
        power_level,
    })
}

// Affinity info, or the refusal of its level, if that is above the most that its form has (3, or 2 where affinity 3 is absent), or else of its
// MPIDR.
pub fn affinity_info<S: Copy>(
    most: u32,
    lowest_affinity_level: u32,
    mpidr: Result<Mpidr, Error>,
) -> Result<Call<S>, Error>
    ensures { answered result ≡ affinity_info most lowest_affinity_level (answered mpidr) }
{
    if lowest_affinity_level > most {
        return Err(Error::InvalidLowerAffinityLevel(lowest_affinity_level));
    }
    mpidr.map(|mpidr| Call::AffinityInfo {
        mpidr,
        lowest_affinity_level,
    })
}

// Features, or the refusal of the feature asked about.
pub fn features<S: Copy>(feature: Result<PsciFeature, Error>) -> Result<Call<S>, Error>
    ensures { answered result ≡ through Features (answered feature) }
{
    feature.map(|psci_func_id| Call::Features { psci_func_id })
}

// Set suspend mode, or the refusal of its mode.
pub fn set_suspend_mode<S: Copy>(mode: Result<SuspendMode, Error>) -> Result<Call<S>, Error>
    ensures { answered result ≡ through SetSuspendMode (answered mode) }
{
    mode.map(|mode| Call::SetSuspendMode { mode })
}

// The type is made anew for each kind, as a power state is in `StateFormat::suspend`.
fn reset2<S: Copy>(reset_type: ResetType, cookie: Cookie) -> Call<S>
    ensures { result ≡ SystemReset2 reset_type cookie }
{
    match reset_type {
        ResetType::Architectural(architectural) => Call::SystemReset2 {
            reset_type: ResetType::Architectural(architectural),
            cookie,
        },
        ResetType::VendorSpecific(vendor_specific) => Call::SystemReset2 {
            reset_type: ResetType::VendorSpecific(vendor_specific),
            cookie,
        },
    }
}

// Reset 2, or the refusal of its reset type.
pub fn system_reset2<S: Copy>(
    reset_type: Result<ResetType, Error>,
    cookie: Cookie,
) -> Result<Call<S>, Error>
    ensures { answered result ≡ through (λ t. SystemReset2 t cookie) (answered reset_type) }
{
    reset_type.map(|reset_type| reset2(reset_type, cookie))
}

// Off 2, or the refusal of its off type.
pub fn system_off2<S: Copy>(
    off_type: Result<SystemOff2Type, Error>,
    cookie: Cookie,
) -> Result<Call<S>, Error>
    ensures { answered result ≡ through (λ t. SystemOff2 t cookie) (answered off_type) }
{
    off_type.map(|off_type| Call::SystemOff2 { off_type, cookie })
}

// Residency, or the refusal of its MPIDR, or else of its power state.
pub fn stat_residency<S: Copy>(
    mpidr: Result<Mpidr, Error>,
    state: Result<S, Error>,
) -> Result<Call<S>, Error>
    ensures { answered result ≡ of_core_state StatResidency (answered mpidr) (answered state) }
{
    mpidr.and_then(|target_cpu| {
        state.map(|power_state| Call::StatResidency {
            target_cpu,
            power_state,
        })
    })
}

// Count, or the refusal of its MPIDR, or else of its power state. It differs from residency in the variant alone: one function for both would take a
// closure that makes it, and be no plainer.
pub fn stat_count<S: Copy>(
    mpidr: Result<Mpidr, Error>,
    state: Result<S, Error>,
) -> Result<Call<S>, Error>
    ensures { answered result ≡ of_core_state StatCount (answered mpidr) (answered state) }
{
    mpidr.and_then(|target_cpu| {
        state.map(|power_state| Call::StatCount {
            target_cpu,
            power_state,
        })
    })
}
