// The single words of a power call, a module for each type, with its reader, its writer, its constants and its laws: document 01, "Single
// words" and "The typed call", and document 02, Change 1. Function numbers and codes have crates of their own.
#![tactic(auto)]

mod cookies;
mod entry_points;
mod hw_states;
mod mem_protect_ranges;
mod mpidrs;
mod original_power_states;
mod power_states;
mod psci_features;
mod reset_types;
mod suspend_modes;
mod system_off2_types;
mod versions;

pub use cookies::Cookie;
pub use entry_points::EntryPoint;
pub use hw_states::HwState;
pub use mem_protect_ranges::MemProtectRange;
pub use mpidrs::Mpidr;
pub use original_power_states::OriginalPowerState;
pub use power_states::PowerState;
pub use psci_features::PsciFeature;
pub use reset_types::{ArchitecturalResetType, ResetType};
pub use suspend_modes::SuspendMode;
pub use system_off2_types::SystemOff2Type;
pub use versions::Version;
