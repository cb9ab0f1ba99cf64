//! One region over its volume: its state as the volume has it, and commands that are committed to both.
#![tactic(auto)]

mod carrying;
mod due;
mod fault;
mod laws;
mod loaded_region;
mod reading;
mod store;
mod writing;

pub use fault::StoreFault;
pub use laws::one_lawful_history;
pub use loaded_region::LoadedRegion;
pub use store::Store;
