//! Manifests of batch jobs: the lines that a CSV text names.
#![tactic(auto)]

mod fault;
mod field;
mod laws;
mod line;
mod reading;

pub use fault::ManifestFault;
pub use laws::one_reading;
pub use reading::read;
