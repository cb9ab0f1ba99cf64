//! A configuration of replication as JSON: read, and printed so that it is read back.
#![tactic(auto)]

mod bodies;
mod drafts;
mod printing;

pub use bodies::{print_config, read_config};
