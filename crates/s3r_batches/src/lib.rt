//! What is true of a region's jobs after every lawful history: what comes next among them is accepted, and each line of a
//! manifest is done once.
#![tactic(auto)]

mod laws;

pub use laws::{lines_are_done_once, steps_are_accepted};
