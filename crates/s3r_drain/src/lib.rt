//! Turns of the copier settle the first pending tasks, one each.
#![tactic(auto)]

mod laws;

pub use laws::{clean_turns_lead, turns_drain, turns_settle_the_first};
