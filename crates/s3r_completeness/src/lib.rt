//! A run over sound volumes in which no call fails answers no fault.
#![tactic(auto)]

mod laws;

pub use laws::undisturbed_runs_answer_no_fault;
