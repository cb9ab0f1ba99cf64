//! What becomes of what one region sends to another, as laws of histories that agree. Nothing stands on them; they say what
//! the agreement in the top call's contract is worth.
#![tactic(auto)]

mod laws;

pub use laws::what_was_sent_has_arrived;
