//! The lines of a batch job: the objects that they name, and what may be wrong of one.
#![tactic(auto)]

mod kind;
mod lines;
mod object;

pub use kind::LineKind;
pub use lines::{Lines, MOST_LINES};
pub use object::ObjectRef;
