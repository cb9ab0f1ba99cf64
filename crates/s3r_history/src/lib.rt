//! What a region's history of commands means: its buckets and their rows, what it sends to others and receives, and which
//! commands it accepts.
#![tactic(auto)]

mod creation;
mod due;
mod laws;
mod refusal;
mod replication;
mod sent;

pub use creation::Creation;
pub use due::Due;
pub use laws::{
    agreeing_is_within, agreement_is_kept, buckets_are_counted, rows_are_listed, sent_is_short,
};
pub use refusal::Refusal;
pub use replication::Replication;
pub use sent::{Prescribed, Sent};
