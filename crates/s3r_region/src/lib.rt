//! One region's state: what its buckets and their versions are after its commands, what it prescribes to others, and what it
//! received from them.
#![tactic(auto)]

mod accepting;
mod accepting_jobs;
mod applying;
mod bucket;
mod change;
mod configuring;
mod effects;
mod job;
mod job_line;
mod job_steps;
mod judging;
mod legal_hold;
mod object;
mod parts;
mod prescribing;
mod pushing;
mod queues;
mod receiving;
mod region_jobs;
mod sending;
mod state;
mod status;
mod tagging;
mod version;

pub use bucket::Bucket;
pub use s3r_history::{Refusal, Replication};
pub use state::{Deny, State};
