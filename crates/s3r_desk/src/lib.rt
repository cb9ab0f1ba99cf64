//! All regions as one desk: each request is one step over their histories, committed before it is answered.
#![tactic(auto)]

mod answering;
mod bucket;
mod bucket_location;
mod committing;
mod comparing;
mod copy_outcome;
mod copying;
mod desk;
mod fault;
mod finding;
mod job;
mod job_outcome;
mod job_turn;
mod laws;
mod legal_hold;
mod listing;
mod object;
mod own_commit;
mod planning;
mod replication;
mod request;
mod tagging;
mod touching;
mod turning;
mod versioning;
mod work_summary;
mod worker_turn;
mod working;

pub use copy_outcome::CopyOutcome;
pub use desk::Desk;
pub use fault::DeskFault;
pub use job_outcome::JobOutcome;
pub use laws::no_region_is_missing;
pub use request::{Answer, ObjectMetadata, Request, Statuses};
pub use s3r_history::Refusal;
pub use s3r_versions::{Entries, ListPosition, Listed, Listing};
pub use work_summary::WorkSummary;
