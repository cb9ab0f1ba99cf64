//! Batch jobs: what they are asked to do, their states as types, their lines, and whose turn it is.
#![tactic(auto)]

mod any;
mod duty;
mod failures;
mod fault;
mod job;
mod jobs;
mod laws;
mod lines;
mod lookup;
mod moves;
mod places;
mod result;
mod rules;
mod same;
mod spec;
mod stage;
mod state;
mod token;
mod turn;

pub use any::AnyJob;
pub use failures::threshold;
pub use fault::{JobsFault, MoveFault, Wanted};
pub use job::Job;
pub use jobs::{Jobs, MOST_UNENDED};
pub use laws::{best_goes_first, ended_jobs_stay, lines_begin_once, lowest_goes_first};
pub use result::{Code, FailureReason, LineResult};
pub use rules::{LONGEST_REPORT_PREFIX, LONGEST_TARGET_PREFIX, MOST_PRIORITY, is_token};
pub use spec::{JobSpec, ManifestSpec, Operation, ReportSpec};
pub use stage::{Ended, New, Prepared, Running, Stage, Stopping};
pub use state::JobState;
pub use token::{LineToken, LineTurn};
pub use turn::{NextStep, next_job};
