//! What a turn of a region's jobs came to.

use s3r_jobs::JobState;
use s3r_names::VersionId;

/// What a turn of a region's jobs came to. A job's id has its region, and the index of the command that created it.
#[derive(Clone, Copy, Debug, PartialEq, Eq)]
pub enum JobOutcome {
    /// No job has a step.
    Idle,
    /// The job moved, or its manifest was read, and its state is this one.
    Moved { job: VersionId, state: JobState },
    /// The job did this line of its manifest, counted from 1.
    Lined { job: VersionId, line: u32 },
    /// The job ended in this state.
    Ended { job: VersionId, state: JobState },
}
