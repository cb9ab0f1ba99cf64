//! What a job shows.

use s3r_jobs::{AnyJob, JobState};
use std::alloc::{AllocError, Global};

fn state_text(state: JobState) -> &'static str {
    match state {
        JobState::New => "New",
        JobState::Preparing => "Preparing",
        JobState::Suspended => "Suspended",
        JobState::Ready => "Ready",
        JobState::Active => "Active",
        JobState::Pausing => "Pausing",
        JobState::Paused => "Paused",
        JobState::Cancelling => "Cancelling",
        JobState::Failing => "Failing",
        JobState::Complete => "Complete",
        JobState::Cancelled => "Cancelled",
        JobState::Failed => "Failed",
    }
}

/// Its state, and how many results it has.
pub fn push_state(text: &mut String, alloc: Global, job: &AnyJob) -> Result<(), AllocError> {
    text.push_str(state_text(job.state()))?;
    let results = job.results().len();
    if results > 0 {
        text.push_str(format!(in alloc; ":{results}")?.as_str())?;
    }
    Ok(())
}

/// The same behind a blank.
pub fn push_next_state(text: &mut String, alloc: Global, job: &AnyJob) -> Result<(), AllocError> {
    text.push_str(" ")?;
    push_state(text, alloc, job)
}
