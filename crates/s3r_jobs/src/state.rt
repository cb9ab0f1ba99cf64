//! The states of a job.

ghost use Rattle.std.specs.Prelude.{◌≡◌};
ghost use Rattle.s3r_jobs.specs.Texts.{state_text};

/// Where a job stands (Amazon S3 User Guide, "Tracking job status and completion reports").
#[derive(Clone, Copy, Debug, PartialEq, Eq)]
pub enum JobState {
    /// It was created.
    New,
    /// Its manifest is to be read.
    Preparing,
    /// It waits for a client to confirm it.
    Suspended,
    /// It waits for its first turn.
    Ready,
    /// Its lines are done one after another.
    Active,
    /// A better job waits, and it is to make way.
    Pausing,
    /// It made way, and waits to go on.
    Paused,
    /// A client stopped it.
    Cancelling,
    /// It can't go on.
    Failing,
    /// It ended with a result of every line.
    Complete,
    /// It ended stopped by a client.
    Cancelled,
    /// It ended because it couldn't go on.
    Failed,
}

impl JobState {
    /// As answers write it (Amazon S3 API Reference, JobDescriptor).
    pub fn as_str(self) -> &'static str
        ensures { result.now ≡ state_text self }
    {
        match self {
            JobState::New => "New",
            JobState::Preparing => "Preparing",
            JobState::Suspended => "Suspended",
            JobState::Ready => "Ready",
            JobState::Active => "Active",
            JobState::Pausing => "Pausing",
            JobState::Paused => "Paused",
            JobState::Cancelling => "Cancelling",
            JobState::Failing => "Failing",
            JobState::Complete => "Complete",
            JobState::Cancelled => "Cancelled",
            JobState::Failed => "Failed",
        }
    }
}
