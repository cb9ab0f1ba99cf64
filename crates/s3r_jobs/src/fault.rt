//! Why a job isn't moved or taken in.

ghost use Rattle.std.specs.Prelude.{◌≡◌};
ghost use Rattle.s3r_jobs.specs.Texts.{wanted_text};

use crate::state::JobState;
use thiserror::Error;

/// What was asked of a job.
#[derive(Clone, Copy, Debug, PartialEq, Eq)]
pub enum Wanted {
    /// To go over to this state.
    State(JobState),
    /// To have its manifest read.
    Prepare,
    /// To begin its next line.
    Line,
    /// To end.
    Finish,
    /// To have another priority.
    Priority,
}

impl Wanted {
    /// As answers write it.
    pub fn as_str(self) -> &'static str
        ensures { result.now ≡ wanted_text self }
    {
        match self {
            Wanted::State(state) => state.as_str(),
            Wanted::Prepare => "Prepare",
            Wanted::Line => "Line",
            Wanted::Finish => "Finish",
            Wanted::Priority => "Priority",
        }
    }
}

/// Why a job isn't moved. It is as it was.
#[derive(Clone, Copy, Debug, PartialEq, Eq, Error)]
pub enum MoveFault {
    /// A job in this state can't do what was wanted.
    #[error("a job in this state has no such move")]
    JobStatus { from: JobState, wanted: Wanted },
    #[error("out of memory")]
    OutOfMemory,
}

/// Why a job isn't taken in. The jobs are as they were.
#[derive(Clone, Copy, Debug, PartialEq, Eq, Error)]
pub enum JobsFault {
    /// So many haven't ended that no other is taken in.
    #[error("too many jobs haven't ended")]
    TooManyJobs,
    #[error("out of memory")]
    OutOfMemory,
}
