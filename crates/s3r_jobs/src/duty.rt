//! What a job's turn is for.

ghost use Rattle.std.specs.Prelude.{◌≡◌};
ghost use Rattle.s3r_jobs.specs.Duties.{is_due};

use crate::state::JobState;

/// What a job's turn is for.
#[derive(Clone, Copy)]
pub(crate) enum Duty {
    /// It is stopping, and is to end.
    End,
    /// Its manifest is to be read.
    Prepare,
    /// It was created, and is to be prepared.
    Begin,
    /// It is to pause.
    Rest,
    /// It is Active.
    Run,
    /// It waits to begin or to go on.
    Start,
}

/// Whether a job in this state is due for it.
pub(crate) fn is_due(duty: Duty, state: JobState) -> bool
    ensures { result ≡ is_due duty state }
{
    match (duty, state) {
        (Duty::End, JobState::Failing | JobState::Cancelling)
        | (Duty::Prepare, JobState::Preparing)
        | (Duty::Begin, JobState::New)
        | (Duty::Rest, JobState::Pausing)
        | (Duty::Run, JobState::Active)
        | (Duty::Start, JobState::Ready | JobState::Paused) => true,
        _ => false,
    }
}
