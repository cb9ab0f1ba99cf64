//! The stages of a job, each with the states that it has.

ghost use Rattle.std.specs.Prelude.{◌≡◌, Bool, IsTrue};
ghost use Rattle.s3r_jobs.specs.declared.state.JobState.{JobState};

use crate::state::JobState;

/// What a job's type says of its state. A move that its stage doesn't have can't be written.
pub trait Stage: Copy {
    /// Which state it is.
    ghost state_of: { Self → JobState };

    /// Whether a state is one of the stage.
    ghost has: { JobState → Bool };

    fn state(self) -> JobState
        ensures state { result ≡ state_of self }
        ensures staged { IsTrue (has result) };
}

/// Created, and not prepared yet.
#[derive(Clone, Copy)]
pub enum New {
    New,
    Preparing,
}

/// Its lines are known.
#[derive(Clone, Copy)]
pub enum Prepared {
    Suspended,
    Ready,
}

/// It is under way.
#[derive(Clone, Copy)]
pub enum Running {
    Active,
    Pausing,
    Paused,
}

/// It will begin no further line.
#[derive(Clone, Copy)]
pub enum Stopping {
    Cancelling,
    Failing,
}

/// It has ended.
#[derive(Clone, Copy)]
pub enum Ended {
    Complete,
    Cancelled,
    Failed,
}

impl Stage for New {
    ghost use Rattle.s3r_jobs.specs.Stages.{new_state};
    ghost use Rattle.s3r_jobs.specs.States.{is_unprepared};

    ghost state_of = { new_state };

    ghost has = { is_unprepared };

    fn state(self) -> JobState {
        match self {
            New::New => JobState::New,
            New::Preparing => JobState::Preparing,
        }
    }
}

impl Stage for Prepared {
    ghost use Rattle.s3r_jobs.specs.Stages.{prepared_state};
    ghost use Rattle.s3r_jobs.specs.States.{is_prepared};

    ghost state_of = { prepared_state };

    ghost has = { is_prepared };

    fn state(self) -> JobState {
        match self {
            Prepared::Suspended => JobState::Suspended,
            Prepared::Ready => JobState::Ready,
        }
    }
}

impl Stage for Running {
    ghost use Rattle.s3r_jobs.specs.Stages.{running_state};
    ghost use Rattle.s3r_jobs.specs.States.{is_under_way};

    ghost state_of = { running_state };

    ghost has = { is_under_way };

    fn state(self) -> JobState {
        match self {
            Running::Active => JobState::Active,
            Running::Pausing => JobState::Pausing,
            Running::Paused => JobState::Paused,
        }
    }
}

impl Stage for Stopping {
    ghost use Rattle.s3r_jobs.specs.Stages.{stopping_state};
    ghost use Rattle.s3r_jobs.specs.States.{is_stopping};

    ghost state_of = { stopping_state };

    ghost has = { is_stopping };

    fn state(self) -> JobState {
        match self {
            Stopping::Cancelling => JobState::Cancelling,
            Stopping::Failing => JobState::Failing,
        }
    }
}

impl Stage for Ended {
    ghost use Rattle.s3r_jobs.specs.Stages.{ended_state};
    ghost use Rattle.s3r_jobs.specs.States.{has_ended};

    ghost state_of = { ended_state };

    ghost has = { has_ended };

    fn state(self) -> JobState {
        match self {
            Ended::Complete => JobState::Complete,
            Ended::Cancelled => JobState::Cancelled,
            Ended::Failed => JobState::Failed,
        }
    }
}
