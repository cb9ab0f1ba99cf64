//! The moves of a job: each takes the job, and gives it in its next state, or back as it was.

ghost use Rattle.std.specs.Prelude.{◌≡◌, ◌⊎◌, Ok, Err};
ghost use Rattle.s3r_jobs.specs.Moves.{moved, prepared, state_with_lines, with_lines, in_state, unprepared, over, completed, end_of};
ghost use Rattle.s3r_jobs.specs.declared.state.JobState.TheVariants as state;

use crate::fault::{MoveFault, Wanted};
use crate::job::Job;
use crate::result::FailureReason;
use crate::stage::{Ended, New, Prepared, Running, Stage, Stopping};
use crate::state::JobState;
use crate::token::LineTurn;
use s3r_lines::Lines;
use std::alloc::Global;

/// The job, and that it doesn't have the move that was wanted.
fn refused<S: Stage>(job: Job<S>, wanted: Wanted) -> (Job<S>, MoveFault)
    ensures job { result.0 ≡ job }
    ensures fault { result.1 ≡ MoveFault.JobStatus job.state wanted }
{
    let from = job.state();
    (job, MoveFault::JobStatus { from, wanted })
}

impl Job<New> {
    /// From New to Preparing.
    pub fn begin(self) -> Result<Job<New>, (Job<New>, MoveFault)>
        ensures { result ≡ moved state.Preparing self }
    {
        match self.stage {
            New::New => Ok(self.into_stage(New::Preparing)),
            New::Preparing => Err(refused(self, Wanted::State(JobState::Preparing))),
        }
    }

    /// From Preparing to Suspended where a client has to confirm it, else to Ready: its lines are these. Memory for all
    /// results is taken now, so that no later call of the job wants any. Where there is none the job is as it was.
    pub fn prepared(
        self,
        alloc: Global,
        lines: Lines,
    ) -> Result<Job<Prepared>, (Job<New>, MoveFault)>
        ensures { (result ≡ prepared lines self) ⊎ (result ≡ Err (self, MoveFault.OutOfMemory)) }
    {
        match self.stage {
            New::Preparing => self.with_lines(alloc, lines),
            New::New => Err(refused(self, Wanted::Prepare)),
        }
    }

    /// From Preparing to Failing: there are no lines, for this reason.
    pub fn unprepared(self, why: FailureReason) -> Result<Job<Stopping>, (Job<New>, MoveFault)>
        ensures { result ≡ unprepared why self }
    {
        match self.stage {
            New::Preparing => Ok(self.failing(why)),
            New::New => Err(refused(self, Wanted::Prepare)),
        }
    }

    /// To Cancelling.
    pub fn cancel(self) -> Job<Stopping>
        ensures { Ok result ≡ moved state.Cancelling self }
    {
        self.into_stage(Stopping::Cancelling)
    }

    fn with_lines(self, alloc: Global, lines: Lines) -> Result<Job<Prepared>, (Job<New>, MoveFault)>
        ensures { (result ≡ Ok (in_state (state_with_lines self) (with_lines lines self)))
            ⊎ (result ≡ Err (self, MoveFault.OutOfMemory)) }
    {
        let Ok(results) = Vec::with_capacity(alloc, lines.as_slice().len()) else {
            return Err((self, MoveFault::OutOfMemory));
        };
        let stage = if self.spec.confirm {
            Prepared::Suspended
        } else {
            Prepared::Ready
        };
        let mut job = self.into_stage(stage);
        job.lines = lines;
        job.results = results;
        job.failed = 0;
        job.turn = LineTurn::Free;
        Ok(job)
    }
}

impl Job<Prepared> {
    /// From Suspended to Ready.
    pub fn confirm(self) -> Result<Job<Prepared>, (Job<Prepared>, MoveFault)>
        ensures { result ≡ moved state.Ready self }
    {
        match self.stage {
            Prepared::Suspended => Ok(self.into_stage(Prepared::Ready)),
            Prepared::Ready => Err(refused(self, Wanted::State(JobState::Ready))),
        }
    }

    /// From Ready to Active. That no other job is Active or Pausing is for the caller to see.
    pub fn activate(self) -> Result<Job<Running>, (Job<Prepared>, MoveFault)>
        ensures { result ≡ moved state.Active self }
    {
        match self.stage {
            Prepared::Ready => Ok(self.into_stage(Running::Active)),
            Prepared::Suspended => Err(refused(self, Wanted::State(JobState::Active))),
        }
    }

    /// To Cancelling.
    pub fn cancel(self) -> Job<Stopping>
        ensures { Ok result ≡ moved state.Cancelling self }
    {
        self.into_stage(Stopping::Cancelling)
    }
}

impl Job<Running> {
    /// From Active to Pausing.
    pub fn pause(self) -> Result<Job<Running>, (Job<Running>, MoveFault)>
        ensures { result ≡ moved state.Pausing self }
    {
        match self.stage {
            Running::Active => Ok(self.into_stage(Running::Pausing)),
            Running::Pausing | Running::Paused => {
                Err(refused(self, Wanted::State(JobState::Pausing)))
            }
        }
    }

    /// From Pausing to Paused.
    pub fn paused(self) -> Result<Job<Running>, (Job<Running>, MoveFault)>
        ensures { result ≡ moved state.Paused self }
    {
        match self.stage {
            Running::Pausing => Ok(self.into_stage(Running::Paused)),
            Running::Active | Running::Paused => {
                Err(refused(self, Wanted::State(JobState::Paused)))
            }
        }
    }

    /// From Paused to Active. That no other job is Active or Pausing is for the caller to see.
    pub fn resume(self) -> Result<Job<Running>, (Job<Running>, MoveFault)>
        ensures { result ≡ moved state.Active self }
    {
        match self.stage {
            Running::Paused => Ok(self.into_stage(Running::Active)),
            Running::Active | Running::Pausing => {
                Err(refused(self, Wanted::State(JobState::Active)))
            }
        }
    }

    /// From Active to Failing, exactly where too many lines failed.
    pub fn over(self) -> Result<Job<Stopping>, (Job<Running>, MoveFault)>
        ensures { result ≡ over self }
    {
        let is_over = self.is_over();
        match self.stage {
            Running::Active if is_over => Ok(self.failing(FailureReason::Threshold)),
            _ => Err(refused(self, Wanted::State(JobState::Failing))),
        }
    }

    /// From Active to Complete, exactly where every line has its result and not too many failed.
    pub fn complete(self) -> Result<Job<Ended>, (Job<Running>, MoveFault)>
        ensures { result ≡ completed self }
    {
        if self.is_done() {
            Ok(self.into_stage(Ended::Complete))
        } else {
            Err(refused(self, Wanted::Finish))
        }
    }

    /// To Cancelling.
    pub fn cancel(self) -> Job<Stopping>
        ensures { Ok result ≡ moved state.Cancelling self }
    {
        self.into_stage(Stopping::Cancelling)
    }
}

impl Job<Stopping> {
    /// From Cancelling to Cancelled, from Failing to Failed. A line that is still begun stays without a result.
    pub fn end(self) -> Job<Ended>
        ensures { Ok result ≡ moved (end_of self.state) self }
    {
        match self.stage {
            Stopping::Cancelling => self.into_stage(Ended::Cancelled),
            Stopping::Failing => self.into_stage(Ended::Failed),
        }
    }
}
