//! A job in whatever stage.

ghost use Rattle.std.specs.Prelude.{◌≡◌, ◌+◌, length, option_copied, IsTrue};
ghost use Rattle.s3r_jobs.specs.Any.{facts, in_stage};
ghost use Rattle.s3r_jobs.specs.Facts.{begun};
ghost use Rattle.s3r_jobs.specs.Lines.{is_free};
ghost use Rattle.s3r_jobs.specs.Moves.{with_priority, prioritized, is_done};
ghost use Rattle.s3r_jobs.specs.States.{has_ended};
ghost use Rattle.s3r_jobs.specs.Threshold.{is_over};

use crate::fault::MoveFault;
use crate::job::Job;
use crate::result::{FailureReason, LineResult};
use crate::spec::JobSpec;
use crate::stage::{Ended, New, Prepared, Running, Stopping};
use crate::state::JobState;
use s3r_lines::ObjectRef;

/// A job in whatever stage.
#[must_use]
#[derive(Drop)]
pub enum AnyJob {
    New(Job<New>),
    Prepared(Job<Prepared>),
    Running(Job<Running>),
    Stopping(Job<Stopping>),
    Ended(Job<Ended>),
}

/// The answer of the job in its stage.
macro_rules! of_job {
    ($any:expr, $job:ident => $answer:expr) => {
        match $any {
            AnyJob::New($job) => $answer,
            AnyJob::Prepared($job) => $answer,
            AnyJob::Running($job) => $answer,
            AnyJob::Stopping($job) => $answer,
            AnyJob::Ended($job) => $answer,
        }
    };
}

impl AnyJob {
    pub fn id(&self) -> u64
        ensures { result ≡ (facts self.now).id }
    {
        of_job!(self, job => job.id())
    }

    /// The specification as the job was created.
    pub fn spec(&self) -> &JobSpec
        ensures { result.now ≡ (facts self.now).spec }
    {
        of_job!(self, job => job.spec())
    }

    /// The priority as it is now.
    pub fn priority(&self) -> u32
        ensures { result ≡ (facts self.now).priority }
    {
        of_job!(self, job => job.priority())
    }

    /// Its state, which is one of its stage.
    pub fn state(&self) -> JobState
        ensures state { result ≡ (facts self.now).state }
        ensures staged { IsTrue (in_stage self.now) }
    {
        of_job!(self, job => job.state())
    }

    /// Its lines, none before they are prepared.
    pub fn lines(&self) -> &[ObjectRef]
        ensures { result.now ≡ (facts self.now).lines }
    {
        of_job!(self, job => job.lines())
    }

    /// The results of the first lines.
    pub fn results(&self) -> &[LineResult]
        ensures { result.now ≡ (facts self.now).results }
    {
        of_job!(self, job => job.results())
    }

    /// The line that was begun and has no result, counted from 1.
    pub fn begun(&self) -> Option<u32>
        ensures { result ≡ begun (facts self.now) }
    {
        of_job!(self, job => job.begun())
    }

    /// Why it failed or is to fail.
    pub fn reason(&self) -> Option<&FailureReason>
        ensures { option_copied result ≡ (facts self.now).reason }
    {
        of_job!(self, job => job.reason())
    }

    /// Its priority is this one from now on. It is refused exactly where the job has ended, and then nothing changes.
    pub fn set_priority(&mut self, priority: u32) -> Result<(), MoveFault>
        ensures answer { result ≡ prioritized (facts self.old) }
        ensures job { facts self.new ≡ with_priority priority (facts self.old) }
    {
        of_job!(self, job => job.set_priority(priority))
    }

    pub(crate) fn has_ended(&self) -> bool
        ensures { result ≡ has_ended (facts self.now).state }
    {
        of_job!(self, job => job.has_ended())
    }

    /// Whether too many of its lines failed.
    pub fn is_over(&self) -> bool
        ensures { result ≡ is_over (facts self.now).results }
    {
        of_job!(self, job => job.is_over())
    }

    /// Whether it is Active and may end.
    pub fn is_done(&self) -> bool
        ensures { result ≡ is_done (facts self.now) }
    {
        of_job!(self, job => job.is_done())
    }

    /// Whether no line of it was begun without a result.
    pub fn is_free(&self) -> bool
        ensures { result ≡ is_free (facts self.now).turn }
    {
        of_job!(self, job => job.is_free())
    }

    pub(crate) fn next_line(&self) -> u32
        ensures { result ≡ length (facts self.now).results + 1 }
    {
        of_job!(self, job => job.next_line())
    }
}
