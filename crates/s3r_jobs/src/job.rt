//! A job, and what it shows.

ghost use Rattle.std.specs.Prelude.{◌≡◌, ◌≤◌, ◌+◌, length, option_copied, IsTrue};
ghost use Rattle.s3r_jobs.specs.Facts.{new_job, begun};
ghost use Rattle.s3r_jobs.specs.Lines.{is_free};
ghost use Rattle.s3r_jobs.specs.Moves.{prioritized, with_priority, failing, is_done};
ghost use Rattle.s3r_jobs.specs.States.{is_active, has_ended};
ghost use Rattle.s3r_jobs.specs.Threshold.{is_over};

use crate::failures::threshold;
use crate::fault::{MoveFault, Wanted};
use crate::result::{FailureReason, LineResult};
use crate::spec::JobSpec;
use crate::stage::{New, Stage, Stopping};
use crate::state::JobState;
use crate::token::LineTurn;
use s3r_lines::{Lines, ObjectRef};
use std::alloc::Global;
use std::marker::Model;

/// A job in a stage, seen as what is known of it. Its state is computed from its stage, so none of another stage can be
/// kept beside it.
#[must_use]
#[derive(Drop)]
pub struct Job<S: Stage> {
    pub(crate) id: u64,
    pub(crate) spec: JobSpec,
    pub(crate) priority: u32,
    pub(crate) lines: Lines,
    /// It has room for a result of every line.
    pub(crate) results: Vec<LineResult>,
    /// How many of the results are failures.
    pub(crate) failed: u64,
    pub(crate) turn: LineTurn,
    pub(crate) reason: Option<FailureReason>,
    pub(crate) stage: S,
}

impl<S: Stage> Model for Job<S> {
    ghost use Rattle.std.specs.Prelude.{◌≡◌, ◌≤◌, length, count_by, vec_capacity};
    ghost use Rattle.s3r_jobs.specs.Facts.{JobFacts};
    ghost use Rattle.s3r_jobs.specs.Threshold.{has_failed};
    ghost use Rattle.s3r_jobs.specs.Room.{HasRoom};

    ghost Value = { JobFacts };

    ghost view = { λ job. record {
      id = job.id;
      spec = job.spec;
      priority = job.priority;
      state = S.state_of job.stage;
      lines = job.lines;
      results = job.results.items;
      turn = job.turn;
      reason = job.reason;
    } };

    ghost invariant = { λ job. (job.failed ≡ count_by has_failed job.results.items)
        × HasRoom job.turn (length job.results.items) (length job.lines)
        × (length job.lines ≤ vec_capacity job.results) };
}

impl Job<New> {
    /// A job that was created just now.
    pub fn make(alloc: Global, id: u64, spec: JobSpec) -> Job<New>
        ensures { result ≡ new_job id spec }
    {
        Job {
            id,
            priority: spec.priority,
            spec,
            lines: Lines::none(alloc),
            results: Vec::new(alloc),
            failed: 0,
            turn: LineTurn::Free,
            reason: None,
            stage: New::New,
        }
    }
}

impl<S: Stage> Job<S> {
    pub fn id(&self) -> u64
        ensures { result ≡ self.now.id }
    {
        self.id
    }

    /// The specification as the job was created.
    pub fn spec(&self) -> &JobSpec
        ensures { result.now ≡ self.now.spec }
    {
        &self.spec
    }

    /// The priority as it is now.
    pub fn priority(&self) -> u32
        ensures { result ≡ self.now.priority }
    {
        self.priority
    }

    /// Its state, which is one of its stage.
    pub fn state(&self) -> JobState
        ensures state { result ≡ self.now.state }
        ensures staged { IsTrue (S.has self.now.state) }
    {
        self.stage.state()
    }

    /// Its lines, none before they are prepared.
    pub fn lines(&self) -> &[ObjectRef]
        ensures { result.now ≡ self.now.lines }
    {
        self.lines.as_slice()
    }

    /// The results of the first lines.
    pub fn results(&self) -> &[LineResult]
        ensures listed { result.now ≡ self.now.results }
        ensures few { length self.now.results ≤ length self.now.lines }
    {
        self.results.as_slice()
    }

    /// The line that was begun and has no result, counted from 1.
    pub fn begun(&self) -> Option<u32>
        ensures { result ≡ begun self.now }
    {
        match self.turn {
            LineTurn::Free => None,
            LineTurn::Begun | LineTurn::Kept => Some(self.next_line()),
        }
    }

    /// Why it failed or is to fail.
    pub fn reason(&self) -> Option<&FailureReason>
        ensures { option_copied result ≡ self.now.reason }
    {
        self.reason.as_ref()
    }

    pub(crate) fn set_priority(&mut self, priority: u32) -> Result<(), MoveFault>
        ensures answer { result ≡ prioritized self.old }
        ensures job { self.new ≡ with_priority priority self.old }
    {
        if self.has_ended() {
            return Err(MoveFault::JobStatus {
                from: self.state(),
                wanted: Wanted::Priority,
            });
        }
        self.priority = priority;
        Ok(())
    }
}

impl<S: Stage> Job<S> {
    /// The number of the line behind the results.
    pub(crate) fn next_line(&self) -> u32
        ensures { result ≡ length self.now.results + 1 }
    {
        let _few = self.lines.as_slice();
        self.results.len() as u32 + 1
    }

    pub(crate) fn has_ended(&self) -> bool
        ensures { result ≡ has_ended self.now.state }
    {
        match self.state() {
            JobState::Complete | JobState::Cancelled | JobState::Failed => true,
            _ => false,
        }
    }

    pub(crate) fn is_active(&self) -> bool
        ensures { result ≡ is_active self.now.state }
    {
        match self.state() {
            JobState::Active => true,
            _ => false,
        }
    }

    pub(crate) fn is_over(&self) -> bool
        ensures { result ≡ is_over self.now.results }
    {
        threshold(self.results.len() as u64, self.failed)
    }

    pub(crate) fn is_free(&self) -> bool
        ensures { result ≡ is_free self.now.turn }
    {
        match self.turn {
            LineTurn::Free => true,
            LineTurn::Begun | LineTurn::Kept => false,
        }
    }

    /// Active, with a result for every line, and not too many of them failed.
    pub(crate) fn is_done(&self) -> bool
        ensures { result ≡ is_done self.now }
    {
        match self.state() {
            JobState::Active => self.results().len() == self.lines().len() && !self.is_over(),
            _ => false,
        }
    }

    /// Goes over to another state.
    pub(crate) fn into_stage<T: Stage>(self, stage: T) -> Job<T>
        ensures { result ≡ record self { state = T.state_of stage } }
    {
        let Job {
            id,
            spec,
            priority,
            lines,
            results,
            failed,
            turn,
            reason,
            stage: _,
        } = self;
        Job {
            id,
            spec,
            priority,
            lines,
            results,
            failed,
            turn,
            reason,
            stage,
        }
    }

    /// It fails, for a reason.
    pub(crate) fn failing(self, why: FailureReason) -> Job<Stopping>
        ensures { result ≡ failing why self }
    {
        let mut job = self.into_stage(Stopping::Failing);
        job.reason = Some(why);
        job
    }
}
