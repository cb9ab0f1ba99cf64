//! Whose turn it is among the jobs of a region. At most 16 of them haven't ended, so each question looks at all of
//! these.

ghost use Rattle.std.specs.Prelude.{◌≡◌, map};
ghost use Rattle.s3r_jobs.specs.Any.{facts};
ghost use Rattle.s3r_jobs.specs.Duties.{is_due};
ghost use Rattle.s3r_jobs.specs.Turn.{lesser, lowest, running, is_better, rank, better_of, best, is_outdone, running_step, active_step, start_step, next_step};

use crate::any::AnyJob;
use crate::duty::{Duty, is_due};
use crate::jobs::Jobs;
use crate::places::find;
use crate::state::JobState;

/// The next step of a region's jobs, each with the id of the job that makes it.
#[derive(Clone, Copy)]
pub enum NextStep {
    /// It ends.
    Finish(u64),
    /// Its manifest is read.
    Prepare(u64),
    /// It goes over to this state.
    Move(u64, JobState),
    /// It does this line, counted from 1.
    Line(u64, u32),
}

/// The lesser of both.
fn lesser(id: u64, other: Option<u64>) -> Option<u64>
    ensures { result ≡ lesser id other }
{
    match other {
        Some(other) if other < id => Some(other),
        _ => Some(id),
    }
}

/// The lowest id of those that are due.
fn lowest(duty: Duty, jobs: &[AnyJob]) -> Option<u64>
    ensures { result ≡ lowest (is_due duty) (map facts jobs.now) }
{
    match jobs {
        [] => None,
        [job, rest @ ..] => {
            let behind = lowest(duty, rest);
            if is_due(duty, job.state()) {
                lesser(job.id(), behind)
            } else {
                behind
            }
        }
    }
}

/// The lowest id of those that are Active or Pausing.
pub(crate) fn running(jobs: &[AnyJob]) -> Option<u64>
    ensures { result ≡ running (map facts jobs.now) }
{
    match jobs {
        [] => None,
        [job, rest @ ..] => {
            let behind = running(rest);
            match job.state() {
                JobState::Active | JobState::Pausing => lesser(job.id(), behind),
                _ => behind,
            }
        }
    }
}

/// Whether a job of the first priority and id is better than one of the second.
fn is_better(first: (u32, u64), second: (u32, u64)) -> bool
    ensures { result ≡ is_better first second }
{
    first.0 > second.0 || (first.0 == second.0 && first.1 < second.1)
}

/// Its priority and its id.
fn rank(job: &AnyJob) -> (u32, u64)
    ensures { result ≡ rank (facts job.now) }
{
    (job.priority(), job.id())
}

/// The better of both.
fn better_of(first: (u32, u64), other: Option<(u32, u64)>) -> (u32, u64)
    ensures { result ≡ better_of first other }
{
    match other {
        Some(other) if is_better(other, first) => other,
        _ => first,
    }
}

/// The priority and the id of the best job that waits.
fn best(jobs: &[AnyJob]) -> Option<(u32, u64)>
    ensures { result ≡ best (map facts jobs.now) }
{
    match jobs {
        [] => None,
        [job, rest @ ..] => {
            let behind = best(rest);
            if is_due(Duty::Start, job.state()) {
                Some(better_of(rank(job), behind))
            } else {
                behind
            }
        }
    }
}

/// Whether a better job than this one waits.
fn is_outdone(than: &AnyJob, jobs: &[AnyJob]) -> bool
    ensures { result ≡ is_outdone (facts than.now) (map facts jobs.now) }
{
    match jobs {
        [] => false,
        [job, rest @ ..] => {
            (is_due(Duty::Start, job.state()) && is_better(rank(job), rank(than)))
                || is_outdone(than, rest)
        }
    }
}

/// The step of a job that is Active.
fn running_step(jobs: &[AnyJob], job: &AnyJob) -> Option<NextStep>
    ensures { result ≡ running_step (map facts jobs.now) (facts job.now) }
{
    if job.is_over() {
        Some(NextStep::Move(job.id(), JobState::Failing))
    } else if job.is_done() {
        Some(NextStep::Finish(job.id()))
    } else if is_outdone(job, jobs) {
        Some(NextStep::Move(job.id(), JobState::Pausing))
    } else if job.is_free() {
        Some(NextStep::Line(job.id(), job.next_line()))
    } else {
        None
    }
}

fn active_step(jobs: &[AnyJob]) -> Option<NextStep>
    ensures { result ≡ active_step (map facts jobs.now) }
{
    let id = lowest(Duty::Run, jobs)?;
    let job = find(id, jobs)?;
    running_step(jobs, job)
}

fn start_step(jobs: &[AnyJob]) -> Option<NextStep>
    ensures { result ≡ start_step (map facts jobs.now) }
{
    if running(jobs).is_some() {
        return None;
    }
    let (_, id) = best(jobs)?;
    Some(NextStep::Move(id, JobState::Active))
}

fn step_of(jobs: &[AnyJob]) -> Option<NextStep>
    ensures { result ≡ next_step (map facts jobs.now) }
{
    if let Some(id) = lowest(Duty::End, jobs) {
        return Some(NextStep::Finish(id));
    }
    if let Some(id) = lowest(Duty::Prepare, jobs) {
        return Some(NextStep::Prepare(id));
    }
    if let Some(id) = lowest(Duty::Begin, jobs) {
        return Some(NextStep::Move(id, JobState::Preparing));
    }
    if let Some(id) = lowest(Duty::Rest, jobs) {
        return Some(NextStep::Move(id, JobState::Paused));
    }
    if let Some(step) = active_step(jobs) {
        return Some(step);
    }
    start_step(jobs)
}

/// The next step of the jobs that are in their place. None exactly where none of them has one.
pub fn next_job(jobs: &Jobs) -> Option<NextStep>
    ensures { result ≡ next_step jobs.now.live }
{
    step_of(jobs.live())
}
