//! What accepted commands do to one job.

ghost use Rattle.std.specs.Prelude.{◌≡◌, true, Some, ◌||◌, IfOk};
ghost use Rattle.s3r_jobs.specs.Any.{facts};
ghost use Rattle.s3r_jobs.specs.Lines.{may_start};
ghost use Rattle.s3r_jobs.specs.Moves.{is_done};
ghost use Rattle.s3r_jobs.specs.States.{is_preparing, is_stopping};
ghost use Rattle.s3r_history.specs.Accepts.{has_move};
ghost use Rattle.s3r_history.specs.JobSteps.{move_to, read_lines, did_line, finish};

use s3r_jobs::{
    AnyJob, FailureReason, Job, JobState, LineResult, MoveFault, New, Prepared, Running, Stopping,
};
use s3r_lines::Lines;
use std::alloc::{AllocError, Global};

fn move_new(job: Job<New>, to: JobState) -> AnyJob
    ensures { has_move job to ≡ true → facts result ≡ move_to to job }
{
    let _unprepared = job.state();
    match to {
        JobState::Preparing => match job.begin() {
            Ok(job) => AnyJob::New(job),
            Err((job, _)) => AnyJob::New(job),
        },
        JobState::Cancelling => AnyJob::Stopping(job.cancel()),
        _ => AnyJob::New(job),
    }
}

fn move_prepared(job: Job<Prepared>, to: JobState) -> AnyJob
    ensures { has_move job to ≡ true → facts result ≡ move_to to job }
{
    let _prepared = job.state();
    match to {
        JobState::Ready => match job.confirm() {
            Ok(job) => AnyJob::Prepared(job),
            Err((job, _)) => AnyJob::Prepared(job),
        },
        JobState::Active => match job.activate() {
            Ok(job) => AnyJob::Running(job),
            Err((job, _)) => AnyJob::Prepared(job),
        },
        JobState::Cancelling => AnyJob::Stopping(job.cancel()),
        _ => AnyJob::Prepared(job),
    }
}

fn move_running(job: Job<Running>, to: JobState) -> AnyJob
    ensures { has_move job to ≡ true → facts result ≡ move_to to job }
{
    let _under_way = job.state();
    match to {
        JobState::Active => match job.resume() {
            Ok(job) => AnyJob::Running(job),
            Err((job, _)) => AnyJob::Running(job),
        },
        JobState::Pausing => match job.pause() {
            Ok(job) => AnyJob::Running(job),
            Err((job, _)) => AnyJob::Running(job),
        },
        JobState::Paused => match job.paused() {
            Ok(job) => AnyJob::Running(job),
            Err((job, _)) => AnyJob::Running(job),
        },
        JobState::Failing => match job.over() {
            Ok(job) => AnyJob::Stopping(job),
            Err((job, _)) => AnyJob::Running(job),
        },
        JobState::Cancelling => AnyJob::Stopping(job.cancel()),
        _ => AnyJob::Running(job),
    }
}

/// A job that moves to a state; one that has no such move is as it was.
pub(crate) fn moved(job: AnyJob, to: JobState) -> AnyJob
    ensures { has_move (facts job) to ≡ true → facts result ≡ move_to to (facts job) }
{
    let _state = job.state();
    match job {
        AnyJob::New(job) => move_new(job, to),
        AnyJob::Prepared(job) => move_prepared(job, to),
        AnyJob::Running(job) => move_running(job, to),
        AnyJob::Stopping(job) => AnyJob::Stopping(job),
        AnyJob::Ended(job) => AnyJob::Ended(job),
    }
}

fn read_new(
    alloc: Global,
    job: Job<New>,
    lines: Result<Lines, FailureReason>,
) -> Result<AnyJob, AllocError>
    ensures { IfOk result (λ any. is_preparing job.state ≡ true → facts any ≡ read_lines (Some lines) job) }
{
    match lines {
        Ok(lines) => match job.prepared(alloc, lines) {
            Ok(job) => Ok(AnyJob::Prepared(job)),
            Err((job, MoveFault::JobStatus { .. })) => Ok(AnyJob::New(job)),
            Err((_, MoveFault::OutOfMemory)) => Err(AllocError),
        },
        Err(why) => match job.unprepared(why) {
            Ok(job) => Ok(AnyJob::Stopping(job)),
            Err((job, _)) => Ok(AnyJob::New(job)),
        },
    }
}

/// A job whose manifest was read; one that isn't Preparing is as it was. The error is want of memory.
pub(crate) fn read(
    alloc: Global,
    job: AnyJob,
    lines: Result<Lines, FailureReason>,
) -> Result<AnyJob, AllocError>
    ensures { IfOk result (λ any. is_preparing (facts job).state ≡ true → facts any ≡ read_lines (Some lines) (facts job)) }
{
    let _state = job.state();
    match job {
        AnyJob::New(job) => read_new(alloc, job, lines),
        AnyJob::Prepared(job) => Ok(AnyJob::Prepared(job)),
        AnyJob::Running(job) => Ok(AnyJob::Running(job)),
        AnyJob::Stopping(job) => Ok(AnyJob::Stopping(job)),
        AnyJob::Ended(job) => Ok(AnyJob::Ended(job)),
    }
}

fn go_on(job: &mut Job<Running>, result_of: Option<LineResult>)
    ensures { may_start job.old ≡ true → job.new ≡ did_line result_of job.old }
{
    if let Some(token) = job.start_line() {
        match result_of {
            Some(result_of) => job.finish_line(token, result_of),
            None => job.keep_line(token),
        }
    }
}

/// A job that did its next line, which came to this, or waits; one that may begin no line is as it was.
pub(crate) fn went_on(job: AnyJob, result_of: Option<LineResult>) -> AnyJob
    ensures { may_start (facts job) ≡ true → facts result ≡ did_line result_of (facts job) }
{
    let _state = job.state();
    match job {
        AnyJob::Running(mut job) => {
            go_on(&mut job, result_of);
            AnyJob::Running(job)
        }
        AnyJob::New(job) => AnyJob::New(job),
        AnyJob::Prepared(job) => AnyJob::Prepared(job),
        AnyJob::Stopping(job) => AnyJob::Stopping(job),
        AnyJob::Ended(job) => AnyJob::Ended(job),
    }
}

fn end(job: Job<Stopping>) -> AnyJob
    ensures { facts result ≡ finish job }
{
    let _stopping = job.state();
    AnyJob::Ended(job.end())
}

fn complete(job: Job<Running>) -> AnyJob
    ensures { is_done job ≡ true → facts result ≡ finish job }
{
    match job.complete() {
        Ok(job) => AnyJob::Ended(job),
        Err((job, _)) => AnyJob::Running(job),
    }
}

/// A job that ends; one that may not is as it was.
pub(crate) fn finished(job: AnyJob) -> AnyJob
    ensures { (is_done (facts job) || is_stopping (facts job).state) ≡ true → facts result ≡ finish (facts job) }
{
    let _state = job.state();
    match job {
        AnyJob::Running(job) => complete(job),
        AnyJob::Stopping(job) => end(job),
        AnyJob::New(job) => AnyJob::New(job),
        AnyJob::Prepared(job) => AnyJob::Prepared(job),
        AnyJob::Ended(job) => AnyJob::Ended(job),
    }
}
