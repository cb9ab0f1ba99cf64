//! What is asked of a job. One that has no such move stays as it is.

use crate::making::lines;
use s3r_jobs::{AnyJob, Code, FailureReason, Job, LineResult, New, Prepared, Running, Stopping};
use std::alloc::Global;

fn asked_new(alloc: Global, job: Job<New>, count: u32, word: &str) -> AnyJob {
    match word {
        "begin" => match job.begin() {
            Ok(job) => AnyJob::New(job),
            Err((job, _)) => AnyJob::New(job),
        },
        "prepare" => match job.prepared(alloc, lines(alloc, count)) {
            Ok(job) => AnyJob::Prepared(job),
            Err((job, _)) => AnyJob::New(job),
        },
        "refuse" => match job.unprepared(FailureReason::Gone) {
            Ok(job) => AnyJob::Stopping(job),
            Err((job, _)) => AnyJob::New(job),
        },
        "cancel" => AnyJob::Stopping(job.cancel()),
        _ => AnyJob::New(job),
    }
}

fn asked_prepared(job: Job<Prepared>, word: &str) -> AnyJob {
    match word {
        "confirm" => match job.confirm() {
            Ok(job) => AnyJob::Prepared(job),
            Err((job, _)) => AnyJob::Prepared(job),
        },
        "activate" => match job.activate() {
            Ok(job) => AnyJob::Running(job),
            Err((job, _)) => AnyJob::Prepared(job),
        },
        "cancel" => AnyJob::Stopping(job.cancel()),
        _ => AnyJob::Prepared(job),
    }
}

/// Begins a line and gives it this result.
fn done(job: &mut Job<Running>, outcome: LineResult) {
    if let Some(token) = job.start_line() {
        job.finish_line(token, outcome);
    }
}

/// Begins a line, and keeps it.
fn kept(job: &mut Job<Running>) {
    if let Some(token) = job.start_line() {
        job.keep_line(token);
    }
}

/// Gives the line that was kept its result.
fn taken(job: &mut Job<Running>) {
    if let Some(token) = job.take_line() {
        job.finish_line(token, LineResult::Succeeded);
    }
}

/// What is asked of its lines.
fn asked_lines(job: Job<Running>, word: &str) -> Job<Running> {
    let mut job = job;
    match word {
        "ok" => done(&mut job, LineResult::Succeeded),
        "bad" => done(&mut job, LineResult::Failed(Code::NoSuchKey)),
        "keep" => kept(&mut job),
        "take" => taken(&mut job),
        _ => {}
    }
    job
}

fn asked_running(job: Job<Running>, word: &str) -> AnyJob {
    match word {
        "pause" => match job.pause() {
            Ok(job) => AnyJob::Running(job),
            Err((job, _)) => AnyJob::Running(job),
        },
        "rest" => match job.paused() {
            Ok(job) => AnyJob::Running(job),
            Err((job, _)) => AnyJob::Running(job),
        },
        "activate" => match job.resume() {
            Ok(job) => AnyJob::Running(job),
            Err((job, _)) => AnyJob::Running(job),
        },
        "over" => match job.over() {
            Ok(job) => AnyJob::Stopping(job),
            Err((job, _)) => AnyJob::Running(job),
        },
        "complete" => match job.complete() {
            Ok(job) => AnyJob::Ended(job),
            Err((job, _)) => AnyJob::Running(job),
        },
        "cancel" => AnyJob::Stopping(job.cancel()),
        _ => AnyJob::Running(asked_lines(job, word)),
    }
}

fn asked_stopping(job: Job<Stopping>, word: &str) -> AnyJob {
    match word {
        "end" => AnyJob::Ended(job.end()),
        _ => AnyJob::Stopping(job),
    }
}

/// The job behind what the word asks of it; `count` is the number of lines that its manifest has.
pub fn asked(alloc: Global, job: AnyJob, count: u32, word: &str) -> AnyJob {
    match job {
        AnyJob::New(job) => asked_new(alloc, job, count, word),
        AnyJob::Prepared(job) => asked_prepared(job, word),
        AnyJob::Running(job) => asked_running(job, word),
        AnyJob::Stopping(job) => asked_stopping(job, word),
        AnyJob::Ended(job) => AnyJob::Ended(job),
    }
}
