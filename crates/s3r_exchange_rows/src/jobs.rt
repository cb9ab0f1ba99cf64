//! The bytes of what is answered about jobs.

use crate::answers::{answer_text, id_of};
use crate::row::{RowFault, first_cell};
use s3r_desk::{Answer, JobOutcome, Refusal, WorkSummary};
use s3r_jobs::{JobState, Wanted};
use std::alloc::Global;

fn state_named(name: &str) -> Result<JobState, RowFault> {
    match name {
        "New" => Ok(JobState::New),
        "Preparing" => Ok(JobState::Preparing),
        "Suspended" => Ok(JobState::Suspended),
        "Ready" => Ok(JobState::Ready),
        "Active" => Ok(JobState::Active),
        "Pausing" => Ok(JobState::Pausing),
        "Paused" => Ok(JobState::Paused),
        "Cancelling" => Ok(JobState::Cancelling),
        "Failing" => Ok(JobState::Failing),
        "Complete" => Ok(JobState::Complete),
        "Cancelled" => Ok(JobState::Cancelled),
        "Failed" => Ok(JobState::Failed),
        _ => Err(RowFault::NoRow),
    }
}

fn wanted_named(name: &str) -> Result<Wanted, RowFault> {
    match name {
        "Prepare" => Ok(Wanted::Prepare),
        "Line" => Ok(Wanted::Line),
        "Finish" => Ok(Wanted::Finish),
        "Priority" => Ok(Wanted::Priority),
        state => Ok(Wanted::State(state_named(state)?)),
    }
}

/// `made | FLAGS | REGION INDEX`: a job was made.
pub fn made(alloc: Global, cells: &str) -> Result<String, RowFault> {
    let (flags, id) = first_cell(cells);
    let id = id_of(id)?;
    answer_text(alloc, flags, Ok(Answer::JobMade(id)))
}

/// `set | FLAGS | REGION INDEX | PRIORITY`: a job has this priority.
pub fn set(alloc: Global, cells: &str) -> Result<String, RowFault> {
    let (flags, cells) = first_cell(cells);
    let (id, priority) = first_cell(cells);
    let id = id_of(id)?;
    let priority = priority.parse::<u32>()?;
    answer_text(alloc, flags, Ok(Answer::JobSet { id, priority }))
}

/// `moved | FLAGS | REGION INDEX | STATE`: a job came to this state.
pub fn moved(alloc: Global, cells: &str) -> Result<String, RowFault> {
    let (flags, cells) = first_cell(cells);
    let (id, state) = first_cell(cells);
    let id = id_of(id)?;
    let state = state_named(state)?;
    answer_text(alloc, flags, Ok(Answer::JobMoved { id, state }))
}

fn outcome_of(cells: &str) -> Result<JobOutcome, RowFault> {
    if cells == "Idle" {
        return Ok(JobOutcome::Idle);
    }
    let (word, cells) = first_cell(cells);
    let (id, rest) = first_cell(cells);
    let job = id_of(id)?;
    match word {
        "Moved" => Ok(JobOutcome::Moved {
            job,
            state: state_named(rest)?,
        }),
        "Lined" => Ok(JobOutcome::Lined {
            job,
            line: rest.parse::<u32>()?,
        }),
        "Ended" => Ok(JobOutcome::Ended {
            job,
            state: state_named(rest)?,
        }),
        _ => Err(RowFault::NoRow),
    }
}

/// `step | FLAGS | Idle`, or `Moved | REGION INDEX | STATE`, `Lined | REGION INDEX | LINE` or `Ended | REGION INDEX | STATE`
/// behind the flags: what a turn of a region's jobs came to.
pub fn step(alloc: Global, cells: &str) -> Result<String, RowFault> {
    let (flags, outcome) = first_cell(cells);
    let outcome = outcome_of(outcome)?;
    answer_text(alloc, flags, Ok(Answer::JobStep(outcome)))
}

fn count_of(text: Option<&str>) -> Result<u64, RowFault> {
    Ok(text.unwrap_or("").parse::<u64>()?)
}

/// `worked | FLAGS | A E G L M R T N`: how many turns of N rounds came to what, in the order of the answer's members.
pub fn worked(alloc: Global, cells: &str) -> Result<String, RowFault> {
    let (flags, cells) = first_cell(cells);
    let mut counts = cells.split(' ');
    let summary = WorkSummary {
        applied: count_of(counts.next())?,
        ended: count_of(counts.next())?,
        gave_up: count_of(counts.next())?,
        lines: count_of(counts.next())?,
        moves: count_of(counts.next())?,
        refused: count_of(counts.next())?,
        retried: count_of(counts.next())?,
        rounds: count_of(counts.next())?,
    };
    answer_text(alloc, flags, Ok(Answer::Worked(summary)))
}

/// `no move | FLAGS | STATE | WANTED`: a job in this state can't do what was wanted.
pub fn no_move(alloc: Global, cells: &str) -> Result<String, RowFault> {
    let (flags, cells) = first_cell(cells);
    let (from, wanted) = first_cell(cells);
    let from = state_named(from)?;
    let wanted = wanted_named(wanted)?;
    let refusal = Refusal::JobStatus { from, wanted };
    answer_text(alloc, flags, Ok(Answer::Refused(refusal)))
}

/// `other job | FLAGS | REGION INDEX`: the token made this job, and asks for another one.
pub fn other_job(alloc: Global, cells: &str) -> Result<String, RowFault> {
    let (flags, id) = first_cell(cells);
    let id = id_of(id)?;
    answer_text(
        alloc,
        flags,
        Ok(Answer::Refused(Refusal::Idempotency { id })),
    )
}
