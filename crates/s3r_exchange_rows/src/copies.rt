//! The bytes of what turns of the copier came to.

use crate::answers::answer_text;
use crate::row::{RowFault, first_cell, first_word};
use s3r_desk::{Answer, CopyOutcome};
use s3r_names::{Outcome, Reason};
use std::alloc::Global;

fn reason_named(name: &str) -> Result<Reason, RowFault> {
    match name {
        "NoSuchDestination" => Ok(Reason::NoSuchDestination),
        "DestinationSuspended" => Ok(Reason::DestinationSuspended),
        "VersionRemoved" => Ok(Reason::VersionRemoved),
        "NoSuchVersion" => Ok(Reason::NoSuchVersion),
        "DestinationNotLocked" => Ok(Reason::DestinationNotLocked),
        _ => Err(RowFault::NoRow),
    }
}

/// What a task of this number came to. Behind the number stands a reason or a count of attempts, where it has one.
fn task_came_to(word: &str, number: u64, rest: &str) -> Result<CopyOutcome, RowFault> {
    match word {
        "Applied" => Ok(CopyOutcome::Settled {
            number,
            outcome: Outcome::Applied,
        }),
        "Refused" => Ok(CopyOutcome::Settled {
            number,
            outcome: Outcome::Refused(reason_named(rest)?),
        }),
        "Retried" => Ok(CopyOutcome::Retried {
            number,
            attempts: rest.parse::<u32>()?,
        }),
        "GaveUp" => Ok(CopyOutcome::GaveUp { number }),
        _ => Err(RowFault::NoRow),
    }
}

fn outcome_of(cell: &str) -> Result<CopyOutcome, RowFault> {
    if cell == "Idle" {
        return Ok(CopyOutcome::Idle);
    }
    let (word, cell) = first_word(cell);
    let (number, rest) = first_word(cell);
    task_came_to(word, number.parse::<u64>()?, rest)
}

/// `copied | FLAGS | Idle`, `Applied NUMBER`, `Refused NUMBER REASON`, `Retried NUMBER ATTEMPTS` or `GaveUp NUMBER`: what a
/// turn of the copier came to.
pub fn copied(alloc: Global, cells: &str) -> Result<String, RowFault> {
    let (flags, outcome) = first_cell(cells);
    let outcome = outcome_of(outcome)?;
    answer_text(alloc, flags, Ok(Answer::Copied(outcome)))
}
