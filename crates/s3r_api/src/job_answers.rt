//! The texts of what is answered about jobs, and of rounds of work.

ghost use Rattle.std.specs.Prelude.{◌≡◌, IfOk, string_bytes, codes};
ghost use Rattle.serde_json.specs.Data.{object};
ghost use Rattle.serde_json.specs.View.{view};
ghost use Rattle.serde_json.specs.Written.{compact_text};
ghost use Rattle.s3r_api.specs.JobAnswers.{made_with, made_data, set_with, set_data, moved_with, moved_data, step_members, state_step, line_step, step_data, work_data};

use crate::ids::id_text;
use s3r_desk::{JobOutcome, WorkSummary};
use s3r_jobs::JobState;
use s3r_names::VersionId;
use serde_json::{Value, json};
use std::alloc::{AllocError, Global};

fn made_value(alloc: Global, id: &str) -> Result<Value, AllocError>
    ensures { IfOk result (λ value. view value ≡ made_with id.now) }
{
    json!(in alloc; {"JobId": id})
}

/// The compact JSON text of a job that was made.
pub fn made_text(alloc: Global, id: VersionId) -> Result<String, AllocError>
    ensures { IfOk result (λ text. string_bytes text ≡ compact_text (made_data id)) }
{
    let id = id_text(alloc, id)?;
    made_value(alloc, id.as_str())?.to_string(alloc)
}

fn set_value(alloc: Global, id: &str, priority: u32) -> Result<Value, AllocError>
    ensures { IfOk result (λ value. view value ≡ set_with id.now priority) }
{
    json!(in alloc; {"JobId": id, "Priority": priority})
}

/// The compact JSON text of a job's new priority.
pub fn set_text(alloc: Global, id: VersionId, priority: u32) -> Result<String, AllocError>
    ensures { IfOk result (λ text. string_bytes text ≡ compact_text (set_data id priority)) }
{
    let id = id_text(alloc, id)?;
    set_value(alloc, id.as_str(), priority)?.to_string(alloc)
}

fn moved_value(alloc: Global, id: &str, status: &str) -> Result<Value, AllocError>
    ensures { IfOk result (λ value. view value ≡ moved_with id.now status.now) }
{
    json!(in alloc; {"JobId": id, "Status": status})
}

/// The compact JSON text of the state that a job came to.
pub fn moved_text(alloc: Global, id: VersionId, state: JobState) -> Result<String, AllocError>
    ensures { IfOk result (λ text. string_bytes text ≡ compact_text (moved_data id state)) }
{
    let id = id_text(alloc, id)?;
    moved_value(alloc, id.as_str(), state.as_str())?.to_string(alloc)
}

fn idle_value(alloc: Global) -> Result<Value, AllocError>
    ensures { IfOk result (λ value. view value ≡ object (step_members (codes "Idle"))) }
{
    json!(in alloc; {"Step": "Idle"})
}

/// A job that came to a state.
fn state_value(alloc: Global, id: &str, state: &str) -> Result<Value, AllocError>
    ensures { IfOk result (λ value. view value ≡ state_step id.now state.now) }
{
    json!(in alloc; {"Job": id, "Step": state})
}

/// A job that did a line.
fn line_value(alloc: Global, id: &str, line: u32) -> Result<Value, AllocError>
    ensures { IfOk result (λ value. view value ≡ line_step id.now line) }
{
    json!(in alloc; {"Job": id, "Line": line, "Step": "Line"})
}

fn step_value(alloc: Global, outcome: JobOutcome) -> Result<Value, AllocError>
    ensures { IfOk result (λ value. view value ≡ step_data outcome) }
{
    match outcome {
        JobOutcome::Idle => idle_value(alloc),
        JobOutcome::Moved { job, state } | JobOutcome::Ended { job, state } => {
            state_value(alloc, id_text(alloc, job)?.as_str(), state.as_str())
        }
        JobOutcome::Lined { job, line } => line_value(alloc, id_text(alloc, job)?.as_str(), line),
    }
}

/// The compact JSON text of what a turn of a region's jobs came to.
#[tactic(auto, using(crate::proofs::JobFloats::no_float))]
pub fn step_text(alloc: Global, outcome: JobOutcome) -> Result<String, AllocError>
    ensures { IfOk result (λ text. string_bytes text ≡ compact_text (step_data outcome)) }
{
    step_value(alloc, outcome)?.to_string(alloc)
}

fn work_value(alloc: Global, summary: WorkSummary) -> Result<Value, AllocError>
    ensures { IfOk result (λ value. view value ≡ work_data summary) }
{
    json!(in alloc; {
        "Applied": summary.applied,
        "Ended": summary.ended,
        "GaveUp": summary.gave_up,
        "Lines": summary.lines,
        "Moves": summary.moves,
        "Refused": summary.refused,
        "Retried": summary.retried,
        "Rounds": summary.rounds
    })
}

/// The compact JSON text of what rounds of work came to.
pub fn work_text(alloc: Global, summary: WorkSummary) -> Result<String, AllocError>
    ensures { IfOk result (λ text. string_bytes text ≡ compact_text (work_data summary)) }
{
    work_value(alloc, summary)?.to_string(alloc)
}
