//! The text of what a turn of the copier came to.

ghost use Rattle.std.specs.Prelude.{◌≡◌, IfOk, string_bytes, codes};
ghost use Rattle.serde_json.specs.Data.{no_members, member, string, object};
ghost use Rattle.serde_json.specs.View.{view};
ghost use Rattle.serde_json.specs.Written.{compact_text};
ghost use Rattle.s3r_desk.specs.declared.copy_outcome.CopyOutcome.TheVariants.{Settled};
ghost use Rattle.s3r_api.specs.Copying.{reason_word, word_members, number_members, missed_data, copy_data};

use s3r_desk::CopyOutcome;
use s3r_names::{Outcome, Reason};
use s3r_queue::MOST_ATTEMPTS;
use serde_json::{Value, json};
use std::alloc::{AllocError, Global};

/// Why an effect wrote nothing, by the reason's own name.
fn reason_word(reason: Reason) -> &'static str
    ensures { result.now ≡ reason_word reason }
{
    match reason {
        Reason::NoSuchDestination => "NoSuchDestination",
        Reason::DestinationSuspended => "DestinationSuspended",
        Reason::VersionRemoved => "VersionRemoved",
        Reason::NoSuchVersion => "NoSuchVersion",
        Reason::DestinationNotLocked => "DestinationNotLocked",
    }
}

fn idle_value(alloc: Global) -> Result<Value, AllocError>
    ensures { IfOk result (λ value. view value ≡ object (word_members (codes "Idle") no_members)) }
{
    json!(in alloc; {"Copy": "Idle"})
}

fn applied_value(alloc: Global, number: u64) -> Result<Value, AllocError>
    ensures { IfOk result (λ value. view value ≡ object (word_members (codes "Applied") (number_members number no_members))) }
{
    json!(in alloc; {"Copy": "Applied", "Number": number})
}

fn refused_value(alloc: Global, number: u64, reason: &str) -> Result<Value, AllocError>
    ensures { IfOk result (λ value. view value ≡ object (word_members (codes "Refused")
        (number_members number (member (codes "Reason") (string reason.now) no_members)))) }
{
    json!(in alloc; {"Copy": "Refused", "Number": number, "Reason": reason})
}

/// A task whose receiver failed.
fn missed_value(alloc: Global, word: &str, number: u64, attempts: u32) -> Result<Value, AllocError>
    ensures { IfOk result (λ value. view value ≡ missed_data word.now number attempts) }
{
    json!(in alloc; {"Attempts": attempts, "Copy": word, "Number": number})
}

fn settled_value(alloc: Global, number: u64, outcome: Outcome) -> Result<Value, AllocError>
    ensures { IfOk result (λ value. view value ≡ copy_data (Settled number outcome)) }
{
    match outcome {
        Outcome::Applied => applied_value(alloc, number),
        Outcome::Refused(reason) => refused_value(alloc, number, reason_word(reason)),
    }
}

fn copy_value(alloc: Global, outcome: CopyOutcome) -> Result<Value, AllocError>
    ensures { IfOk result (λ value. view value ≡ copy_data outcome) }
{
    match outcome {
        CopyOutcome::Idle => idle_value(alloc),
        CopyOutcome::Settled { number, outcome } => settled_value(alloc, number, outcome),
        CopyOutcome::Retried { number, attempts } => {
            missed_value(alloc, "Retried", number, attempts)
        }
        CopyOutcome::GaveUp { number } => missed_value(alloc, "GaveUp", number, MOST_ATTEMPTS),
    }
}

/// The compact JSON text of what a turn of the copier came to. A task is given up after the most attempts.
#[tactic(auto, using(crate::proofs::CopyFloats::no_float))]
pub fn copy_text(alloc: Global, outcome: CopyOutcome) -> Result<String, AllocError>
    ensures { IfOk result (λ text. string_bytes text ≡ compact_text (copy_data outcome)) }
{
    copy_value(alloc, outcome)?.to_string(alloc)
}
