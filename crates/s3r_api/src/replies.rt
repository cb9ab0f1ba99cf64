//! What refusals answer.

ghost use Rattle.std.specs.Prelude.{◌≡◌, IfOk, string_bytes, codes};
ghost use Rattle.serde_json.specs.Data.{no_members, member, string, number, unsigned};
ghost use Rattle.serde_json.specs.View.{view};
ghost use Rattle.serde_json.specs.Written.{compact_text};
ghost use Rattle.s3r_json.specs.Tags.{tags_data};
ghost use Rattle.s3r_rules_json.specs.Printing.{config_data};
ghost use Rattle.s3r_api.specs.Copying.{copy_data};
ghost use Rattle.s3r_api.specs.JobAnswers.{id_members, made_data, set_data, moved_data, step_data, work_data};
ghost use Rattle.s3r_api.specs.Listings.{listing_data};
ghost use Rattle.s3r_history.specs.declared.refusal.Refusal.{Refusal};
ghost use Rattle.s3r_api.specs.Replies.{json_reply, status_reply, hold_word, versioning_word, code_data, code_text, coded, pair_data, region_name, region_members, rule_members, kind_reply, job_members, refusal_reply, fault_reply, problem_reply};

use crate::copies::copy_text;
use crate::ids::id_text;
use crate::job_answers::{made_text, moved_text, set_text, step_text, work_text};
use crate::listings::listing_text;
use crate::problem::Problem;
use http::StatusCode;
use s3r_desk::{CopyOutcome, DeskFault, JobOutcome, Listing, Refusal, Statuses, WorkSummary};
use s3r_jobs::{JobState, Wanted};
use s3r_json::{status_text, tags_text};
use s3r_names::{TagSet, VersionId};
use s3r_rules::{Config, Kind};
use s3r_rules_json::print_config;
use serde_json::{Value, json};
use std::alloc::{AllocError, Global};

/// An answer whose body is JSON.
#[derive(Drop)]
pub struct JsonReply {
    pub status: StatusCode,
    pub body: String,
}

fn code_value(alloc: Global, code: &str) -> Result<Value, AllocError>
    ensures { IfOk result (λ value. view value ≡ code_data code.now no_members) }
{
    json!(in alloc; {"Code": code})
}

fn region_value(alloc: Global, code: &str, region: &str) -> Result<Value, AllocError>
    ensures { IfOk result (λ value. view value ≡ code_data code.now (member (codes "Region") (string region.now) no_members)) }
{
    json!(in alloc; {"Code": code, "Region": region})
}

fn place_value(alloc: Global, code: &str, region: &str, offset: u64) -> Result<Value, AllocError>
    ensures { IfOk result (λ value. view value ≡ code_data code.now (member (codes "Offset") (number (unsigned offset))
        (member (codes "Region") (string region.now) no_members))) }
{
    json!(in alloc; {"Code": code, "Offset": offset, "Region": region})
}

/// What two regions tell of the tasks from one to the other.
fn pair_value(
    alloc: Global,
    from: &str,
    to: &str,
    sent: u64,
    answered: u64,
    settled: u64,
    received: u64,
) -> Result<Value, AllocError>
    ensures { IfOk result (λ value. view value ≡ pair_data from.now to.now sent answered settled received) }
{
    json!(in alloc; {
        "Answered": answered,
        "Code": "Disagree",
        "From": from,
        "Received": received,
        "Sent": sent,
        "Settled": settled,
        "To": to
    })
}

/// What is wrong at a rule, 0 where it is at none.
fn rule_value(alloc: Global, code: &str, kind: &str, rule: u32) -> Result<Value, AllocError>
    ensures { IfOk result (λ value. view value ≡ code_data code.now (rule_members kind.now rule)) }
{
    json!(in alloc; {"Code": code, "Kind": kind, "Rule": rule})
}

pub fn code_text(alloc: Global, code: &str) -> Result<String, AllocError>
    ensures { IfOk result (λ text. string_bytes text ≡ code_text code.now no_members) }
{
    code_value(alloc, code)?.to_string(alloc)
}

fn region_text(alloc: Global, code: &str, region: u32) -> Result<String, AllocError>
    ensures { IfOk result (λ text. string_bytes text ≡ code_text code.now (region_members region)) }
{
    let region = format!(in alloc; "r{region}")?;
    region_value(alloc, code, region.as_str())?.to_string(alloc)
}

fn place_text(alloc: Global, code: &str, region: u32, offset: u64) -> Result<String, AllocError>
    ensures { IfOk result (λ text. string_bytes text ≡ code_text code.now (member (codes "Offset") (number (unsigned offset)) (region_members region))) }
{
    let region = format!(in alloc; "r{region}")?;
    place_value(alloc, code, region.as_str(), offset)?.to_string(alloc)
}

fn pair_text(
    alloc: Global,
    from: u32,
    to: u32,
    sent: u64,
    answered: u64,
    settled: u64,
    received: u64,
) -> Result<String, AllocError>
    ensures { IfOk result (λ text. string_bytes text ≡ compact_text (pair_data (region_name from) (region_name to) sent answered settled received)) }
{
    let from = format!(in alloc; "r{from}")?;
    let to = format!(in alloc; "r{to}")?;
    let value = pair_value(
        alloc,
        from.as_str(),
        to.as_str(),
        sent,
        answered,
        settled,
        received,
    )?;
    value.to_string(alloc)
}

fn rule_text(alloc: Global, code: &str, kind: &str, rule: u32) -> Result<String, AllocError>
    ensures { IfOk result (λ text. string_bytes text ≡ code_text code.now (rule_members kind.now rule)) }
{
    rule_value(alloc, code, kind, rule)?.to_string(alloc)
}

fn coded(alloc: Global, status: StatusCode, code: &str) -> Result<JsonReply, AllocError>
    ensures { IfOk result (λ reply. json_reply reply.status (string_bytes reply.body) ≡ coded status code.now) }
{
    let body = code_text(alloc, code)?;
    Ok(JsonReply { status, body })
}

/// A rule of a configuration is wrong so.
fn kind_reply(alloc: Global, rule: u32, kind: Kind) -> Result<JsonReply, AllocError>
    ensures { IfOk result (λ reply. json_reply reply.status (string_bytes reply.body) ≡ kind_reply rule kind) }
{
    Ok(JsonReply {
        status: StatusCode::BAD_REQUEST,
        body: rule_text(alloc, "InvalidRequest", kind.as_str(), rule)?,
    })
}

/// The state that a job is in, and what was wanted of it.
fn job_value(alloc: Global, from: &str, wanted: &str) -> Result<Value, AllocError>
    ensures { IfOk result (λ value. view value ≡ code_data (codes "JobStatusException") (job_members from.now wanted.now)) }
{
    json!(in alloc; {"Code": "JobStatusException", "From": from, "Wanted": wanted})
}

fn job_status_reply(alloc: Global, from: JobState, wanted: Wanted) -> Result<JsonReply, AllocError>
    ensures { IfOk result (λ reply. json_reply reply.status (string_bytes reply.body) ≡ refusal_reply (Refusal.JobStatus from wanted)) }
{
    Ok(JsonReply {
        status: StatusCode::BAD_REQUEST,
        body: job_value(alloc, from.as_str(), wanted.as_str())?.to_string(alloc)?,
    })
}

fn token_value(alloc: Global, id: &str) -> Result<Value, AllocError>
    ensures { IfOk result (λ value. view value ≡ code_data (codes "IdempotencyException") (id_members id.now no_members)) }
{
    json!(in alloc; {"Code": "IdempotencyException", "JobId": id})
}

/// The job that a token made.
fn idempotency_reply(alloc: Global, id: VersionId) -> Result<JsonReply, AllocError>
    ensures { IfOk result (λ reply. json_reply reply.status (string_bytes reply.body) ≡ refusal_reply (Refusal.Idempotency id)) }
{
    let id = id_text(alloc, id)?;
    Ok(JsonReply {
        status: StatusCode::BAD_REQUEST,
        body: token_value(alloc, id.as_str())?.to_string(alloc)?,
    })
}

pub fn refusal_reply(alloc: Global, refusal: Refusal) -> Result<JsonReply, AllocError>
    ensures { IfOk result (λ reply. json_reply reply.status (string_bytes reply.body) ≡ refusal_reply refusal) }
{
    match refusal {
        Refusal::NoSuchBucket => coded(alloc, StatusCode::NOT_FOUND, "NoSuchBucket"),
        Refusal::BucketAlreadyExists => coded(alloc, StatusCode::CONFLICT, "BucketAlreadyExists"),
        Refusal::BucketNotEmpty => coded(alloc, StatusCode::CONFLICT, "BucketNotEmpty"),
        Refusal::NoSuchVersion => coded(alloc, StatusCode::NOT_FOUND, "NoSuchVersion"),
        Refusal::MethodNotAllowed => {
            coded(alloc, StatusCode::METHOD_NOT_ALLOWED, "MethodNotAllowed")
        }
        Refusal::AccessDenied => coded(alloc, StatusCode::FORBIDDEN, "AccessDenied"),
        Refusal::InvalidBucketState => coded(alloc, StatusCode::CONFLICT, "InvalidBucketState"),
        Refusal::LockNeeded => Ok(JsonReply {
            status: StatusCode::BAD_REQUEST,
            body: rule_text(alloc, "InvalidRequest", "LockNeeded", 0)?,
        }),
        Refusal::NoReplication => coded(
            alloc,
            StatusCode::NOT_FOUND,
            "ReplicationConfigurationNotFoundError",
        ),
        Refusal::InvalidRequest { rule, kind } => kind_reply(alloc, rule, kind),
        // (no desk answers this one, nor the next two)
        Refusal::NoSuchRegion { .. } => {
            coded(alloc, StatusCode::BAD_REQUEST, "InvalidLocationConstraint")
        }
        Refusal::NotNext { .. } => coded(alloc, StatusCode::CONFLICT, "NotNext"),
        Refusal::NotFirst { .. } => coded(alloc, StatusCode::CONFLICT, "NotFirst"),
        Refusal::TooManyBuckets => coded(alloc, StatusCode::BAD_REQUEST, "TooManyBuckets"),
        Refusal::NoSuchKey => coded(alloc, StatusCode::NOT_FOUND, "NoSuchKey"),
        Refusal::InvalidLocation => {
            coded(alloc, StatusCode::BAD_REQUEST, "InvalidLocationConstraint")
        }
        Refusal::InvalidArgument => coded(alloc, StatusCode::BAD_REQUEST, "InvalidArgument"),
        Refusal::NoSuchJob => coded(alloc, StatusCode::NOT_FOUND, "NoSuchJob"),
        Refusal::TooManyJobs => coded(alloc, StatusCode::BAD_REQUEST, "TooManyJobs"),
        Refusal::JobStatus { from, wanted } => job_status_reply(alloc, from, wanted),
        Refusal::Idempotency { id } => idempotency_reply(alloc, id),
    }
}

pub fn tags_reply(alloc: Global, tags: &TagSet) -> Result<JsonReply, AllocError>
    ensures { IfOk result (λ reply. json_reply reply.status (string_bytes reply.body) ≡ json_reply 200 (compact_text (tags_data tags.now))) }
{
    Ok(JsonReply {
        status: StatusCode::OK,
        body: tags_text(alloc, tags)?,
    })
}

fn status_reply(alloc: Global, word: &str) -> Result<JsonReply, AllocError>
    ensures { IfOk result (λ reply. json_reply reply.status (string_bytes reply.body) ≡ status_reply word.now) }
{
    Ok(JsonReply {
        status: StatusCode::OK,
        body: status_text(alloc, word)?,
    })
}

pub fn config_reply(alloc: Global, config: &Config) -> Result<JsonReply, AllocError>
    ensures { IfOk result (λ reply. json_reply reply.status (string_bytes reply.body) ≡ json_reply 200 (compact_text (config_data config.now))) }
{
    Ok(JsonReply {
        status: StatusCode::OK,
        body: print_config(alloc, config)?,
    })
}

pub fn hold_reply(alloc: Global, hold: bool) -> Result<JsonReply, AllocError>
    ensures { IfOk result (λ reply. json_reply reply.status (string_bytes reply.body) ≡ status_reply (hold_word hold)) }
{
    if hold {
        status_reply(alloc, "ON")
    } else {
        status_reply(alloc, "OFF")
    }
}

pub fn versioning_reply(alloc: Global, enabled: bool) -> Result<JsonReply, AllocError>
    ensures { IfOk result (λ reply. json_reply reply.status (string_bytes reply.body) ≡ status_reply (versioning_word enabled)) }
{
    if enabled {
        status_reply(alloc, "Enabled")
    } else {
        status_reply(alloc, "Suspended")
    }
}

/// A page, and the statuses of its entries in order.
pub fn listing_reply(
    alloc: Global,
    listing: &Listing,
    statuses: &Statuses,
) -> Result<JsonReply, AllocError>
    ensures { IfOk result (λ reply. json_reply reply.status (string_bytes reply.body) ≡ json_reply 200
        (compact_text (listing_data listing.now statuses.now))) }
{
    Ok(JsonReply {
        status: StatusCode::OK,
        body: listing_text(alloc, listing, statuses)?,
    })
}

/// What a turn of the copier came to.
pub fn copy_reply(alloc: Global, outcome: CopyOutcome) -> Result<JsonReply, AllocError>
    ensures { IfOk result (λ reply. json_reply reply.status (string_bytes reply.body) ≡ json_reply 200 (compact_text (copy_data outcome))) }
{
    Ok(JsonReply {
        status: StatusCode::OK,
        body: copy_text(alloc, outcome)?,
    })
}

/// A job was made.
pub fn made_reply(alloc: Global, id: VersionId) -> Result<JsonReply, AllocError>
    ensures { IfOk result (λ reply. json_reply reply.status (string_bytes reply.body) ≡ json_reply 200 (compact_text (made_data id))) }
{
    Ok(JsonReply {
        status: StatusCode::OK,
        body: made_text(alloc, id)?,
    })
}

/// A job has this priority.
pub fn set_reply(alloc: Global, id: VersionId, priority: u32) -> Result<JsonReply, AllocError>
    ensures { IfOk result (λ reply. json_reply reply.status (string_bytes reply.body) ≡ json_reply 200 (compact_text (set_data id priority))) }
{
    Ok(JsonReply {
        status: StatusCode::OK,
        body: set_text(alloc, id, priority)?,
    })
}

/// A job came to this state.
pub fn moved_reply(alloc: Global, id: VersionId, state: JobState) -> Result<JsonReply, AllocError>
    ensures { IfOk result (λ reply. json_reply reply.status (string_bytes reply.body) ≡ json_reply 200 (compact_text (moved_data id state))) }
{
    Ok(JsonReply {
        status: StatusCode::OK,
        body: moved_text(alloc, id, state)?,
    })
}

/// What a turn of a region's jobs came to.
pub fn step_reply(alloc: Global, outcome: JobOutcome) -> Result<JsonReply, AllocError>
    ensures { IfOk result (λ reply. json_reply reply.status (string_bytes reply.body) ≡ json_reply 200 (compact_text (step_data outcome))) }
{
    Ok(JsonReply {
        status: StatusCode::OK,
        body: step_text(alloc, outcome)?,
    })
}

/// What rounds of work came to.
pub fn work_reply(alloc: Global, summary: WorkSummary) -> Result<JsonReply, AllocError>
    ensures { IfOk result (λ reply. json_reply reply.status (string_bytes reply.body) ≡ json_reply 200 (compact_text (work_data summary))) }
{
    Ok(JsonReply {
        status: StatusCode::OK,
        body: work_text(alloc, summary)?,
    })
}

pub fn fault_reply(alloc: Global, fault: DeskFault) -> Result<JsonReply, AllocError>
    ensures { IfOk result (λ reply. json_reply reply.status (string_bytes reply.body) ≡ fault_reply fault) }
{
    match fault {
        DeskFault::Volume(region) => Ok(JsonReply {
            status: StatusCode::SERVICE_UNAVAILABLE,
            body: region_text(alloc, "VolumeFault", region)?,
        }),
        DeskFault::Full(region) => Ok(JsonReply {
            status: StatusCode::INSUFFICIENT_STORAGE,
            body: region_text(alloc, "VolumeFull", region)?,
        }),
        DeskFault::Damaged { v, offset } => Ok(JsonReply {
            status: StatusCode::INTERNAL_SERVER_ERROR,
            body: place_text(alloc, "Damaged", v, offset)?,
        }),
        DeskFault::Disagree {
            from,
            to,
            sent,
            answered,
            settled,
            received,
        } => Ok(JsonReply {
            status: StatusCode::INTERNAL_SERVER_ERROR,
            body: pair_text(alloc, from, to, sent, answered, settled, received)?,
        }),
        DeskFault::OutOfMemory => coded(alloc, StatusCode::INTERNAL_SERVER_ERROR, "OutOfMemory"),
    }
}

pub fn problem_reply(alloc: Global, problem: Problem) -> Result<JsonReply, AllocError>
    ensures { IfOk result (λ reply. json_reply reply.status (string_bytes reply.body) ≡ problem_reply problem) }
{
    match problem {
        Problem::InvalidBucketName => coded(alloc, StatusCode::BAD_REQUEST, "InvalidBucketName"),
        Problem::KeyTooLong => coded(alloc, StatusCode::BAD_REQUEST, "KeyTooLongError"),
        Problem::InvalidKey => coded(alloc, StatusCode::BAD_REQUEST, "InvalidURI"),
        Problem::InvalidTag => coded(alloc, StatusCode::BAD_REQUEST, "InvalidTag"),
        Problem::InvalidVersionId => coded(alloc, StatusCode::BAD_REQUEST, "InvalidArgument"),
        Problem::InvalidStorageClass => coded(
            alloc,
            StatusCode::BAD_REQUEST,
            "InvalidStorageClass",
        ),
        Problem::InvalidQuery => coded(alloc, StatusCode::BAD_REQUEST, "InvalidArgument"),
        Problem::InvalidHold => coded(alloc, StatusCode::BAD_REQUEST, "InvalidArgument"),
        Problem::MalformedJson => coded(alloc, StatusCode::BAD_REQUEST, "MalformedJSON"),
        Problem::InvalidRequest { rule, kind } => kind_reply(alloc, rule, kind),
        Problem::ConfigurationTooLong => coded(alloc, StatusCode::BAD_REQUEST, "EntityTooLarge"),
        Problem::NoSuchRoute => coded(alloc, StatusCode::NOT_FOUND, "NoSuchRoute"),
        Problem::UnknownQuery => coded(alloc, StatusCode::NOT_IMPLEMENTED, "NotImplemented"),
        Problem::WrongMethod => coded(alloc, StatusCode::METHOD_NOT_ALLOWED, "MethodNotAllowed"),
        Problem::BadHead => coded(alloc, StatusCode::BAD_REQUEST, "BadHead"),
        Problem::HeadTooLong => coded(
            alloc,
            StatusCode::REQUEST_HEADER_FIELDS_TOO_LARGE,
            "HeadTooLong",
        ),
        Problem::BadLength => coded(alloc, StatusCode::BAD_REQUEST, "BadLength"),
        Problem::EntityTooLarge => coded(alloc, StatusCode::BAD_REQUEST, "EntityTooLarge"),
        Problem::NotImplemented => coded(alloc, StatusCode::NOT_IMPLEMENTED, "NotImplemented"),
        Problem::CutShort => coded(alloc, StatusCode::BAD_REQUEST, "CutShort"),
        Problem::OutOfMemory => coded(alloc, StatusCode::INTERNAL_SERVER_ERROR, "OutOfMemory"),
    }
}
