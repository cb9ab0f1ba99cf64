//! Which requests of the desk framed ones are.

use crate::escape::unescaped;
use crate::framing::{WHOLE, taken};
use crate::row::{RowFault, first_cell};
use s3r_desk::{ListPosition, Request};
use s3r_jobs::{JobSpec, Operation};
use s3r_names::VersionId;
use std::alloc::{AllocError, Global};

/// The index of a version, 0 where none is named.
fn index_of(version: &Option<VersionId>) -> u64 {
    match version {
        Some(id) => id.index,
        None => 0,
    }
}

fn place_text(alloc: Global, after: &Option<ListPosition>) -> Result<String, AllocError> {
    match after {
        Some(place) => format!(in alloc; "{} {}", place.key.as_str(), index_of(&place.id)),
        None => String::from_str(alloc, "-"),
    }
}

fn operation_text(alloc: Global, operation: &Operation) -> Result<String, AllocError> {
    match operation {
        Operation::Tagging(tags) => {
            let tags = tags.print_query(alloc)?;
            format!(in alloc; "tags '{}'", tags.as_str())
        }
        Operation::Hold(hold) => format!(in alloc; "hold {hold}"),
        Operation::Copy { .. } => String::from_str(alloc, "copies"),
        Operation::Replicate => String::from_str(alloc, "replicates"),
    }
}

/// What a job is asked to do, over the manifest at a key, and whether its records have versions.
fn spec_text(alloc: Global, spec: &JobSpec) -> Result<String, AllocError> {
    let operation = operation_text(alloc, &spec.operation)?;
    let token = spec.token.as_str();
    let priority = spec.priority;
    let confirm = spec.confirm;
    let bucket = spec.manifest.bucket.as_str();
    let key = spec.manifest.key.as_str();
    let id = index_of(&spec.manifest.version);
    let versions = spec.manifest.versions;
    format!(in alloc;
        "job '{token}' {priority} {confirm} {} {bucket} {key} {id} {versions}",
        operation.as_str()
    )
}

/// What is asked of jobs.
fn job_text(alloc: Global, request: &Request) -> Result<String, AllocError> {
    match request {
        Request::CreateJob { spec } => spec_text(alloc, spec),
        Request::SetJobPriority { id, priority } => {
            format!(in alloc; "priority of {} {priority}", index_of(id))
        }
        Request::SetJobStatus { id, ready } => {
            format!(in alloc; "status of {} {ready}", index_of(id))
        }
        Request::JobTurn { region } => format!(in alloc; "turn {region}"),
        Request::Work { rounds } => format!(in alloc; "work {rounds}"),
        Request::CreateBucket { .. }
        | Request::HeadBucket { .. }
        | Request::DeleteBucket { .. }
        | Request::PutVersioning { .. }
        | Request::GetVersioning { .. }
        | Request::PutReplication { .. }
        | Request::GetReplication { .. }
        | Request::DeleteReplication { .. }
        | Request::ListVersions { .. }
        | Request::PutObject { .. }
        | Request::GetObject { .. }
        | Request::DeleteObject { .. }
        | Request::PutTags { .. }
        | Request::GetTags { .. }
        | Request::PutHold { .. }
        | Request::GetHold { .. }
        | Request::Copy { .. } => String::from_str(alloc, "?"),
    }
}

fn bucket_text(alloc: Global, request: &Request) -> Result<String, AllocError> {
    match request {
        Request::CreateBucket {
            name,
            region,
            locked,
        } => format!(in alloc; "create {} {region:?} {locked}", name.as_str()),
        Request::HeadBucket { name } => format!(in alloc; "head {}", name.as_str()),
        Request::DeleteBucket { name } => format!(in alloc; "delete {}", name.as_str()),
        Request::PutVersioning { name, enabled } => {
            format!(in alloc; "versioning {} {enabled}", name.as_str())
        }
        Request::GetVersioning { name } => format!(in alloc; "versioning of {}", name.as_str()),
        Request::PutReplication { name, config } => {
            format!(in alloc; "replication {} {}", name.as_str(), config.as_slice().len())
        }
        Request::GetReplication { name } => format!(in alloc; "replication of {}", name.as_str()),
        Request::DeleteReplication { name } => {
            format!(in alloc; "no replication {}", name.as_str())
        }
        Request::ListVersions {
            prefix,
            after,
            limit,
            ..
        } => {
            let place = place_text(alloc, after)?;
            format!(in alloc; "list '{}' {} {limit}", prefix.as_str(), place.as_str())
        }
        other => job_text(alloc, other),
    }
}

/// A request of the desk in words. Versions and jobs are named by their index, 0 standing for none.
pub fn request_text(alloc: Global, request: &Request) -> Result<String, AllocError> {
    match request {
        Request::PutObject {
            key,
            tags,
            hold,
            class,
            ..
        } => {
            let tags = tags.print_query(alloc)?;
            let class = class.as_str();
            format!(in alloc; "put {} '{}' {hold} {class}", key.as_str(), tags.as_str())
        }
        Request::GetObject {
            key,
            version,
            head,
            ..
        } => {
            let word = if *head { "head of" } else { "get" };
            format!(in alloc; "{word} {} {}", key.as_str(), index_of(version))
        }
        Request::DeleteObject { key, version, .. } => {
            format!(in alloc; "delete {} {}", key.as_str(), index_of(version))
        }
        Request::PutTags {
            version,
            tags,
            gone,
            ..
        } => {
            let tags = tags.print_query(alloc)?;
            format!(in alloc; "tags {} '{}' {gone}", index_of(version), tags.as_str())
        }
        Request::GetTags { version, .. } => format!(in alloc; "tags of {}", index_of(version)),
        Request::PutHold { version, hold, .. } => {
            format!(in alloc; "hold {} {hold}", index_of(version))
        }
        Request::GetHold { version, .. } => format!(in alloc; "hold of {}", index_of(version)),
        Request::Copy { from, to } => format!(in alloc; "copy {from} {to}"),
        other => bucket_text(alloc, other),
    }
}

/// The bytes of a request with these lines and this body.
fn input_of(alloc: Global, lines: &str, body: &[u8]) -> Result<Vec<u8>, AllocError> {
    let length = body.len();
    let head = format!(in alloc; "{lines}Content-Length: {length}\r\n\r\n")?;
    let mut input = unescaped(alloc, head.as_str())?;
    input.extend_from_slice(body)?;
    Ok(input)
}

/// Which request these lines and this body are.
fn asked(alloc: Global, lines: &str, body: &str) -> Result<String, RowFault> {
    let body = unescaped(alloc, body)?;
    let input = input_of(alloc, lines, &body)?;
    taken(alloc, WHOLE, "ask", input)
}

/// `target | METHOD | TARGET`
pub fn target(alloc: Global, cells: &str) -> Result<String, RowFault> {
    let (method, target) = first_cell(cells);
    let lines = format!(in alloc; "{method} {target} HTTP/1.1\r\n")?;
    asked(alloc, lines.as_str(), "")
}

/// `lines | TARGET | LINE | ..`: a PUT with these header lines.
pub fn lines(alloc: Global, cells: &str) -> Result<String, RowFault> {
    let (target, fields) = first_cell(cells);
    let mut lines = format!(in alloc; "PUT {target} HTTP/1.1\r\n")?;
    for field in fields.split(" | ") {
        write!(lines, "{field}\r\n")?;
    }
    asked(alloc, lines.as_str(), "")
}

/// `body | TARGET | BODY` or `post | TARGET | BODY`: a PUT or a POST with this body.
pub fn body(alloc: Global, method: &str, cells: &str) -> Result<String, RowFault> {
    let (target, body) = first_cell(cells);
    let lines = format!(in alloc; "{method} {target} HTTP/1.1\r\n")?;
    asked(alloc, lines.as_str(), body)
}
