//! The bytes of answers. A cell of flags is `head`, `last`, both or `-`.

use crate::escape::{escaped, unescaped};
use crate::row::{RowFault, first_cell, first_word};
use http::StatusCode;
use s3r_api::{Problem, answer_bytes, problem_bytes};
use s3r_desk::{Answer, DeskFault, ObjectMetadata, Refusal};
use s3r_http::{Field, print_response};
use s3r_names::{Bytes, ClassName, Status, Text, VersionId};
use std::alloc::{AllocError, Global};

fn says_head(flags: &str) -> bool {
    flags.starts_with("head")
}

fn says_last(flags: &str) -> bool {
    flags.ends_with("last")
}

fn status_of(cell: &str) -> Result<StatusCode, RowFault> {
    StatusCode::from_u16(cell.parse::<u16>()?).map_err(|_| RowFault::NoRow)
}

fn field_of(alloc: Global, cell: &str) -> Result<Field, AllocError> {
    let (name, value) = cell.split_once(": ").unwrap_or((cell, ""));
    let name = Text::from_str(alloc, name)?;
    let value = Bytes::from_slice(alloc, value.as_bytes())?;
    Ok(Field { name, value })
}

/// `response | STATUS | FLAGS | LINE | BODY`: an answer with one line of its own.
pub fn response(alloc: Global, cells: &str) -> Result<String, RowFault> {
    let (status, cells) = first_cell(cells);
    let (flags, cells) = first_cell(cells);
    let (line, body) = first_cell(cells);
    let status = status_of(status)?;
    let body = unescaped(alloc, body)?;
    let fields = [field_of(alloc, line)?];
    let (head, last) = (says_head(flags), says_last(flags));
    let bytes = print_response(alloc, status, &fields, &body, head, last)?;
    Ok(escaped(alloc, &bytes)?)
}

/// The answer to what is no request of the desk.
pub fn problem_text(
    alloc: Global,
    problem: Problem,
    head: bool,
    last: bool,
) -> Result<String, AllocError> {
    let bytes = problem_bytes(alloc, problem, head, last)?;
    escaped(alloc, &bytes)
}

/// The answer of the desk.
pub fn answer_text(
    alloc: Global,
    flags: &str,
    answer: Result<Answer, DeskFault>,
) -> Result<String, RowFault> {
    let bytes = answer_bytes(alloc, &answer, says_head(flags), says_last(flags));
    drop(answer);
    Ok(escaped(alloc, &bytes?)?)
}

/// The id of a region's digit and an index.
pub fn id_of(cell: &str) -> Result<VersionId, RowFault> {
    let (region, index) = first_word(cell);
    Ok(VersionId {
        region: region.parse::<u8>()?,
        index: index.parse::<u64>()?,
    })
}

/// `done | FLAGS`
pub fn done(alloc: Global, flags: &str) -> Result<String, RowFault> {
    answer_text(alloc, flags, Ok(Answer::Done))
}

/// `written | FLAGS | REGION INDEX`
pub fn written(alloc: Global, cells: &str) -> Result<String, RowFault> {
    let (flags, id) = first_cell(cells);
    let id = id_of(id)?;
    answer_text(alloc, flags, Ok(Answer::Written(id)))
}

/// A status by its name.
pub fn status_named(name: &str) -> Result<Status, RowFault> {
    match name {
        "NoTask" => Ok(Status::NoTask),
        "Pending" => Ok(Status::Pending),
        "Completed" => Ok(Status::Completed),
        "Failed" => Ok(Status::Failed),
        "Replica" => Ok(Status::Replica),
        _ => Err(RowFault::NoRow),
    }
}

/// What is told of a version, by its cells.
fn object_of(
    alloc: Global,
    id: &str,
    class: &str,
    lock: &str,
    status: &str,
    length: &str,
) -> Result<ObjectMetadata, RowFault> {
    let id = id_of(id)?;
    let status = status_named(status)?;
    let length = length.parse::<u32>()?;
    let class = ClassName::read(alloc, class.as_bytes())?;
    Ok(ObjectMetadata {
        id,
        class,
        status,
        locked: lock != "none",
        hold: lock == "ON",
        length,
    })
}

/// `object | FLAGS | REGION INDEX | CLASS | LOCK | STATUS | LENGTH | BODY`: a version of a bucket whose Object Lock is
/// `none`, or which has it, with a hold that is `OFF` or `ON`.
pub fn object(alloc: Global, cells: &str) -> Result<String, RowFault> {
    let (flags, cells) = first_cell(cells);
    let (id, cells) = first_cell(cells);
    let (class, cells) = first_cell(cells);
    let (lock, cells) = first_cell(cells);
    let (status, cells) = first_cell(cells);
    let (length, body) = first_cell(cells);
    let object = object_of(alloc, id, class, lock, status, length)?;
    let body = Bytes::from_vec(unescaped(alloc, body)?);
    answer_text(alloc, flags, Ok(Answer::Object { object, body }))
}

fn refusal_named(name: &str) -> Option<Refusal> {
    match name {
        "NoSuchBucket" => Some(Refusal::NoSuchBucket),
        "BucketAlreadyExists" => Some(Refusal::BucketAlreadyExists),
        "BucketNotEmpty" => Some(Refusal::BucketNotEmpty),
        "NoSuchKey" => Some(Refusal::NoSuchKey),
        "NoSuchVersion" => Some(Refusal::NoSuchVersion),
        "MethodNotAllowed" => Some(Refusal::MethodNotAllowed),
        "AccessDenied" => Some(Refusal::AccessDenied),
        "InvalidBucketState" => Some(Refusal::InvalidBucketState),
        "NoReplication" => Some(Refusal::NoReplication),
        "LockNeeded" => Some(Refusal::LockNeeded),
        "TooManyBuckets" => Some(Refusal::TooManyBuckets),
        "InvalidLocation" => Some(Refusal::InvalidLocation),
        "InvalidArgument" => Some(Refusal::InvalidArgument),
        "NoSuchJob" => Some(Refusal::NoSuchJob),
        "TooManyJobs" => Some(Refusal::TooManyJobs),
        _ => None,
    }
}

/// `refusal | FLAGS | NAME`
pub fn refusal(alloc: Global, cells: &str) -> Result<String, RowFault> {
    let (flags, name) = first_cell(cells);
    match refusal_named(name) {
        Some(refusal) => answer_text(alloc, flags, Ok(Answer::Refused(refusal))),
        None => Err(RowFault::NoRow),
    }
}

// The pair FROM TO, with the numbers SENT ANSWERED SETTLED RECEIVED.
fn pair_of(numbers: &str) -> Result<DeskFault, RowFault> {
    let (from, numbers) = first_word(numbers);
    let (to, numbers) = first_word(numbers);
    let (sent, numbers) = first_word(numbers);
    let (answered, numbers) = first_word(numbers);
    let (settled, received) = first_word(numbers);
    Ok(DeskFault::Disagree {
        from: from.parse::<u32>()?,
        to: to.parse::<u32>()?,
        sent: sent.parse::<u64>()?,
        answered: answered.parse::<u64>()?,
        settled: settled.parse::<u64>()?,
        received: received.parse::<u64>()?,
    })
}

fn fault_of(cell: &str) -> Result<DeskFault, RowFault> {
    let (name, numbers) = first_word(cell);
    let (region, offset) = first_word(numbers);
    match name {
        "Volume" => Ok(DeskFault::Volume(region.parse::<u32>()?)),
        "Full" => Ok(DeskFault::Full(region.parse::<u32>()?)),
        "Damaged" => Ok(DeskFault::Damaged {
            v: region.parse::<u32>()?,
            offset: offset.parse::<u64>()?,
        }),
        "Disagree" => pair_of(numbers),
        "OutOfMemory" => Ok(DeskFault::OutOfMemory),
        _ => Err(RowFault::NoRow),
    }
}

/// `fault | FLAGS | NAME REGION OFFSET` or `fault | FLAGS | Disagree FROM TO SENT ANSWERED SETTLED RECEIVED`, with as many
/// numbers as the fault has.
pub fn fault(alloc: Global, cells: &str) -> Result<String, RowFault> {
    let (flags, fault) = first_cell(cells);
    let fault = fault_of(fault)?;
    answer_text(alloc, flags, Err(fault))
}
