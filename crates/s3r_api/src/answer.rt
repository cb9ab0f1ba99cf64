//! Answers as bytes.

ghost use Rattle.std.specs.Prelude.{◌≡◌, [], ◌∷◌, ◌++◌, Ok, IfOk, string_bytes};
ghost use Rattle.s3r_api.specs.Replication.{status_word};
ghost use Rattle.s3r_api.specs.Replies.{whole, version_field, marker_field, hold_word, hold_field, class_field, replication_field, hold_fields, replication_fields, class_fields, marker_fields, object_fields, gone_fields, json_field, json_reply, marked_status, marked_code, marked_fields, marker_reply, object_reply};
ghost use Rattle.s3r_api.specs.Texts.{reply_text, answer_text, problem_text, IdsAreSpelled, HeadBegins};

use crate::ids::id_bytes;
use crate::problem::Problem;
use crate::replication::status_word;
use crate::replies::{
    JsonReply, code_text, config_reply, copy_reply, fault_reply, hold_reply, listing_reply,
    made_reply, moved_reply, problem_reply, refusal_reply, set_reply, step_reply, tags_reply,
    versioning_reply, work_reply,
};
use http::StatusCode;
use s3r_desk::{Answer, DeskFault, ObjectMetadata};
use s3r_http::{Field, print_head, print_response};
use s3r_names::{Bytes, ClassName, Status, Text, VersionId};
use std::alloc::{AllocError, Global};

fn version_field(alloc: Global, id: VersionId) -> Result<Field, AllocError>
    ensures { IfOk result (λ field. field ≡ version_field id) }
{
    let name = Text::from_str(alloc, "x-amz-version-id")?;
    let value = id_bytes(alloc, id)?;
    Ok(Field { name, value })
}

fn marker_field(alloc: Global) -> Result<Field, AllocError>
    ensures { IfOk result (λ field. field ≡ marker_field) }
{
    let name = Text::from_str(alloc, "x-amz-delete-marker")?;
    let value = Bytes::from_slice(alloc, b"true")?;
    Ok(Field { name, value })
}

fn hold_word(hold: bool) -> &'static str
    ensures { result.now ≡ hold_word hold }
{
    if hold { "ON" } else { "OFF" }
}

fn hold_field(alloc: Global, hold: bool) -> Result<Field, AllocError>
    ensures { IfOk result (λ field. field ≡ hold_field hold) }
{
    let name = Text::from_str(alloc, "x-amz-object-lock-legal-hold")?;
    let value = Bytes::from_slice(alloc, hold_word(hold).as_bytes())?;
    Ok(Field { name, value })
}

fn class_field(alloc: Global, class: &ClassName) -> Result<Field, AllocError>
    ensures { IfOk result (λ field. field ≡ class_field class.now) }
{
    let name = Text::from_str(alloc, "x-amz-storage-class")?;
    let value = Bytes::from_slice(alloc, class.as_bytes())?;
    Ok(Field { name, value })
}

fn replication_field(alloc: Global, word: &str) -> Result<Field, AllocError>
    ensures { IfOk result (λ field. field ≡ replication_field word.now) }
{
    let name = Text::from_str(alloc, "x-amz-replication-status")?;
    let value = Bytes::from_slice(alloc, word.as_bytes())?;
    Ok(Field { name, value })
}

fn json_field(alloc: Global) -> Result<Field, AllocError>
    ensures { IfOk result (λ field. field ≡ json_field) }
{
    let name = Text::from_str(alloc, "Content-Type")?;
    let value = Bytes::from_slice(alloc, b"application/json")?;
    Ok(Field { name, value })
}

/// A hold is told under Object Lock alone.
fn hold_fields(alloc: Global, locked: bool, hold: bool) -> Result<Vec<Field>, AllocError>
    ensures { IfOk result (λ fields. fields.items ≡ hold_fields locked hold) }
{
    let mut fields = Vec::new(alloc);
    if locked {
        fields.push(hold_field(alloc, hold)?)?;
    }
    Ok(fields)
}

/// How far the replication is, where that has a word.
fn with_replication(
    alloc: Global,
    mut fields: Vec<Field>,
    status: Status,
) -> Result<Vec<Field>, AllocError>
    ensures { IfOk result (λ v. v.items ≡ fields.items ++ replication_fields (status_word status)) }
{
    if let Some(word) = status_word(status) {
        fields.push(replication_field(alloc, word)?)?;
    }
    Ok(fields)
}

/// A class is told where it isn't the usual one.
fn with_class(
    alloc: Global,
    mut fields: Vec<Field>,
    class: &ClassName,
) -> Result<Vec<Field>, AllocError>
    ensures { IfOk result (λ v. v.items ≡ fields.items ++ class_fields class.now) }
{
    if class.as_str() != "STANDARD" {
        fields.push(class_field(alloc, class)?)?;
    }
    Ok(fields)
}

fn marker_fields(alloc: Global, marker: bool) -> Result<Vec<Field>, AllocError>
    ensures { IfOk result (λ fields. fields.items ≡ marker_fields marker) }
{
    let mut fields = Vec::new(alloc);
    if marker {
        fields.push(marker_field(alloc)?)?;
    }
    Ok(fields)
}

fn with_version(
    alloc: Global,
    mut fields: Vec<Field>,
    id: VersionId,
) -> Result<Vec<Field>, AllocError>
    ensures { IfOk result (λ v. v.items ≡ fields.items ++ version_field id ∷ []) }
{
    fields.push(version_field(alloc, id)?)?;
    Ok(fields)
}

/// The lines of a version.
fn object_fields(alloc: Global, object: &ObjectMetadata) -> Result<Vec<Field>, AllocError>
    ensures { IfOk result (λ v. v.items ≡ object_fields object.now) }
{
    let fields = hold_fields(alloc, object.locked, object.hold)?;
    let fields = with_replication(alloc, fields, object.status)?;
    let fields = with_class(alloc, fields, &object.class)?;
    with_version(alloc, fields, object.id)
}

/// The lines of what is gone.
fn gone_fields(alloc: Global, id: Option<VersionId>, marker: bool) -> Result<Vec<Field>, AllocError>
    ensures { IfOk result (λ v. v.items ≡ gone_fields id marker) }
{
    match id {
        Some(id) => with_version(alloc, marker_fields(alloc, marker)?, id),
        None => Ok(Vec::new(alloc)),
    }
}

/// The answer with these lines and this body.
#[tactic(auto, using(crate::proofs::Whole::whole_text))]
fn whole_bytes(
    alloc: Global,
    status: StatusCode,
    fields: &[Field],
    body: &[u8],
    head: bool,
    last: bool,
) -> Result<Vec<u8>, AllocError>
    ensures { IfOk result (λ text. text.items ≡ reply_text (whole status fields.now body.now) head last) }
{
    print_response(alloc, status, fields, body, head, last)
}

/// The answer that a version was written.
fn written_bytes(
    alloc: Global,
    id: VersionId,
    head: bool,
    last: bool,
) -> Result<Vec<u8>, AllocError>
    ensures { IfOk result (λ text. text.items ≡ reply_text (whole 200 (version_field id ∷ []) []) head last) }
{
    let fields = [version_field(alloc, id)?];
    whole_bytes(alloc, StatusCode::OK, &fields, &[], head, last)
}

/// The answer that something is gone.
fn gone_bytes(
    alloc: Global,
    id: Option<VersionId>,
    marker: bool,
    head: bool,
    last: bool,
) -> Result<Vec<u8>, AllocError>
    ensures { IfOk result (λ text. text.items ≡ reply_text (whole 204 (gone_fields id marker) []) head last) }
{
    let fields = gone_fields(alloc, id, marker)?;
    whole_bytes(alloc, StatusCode::NO_CONTENT, &fields, &[], head, last)
}

/// The answer that shows a version. Its body isn't looked at where HEAD asked.
#[tactic(auto, unfolding(crate::specs::Texts::reply_text))]
fn object_bytes(
    alloc: Global,
    object: &ObjectMetadata,
    body: &Bytes,
    head: bool,
    last: bool,
) -> Result<Vec<u8>, AllocError>
    ensures { IfOk result (λ text. text.items ≡ reply_text (object_reply object.now body.now) head last) }
{
    let fields = object_fields(alloc, object)?;
    if head {
        let length = object.length as usize;
        return print_head(alloc, StatusCode::OK, &fields, length, last);
    }
    print_response(alloc, StatusCode::OK, &fields, body.as_slice(), false, last)
}

fn json_bytes(
    alloc: Global,
    reply: &JsonReply,
    head: bool,
    last: bool,
) -> Result<Vec<u8>, AllocError>
    ensures { IfOk result (λ text. text.items ≡ reply_text (json_reply reply.now.status (string_bytes reply.now.body)) head last) }
{
    let fields = [json_field(alloc)?];
    let body = reply.body.as_bytes();
    whole_bytes(alloc, reply.status, &fields, body, head, last)
}

fn marked_status(named: bool) -> StatusCode
    ensures { result ≡ marked_status named }
{
    if named {
        StatusCode::METHOD_NOT_ALLOWED
    } else {
        StatusCode::NOT_FOUND
    }
}

fn marked_code(named: bool) -> &'static str
    ensures { result.now ≡ marked_code named }
{
    if named {
        "MethodNotAllowed"
    } else {
        "NoSuchKey"
    }
}

/// The lines of a marker that stands in place of a version.
fn marked_fields(alloc: Global, id: VersionId) -> Result<Vec<Field>, AllocError>
    ensures { IfOk result (λ v. v.items ≡ marked_fields id) }
{
    let mut fields = Vec::new(alloc);
    fields.push(json_field(alloc)?)?;
    fields.push(marker_field(alloc)?)?;
    with_version(alloc, fields, id)
}

/// The answer that a marker stands in place of a version.
fn marker_bytes(
    alloc: Global,
    id: VersionId,
    named: bool,
    head: bool,
    last: bool,
) -> Result<Vec<u8>, AllocError>
    ensures { IfOk result (λ text. text.items ≡ reply_text (marker_reply id named) head last) }
{
    let fields = marked_fields(alloc, id)?;
    let body = code_text(alloc, marked_code(named))?;
    let status = marked_status(named);
    whole_bytes(alloc, status, &fields, body.as_bytes(), head, last)
}

/// What the desk answers.
fn told_bytes(alloc: Global, answer: &Answer, head: bool, last: bool) -> Result<Vec<u8>, AllocError>
    ensures { IfOk result (λ text. text.items ≡ answer_text (Ok answer.now) head last) }
{
    match answer {
        Answer::Done => whole_bytes(alloc, StatusCode::OK, &[], &[], head, last),
        Answer::Written(id) => written_bytes(alloc, *id, head, last),
        Answer::Gone { id, marker } => gone_bytes(alloc, *id, *marker, head, last),
        Answer::Object { object, body } => object_bytes(alloc, object, body, head, last),
        Answer::MarkerThere { id, named } => marker_bytes(alloc, *id, *named, head, last),
        Answer::TagSet(tags) => json_bytes(alloc, &tags_reply(alloc, tags)?, head, last),
        Answer::Hold(hold) => json_bytes(alloc, &hold_reply(alloc, *hold)?, head, last),
        Answer::Versioning(enabled) => {
            json_bytes(alloc, &versioning_reply(alloc, *enabled)?, head, last)
        }
        Answer::Configuration(config) => json_bytes(
            alloc,
            &config_reply(alloc, config)?,
            head,
            last,
        ),
        Answer::Listing { listing, statuses } => {
            json_bytes(alloc, &listing_reply(alloc, listing, statuses)?, head, last)
        }
        Answer::Copied(outcome) => json_bytes(alloc, &copy_reply(alloc, *outcome)?, head, last),
        Answer::JobMade(id) => json_bytes(alloc, &made_reply(alloc, *id)?, head, last),
        Answer::JobSet { id, priority } => {
            json_bytes(alloc, &set_reply(alloc, *id, *priority)?, head, last)
        }
        Answer::JobMoved { id, state } => {
            json_bytes(alloc, &moved_reply(alloc, *id, *state)?, head, last)
        }
        Answer::JobStep(outcome) => json_bytes(alloc, &step_reply(alloc, *outcome)?, head, last),
        Answer::Worked(summary) => json_bytes(alloc, &work_reply(alloc, *summary)?, head, last),
        Answer::Refused(refusal) => json_bytes(alloc, &refusal_reply(alloc, *refusal)?, head, last),
    }
}

/// The answer to a request that the desk was asked.
pub fn answer_bytes(
    alloc: Global,
    answer: &Result<Answer, DeskFault>,
    head: bool,
    last: bool,
) -> Result<Vec<u8>, AllocError>
    ensures { IfOk result (λ text. text.items ≡ answer_text answer.now head last) }
{
    match answer {
        Ok(answer) => told_bytes(alloc, answer, head, last),
        Err(fault) => json_bytes(alloc, &fault_reply(alloc, *fault)?, head, last),
    }
}

/// The answer to a request that was none of the desk's.
pub fn problem_bytes(
    alloc: Global,
    problem: Problem,
    head: bool,
    last: bool,
) -> Result<Vec<u8>, AllocError>
    ensures { IfOk result (λ text. text.items ≡ problem_text problem head last) }
{
    json_bytes(alloc, &problem_reply(alloc, problem)?, head, last)
}

/// The text of a version's id is the one that ids are read by.
pub fn ids_are_spelled()
    ensures { IdsAreSpelled }
{}

/// A version's answer to GET is the one to HEAD, and the body behind it.
pub fn head_begins()
    ensures { HeadBegins }
{}
