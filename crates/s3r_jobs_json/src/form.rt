//! The form of a job's body (S3 API Reference, CreateJob). What Amazon's clients send besides, as `AccountId`, is let pass
//! and not looked at.

ghost use Rattle.std.specs.Prelude.{◌≡◌};
ghost use Rattle.serde_json.specs.View.{view, items_view};
ghost use Rattle.serde_json.specs.Find.{as_number};
ghost use Rattle.s3r_jobs_json.specs.Faults.{Gives, GivesBy};
ghost use Rattle.s3r_jobs_json.specs.Form as form;

use crate::draft::{Draft, ManifestDraft, OperationDraft};
use crate::fault::JobFault;
use s3r_json::{has_only, list_at, only_at, optional_text_at, status_at, tags_at, text_at};
use s3r_names::{TagSet, Text};
use serde_json::Value;
use std::alloc::Global;

fn member_of<'a>(value: &'a Value, name: &str) -> Result<&'a Value, JobFault>
    ensures { GivesBy (λ v. view v.now) result (form.member_of name.now (view value.now)) }
{
    match value.get(name) {
        Some(member) => Ok(member),
        None => Err(JobFault::MalformedJson),
    }
}

fn text_of(alloc: Global, value: &Value, name: &str) -> Result<Text, JobFault>
    ensures { Gives result (form.text_of name.now (view value.now)) }
{
    match text_at(value, name) {
        Some(text) => Ok(Text::from_str(alloc, text)?),
        None => Err(JobFault::MalformedJson),
    }
}

fn number_of(value: &Value) -> Result<Option<u64>, JobFault>
    ensures { result ≡ form.number_of (as_number (view value.now)) }
{
    if let Some(number) = value.as_u64() {
        return Ok(Some(number));
    }
    match value.as_i64() {
        Some(_) => Ok(None),
        None => Err(JobFault::MalformedJson),
    }
}

fn priority_of(value: &Value) -> Result<Option<u64>, JobFault>
    ensures { result ≡ form.priority_of (view value.now) }
{
    match value.get("Priority") {
        Some(member) => number_of(member),
        None => Err(JobFault::MalformedJson),
    }
}

/// Whether a client has to confirm it, which it hasn't where nothing is said.
fn confirm_of(value: &Value) -> Result<bool, JobFault>
    ensures { result ≡ form.confirm_of (view value.now) }
{
    let Some(member) = value.get("ConfirmationRequired") else {
        return Ok(false);
    };
    match member.as_bool() {
        Some(flag) => Ok(flag),
        None => Err(JobFault::MalformedJson),
    }
}

fn is_disabled(report: &Value) -> bool
    ensures { result ≡ form.is_disabled (view report.now) }
{
    match only_at(report, "Enabled") {
        Some(flag) => matches!(flag.as_bool(), Some(false)),
        None => false,
    }
}

fn has_no_report(value: &Value) -> bool
    ensures { result ≡ form.has_no_report (view value.now) }
{
    match value.get("Report") {
        Some(report) => is_disabled(report),
        None => false,
    }
}

fn tagging_of(alloc: Global, value: &Value) -> Result<OperationDraft, JobFault>
    ensures { Gives result (form.tagging_of (view value.now)) }
{
    match tags_at(alloc, value)? {
        Some(tags) => Ok(OperationDraft::Tagging(TagSet::from_pairs(tags).ok())),
        None => Err(JobFault::MalformedJson),
    }
}

fn hold_of(value: &Value) -> Result<OperationDraft, JobFault>
    ensures { result ≡ form.hold_of (view value.now) }
{
    let Some(member) = only_at(value, "LegalHold") else {
        return Err(JobFault::MalformedJson);
    };
    match status_at(member, "ON", "OFF") {
        Some(hold) => Ok(OperationDraft::Hold(hold)),
        None => Err(JobFault::MalformedJson),
    }
}

/// An operation has one member.
fn operation_of(alloc: Global, value: &Value) -> Result<OperationDraft, JobFault>
    ensures { Gives result (form.operation_of (view value.now)) }
{
    if let Some(member) = only_at(value, "S3PutObjectTagging") {
        return tagging_of(alloc, member);
    }
    match only_at(value, "S3PutObjectLegalHold") {
        Some(member) => hold_of(member),
        None => Err(JobFault::MalformedJson),
    }
}

fn operation_at(alloc: Global, value: &Value) -> Result<OperationDraft, JobFault>
    ensures { Gives result (form.operation_at (view value.now)) }
{
    let member = member_of(value, "Operation")?;
    operation_of(alloc, member)
}

fn is_word(value: &Value, word: &str) -> bool
    ensures { result ≡ form.is_word word.now (view value.now) }
{
    match value.as_str() {
        Some(text) => text == word,
        None => false,
    }
}

fn are_keys(bucket: &Value, key: &Value) -> bool
    ensures { result ≡ form.are_keys (view bucket.now) (view key.now) }
{
    is_word(bucket, "Bucket") && is_word(key, "Key")
}

/// Whether a record has a version's id. None where the fields are others.
fn versions_in(fields: &[Value]) -> Option<bool>
    ensures { result ≡ form.versions_in (items_view fields.now) }
{
    match fields {
        [bucket, key] if are_keys(bucket, key) => Some(false),
        [bucket, key, id] if are_keys(bucket, key) && is_word(id, "VersionId") => Some(true),
        _ => None,
    }
}

fn has_format(value: &Value) -> bool
    ensures { result ≡ form.has_format (view value.now) }
{
    match text_at(value, "Format") {
        Some(format) => format == "S3BatchOperations_CSV_20180820",
        None => false,
    }
}

fn versions_of(value: &Value) -> Result<bool, JobFault>
    ensures { result ≡ form.versions_of (view value.now) }
{
    if !has_only(value, &["Format", "Fields"]) || !has_format(value) {
        return Err(JobFault::MalformedJson);
    }
    let Some(fields) = list_at(value, "Fields") else {
        return Err(JobFault::MalformedJson);
    };
    match versions_in(fields) {
        Some(versions) => Ok(versions),
        None => Err(JobFault::MalformedJson),
    }
}

fn versions_at(value: &Value) -> Result<bool, JobFault>
    ensures { Gives result (form.versions_at (view value.now)) }
{
    let member = member_of(value, "Spec")?;
    versions_of(member)
}

fn located(alloc: Global, versions: bool, value: &Value) -> Result<ManifestDraft, JobFault>
    ensures { Gives result (form.located versions (view value.now)) }
{
    if !has_only(value, &["ObjectArn", "ObjectVersionId", "ETag"]) {
        return Err(JobFault::MalformedJson);
    }
    let arn = text_of(alloc, value, "ObjectArn")?;
    let Some(version) = optional_text_at(value, "ObjectVersionId") else {
        return Err(JobFault::MalformedJson);
    };
    let version = match version {
        Some(text) => Some(Text::from_str(alloc, text)?),
        None => None,
    };
    Ok(ManifestDraft {
        versions,
        arn,
        version,
    })
}

fn manifest_of(alloc: Global, value: &Value) -> Result<ManifestDraft, JobFault>
    ensures { Gives result (form.manifest_of (view value.now)) }
{
    if !has_only(value, &["Spec", "Location"]) {
        return Err(JobFault::MalformedJson);
    }
    let versions = versions_at(value)?;
    let location = member_of(value, "Location")?;
    located(alloc, versions, location)
}

fn manifest_at(alloc: Global, value: &Value) -> Result<ManifestDraft, JobFault>
    ensures { Gives result (form.manifest_at (view value.now)) }
{
    let member = member_of(value, "Manifest")?;
    manifest_of(alloc, member)
}

fn members_of(alloc: Global, value: &Value) -> Result<Draft, JobFault>
    ensures { Gives result (form.members_of (view value.now)) }
{
    let priority = priority_of(value)?;
    let confirm = confirm_of(value)?;
    let token = text_of(alloc, value, "ClientRequestToken")?;
    let manifest = manifest_at(alloc, value)?;
    let operation = operation_at(alloc, value)?;
    Ok(Draft {
        token,
        priority,
        confirm,
        operation,
        manifest,
    })
}

/// A job as it is written. MalformedJson where the value isn't of a job's form.
#[tactic(auto, unfolding(crate::specs::Form::draft_of))]
pub fn draft_of(alloc: Global, value: &Value) -> Result<Draft, JobFault>
    ensures { Gives result (form.draft_of (view value.now)) }
{
    let names = [
        "ClientRequestToken",
        "Operation",
        "Priority",
        "Manifest",
        "Report",
        "ConfirmationRequired",
        "AccountId",
        "RoleArn",
        "Description",
        "Tags",
    ];
    if !has_only(value, &names) || !has_no_report(value) {
        return Err(JobFault::MalformedJson);
    }
    members_of(alloc, value)
}
