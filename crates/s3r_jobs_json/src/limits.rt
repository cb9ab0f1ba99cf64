//! What a job that is written so asks for, each member looked at in turn.

ghost use Rattle.std.specs.Prelude.{◌≡◌, ◌≤◌, IfOk, IsTrue};
ghost use Rattle.s3r_names.specs.Arn.{arn_of};
ghost use Rattle.s3r_names.specs.Bucket.{is_bucket_name};
ghost use Rattle.s3r_names.specs.Key.{is_key};
ghost use Rattle.s3r_jobs.specs.Rules.{is_token, IsOperation, OperationMeetsLimits, OptionIdMeetsLimits, IsManifest, IsJobSpec, SpecMeetsLimits};
ghost use Rattle.s3r_jobs_json.specs.Faults.{Gives};
ghost use Rattle.s3r_jobs_json.specs.Limits as limits;

use crate::draft::{Draft, ManifestDraft, OperationDraft};
use crate::fault::JobFault;
use s3r_jobs::{JobSpec, MOST_PRIORITY, ManifestSpec, Operation, is_token};
use s3r_names::{Arn, BucketName, Key, NameFault, Text, VersionId};
use s3r_routes::version_named;
use s3r_rules::Kind;
use std::alloc::Global;

fn operation_from(draft: &OperationDraft) -> Result<Operation, JobFault>
    ensures operation { Gives result (limits.operation_from draft.now) }
    ensures rules { IfOk result IsOperation }
    ensures limits { IfOk result OperationMeetsLimits }
{
    match draft {
        OperationDraft::Tagging(Some(tags)) => {
            // (it is a set)
            let _tags = tags.as_slice();
            Ok(Operation::Tagging(tags.clone()?))
        }
        OperationDraft::Tagging(None) => Err(JobFault::InvalidTag),
        OperationDraft::Hold(hold) => Ok(Operation::Hold(*hold)),
    }
}

fn token_from(token: &Text) -> Result<Text, JobFault>
    ensures token { Gives result (limits.token_from token.now) }
    ensures rules { IfOk result (λ token. IsTrue (is_token token)) }
{
    if !is_token(token.as_str()) {
        return Err(JobFault::InvalidRequest(Kind::Token));
    }
    Ok(token.clone()?)
}

fn priority_from(priority: Option<u64>) -> Result<u32, JobFault>
    ensures priority { result ≡ limits.priority_from priority }
    ensures rules { IfOk result (λ priority. priority ≤ 2147483647) }
{
    match priority {
        Some(priority) if priority <= u64::from(MOST_PRIORITY) => Ok(priority as u32),
        _ => Err(JobFault::InvalidRequest(Kind::Priority)),
    }
}

/// The object whose ARN the text is.
fn object_from(alloc: Global, text: &str) -> Result<(BucketName, Key), JobFault>
    ensures object { Gives result (limits.object_from (arn_of text.now)) }
    ensures rules { IfOk result (λ object. IsTrue (is_bucket_name object.0) × IsTrue (is_key object.1)) }
{
    match Arn::read(alloc, text) {
        Ok(Arn::Object(bucket, key)) => Ok((bucket, key)),
        Ok(Arn::Bucket(bucket)) => {
            drop(bucket);
            Err(JobFault::InvalidArn)
        }
        Err(NameFault::InvalidArn) => Err(JobFault::InvalidArn),
        Err(_) => Err(JobFault::OutOfMemory),
    }
}

fn version_from(version: &Option<Text>) -> Result<Option<VersionId>, JobFault>
    ensures version { result ≡ limits.version_from version.now }
    ensures rules { IfOk result OptionIdMeetsLimits }
{
    let Some(text) = version else {
        return Ok(None);
    };
    match version_named(text.as_bytes()) {
        Ok(id) => Ok(Some(id)),
        Err(_) => Err(JobFault::InvalidVersionId),
    }
}

fn manifest_from(alloc: Global, draft: &ManifestDraft) -> Result<ManifestSpec, JobFault>
    ensures manifest { Gives result (limits.manifest_from draft.now) }
    ensures rules { IfOk result IsManifest }
{
    let (bucket, key) = object_from(alloc, draft.arn.as_str())?;
    let version = version_from(&draft.version)?;
    Ok(ManifestSpec {
        versions: draft.versions,
        bucket,
        key,
        version,
    })
}

/// What a job that is written so asks for, or what is wrong of it first.
#[tactic(auto, unfolding(crate::specs::Limits::spec_from))]
pub fn spec_from(alloc: Global, draft: &Draft) -> Result<JobSpec, JobFault>
    ensures job { Gives result (limits.spec_from draft.now) }
    ensures rules { IfOk result IsJobSpec }
    ensures limits { IfOk result SpecMeetsLimits }
{
    let operation = operation_from(&draft.operation)?;
    let token = token_from(&draft.token)?;
    let priority = priority_from(draft.priority)?;
    let manifest = manifest_from(alloc, &draft.manifest)?;
    Ok(JobSpec {
        token,
        priority,
        confirm: draft.confirm,
        operation,
        manifest,
        report: None,
    })
}
