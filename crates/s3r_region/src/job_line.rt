//! What a line of a job comes to.

ghost use Rattle.std.specs.Prelude.{◌≡◌, ◌≤◌, IfOk, Some};
ghost use Rattle.s3r_record.specs.declared.command.Command.{Command};
ghost use Rattle.s3r_history.specs.Words.{History};
ghost use Rattle.s3r_history.specs.Deeds.{deeds};
ghost use Rattle.s3r_history.specs.BucketView.{BucketView};
ghost use Rattle.s3r_history.specs.Past.{Entry};
ghost use Rattle.s3r_history.specs.JobLines.{object_named, carried_out, line_outcome, outcome_of_line};
ghost use Rattle.s3r_region.specs.After.{IsAfter, told_by, seen};
ghost use Rattle.s3r_region.specs.JobLine.{as_outcome, id_of};

use crate::{Bucket, State};
use s3r_jobs::{Code, Operation};
use s3r_lines::ObjectRef;
use s3r_names::{BucketName, Key, TagSet, VersionId};
use std::alloc::AllocError;

/// What a line that succeeds writes.
#[derive(Drop)]
pub(crate) enum LineWrite {
    /// A version's tags.
    Tags {
        bucket: BucketName,
        key: Key,
        id: VersionId,
        tags: TagSet,
    },
    /// A version's legal hold.
    Hold {
        bucket: BucketName,
        key: Key,
        id: VersionId,
        hold: bool,
    },
}

/// What a line comes to: what it writes, or the code with which it failed. None where it waits for its result.
pub(crate) type LineOutcome = Option<Result<LineWrite, Code>>;

/// The id of the object that a line names, or the code where it names none.
fn id_named(bucket: &Bucket, line: &ObjectRef) -> Result<VersionId, Code>
    ensures { result ≡ id_of (object_named line.now.key line.now.version bucket.now.rows.rows) }
{
    match line.version {
        Some(id) => match bucket.rows.find(&line.key, id) {
            Some(row) if row.marker => Err(Code::MethodNotAllowed),
            Some(row) => Ok(row.id),
            None => Err(Code::NoSuchVersion),
        },
        None => match bucket.rows.latest(&line.key) {
            Some(row) if row.marker => Err(Code::NoSuchKey),
            Some(row) => Ok(row.id),
            None => Err(Code::NoSuchKey),
        },
    }
}

/// What the operation does to the object of this id. Copies and replications aren't carried out yet.
fn carried_out(
    operation: &Operation,
    line: &ObjectRef,
    locked: bool,
    id: VersionId,
) -> Result<LineOutcome, AllocError>
    ensures { IfOk result (λ outcome. (at : BucketView) (row : Entry) → at.locked ≡ locked → row.id ≡ id
        → as_outcome outcome ≡ carried_out operation.now line.now at row) }
{
    match operation {
        Operation::Tagging(tags) => Ok(Some(Ok(LineWrite::Tags {
            bucket: line.bucket.clone()?,
            key: line.key.clone()?,
            id,
            tags: tags.clone()?,
        }))),
        Operation::Hold(hold) if locked => Ok(Some(Ok(LineWrite::Hold {
            bucket: line.bucket.clone()?,
            key: line.key.clone()?,
            id,
            hold: *hold,
        }))),
        Operation::Hold(_) => Ok(Some(Err(Code::LockNeeded))),
        Operation::Copy { .. } | Operation::Replicate => Ok(None),
    }
}

/// What the line comes to in its bucket.
fn outcome_in(
    operation: &Operation,
    line: &ObjectRef,
    bucket: &Bucket,
) -> Result<LineOutcome, AllocError>
    ensures { IfOk result (λ outcome. as_outcome outcome ≡ line_outcome operation.now line.now (Some (told_by bucket.now))) }
{
    match id_named(bucket, line) {
        Ok(id) => carried_out(operation, line, bucket.locked, id),
        Err(code) => Ok(Some(Err(code))),
    }
}

impl State {
    fn outcome_on(&self, operation: &Operation, line: &ObjectRef) -> Result<LineOutcome, AllocError>
        ensures { IfOk result (λ outcome. as_outcome outcome ≡ line_outcome operation.now line.now (seen self.now line.now.bucket)) }
    {
        match self.bucket(&line.bucket) {
            Some(bucket) => outcome_in(operation, line, bucket),
            None => Ok(Some(Err(Code::NoSuchBucket))),
        }
    }

    /// What the line of this number of a job would come to.
    pub(crate) fn outcome_of_line(&self, job: u64, line: u32) -> Result<LineOutcome, AllocError>
        requires { 1 ≤ line }
        ensures { IfOk result (λ outcome. (h : History) → IsAfter self.now h
            → as_outcome outcome ≡ outcome_of_line h (deeds self.now.region h) (Command.Line job line)) }
    {
        let Some(job) = self.jobs().find(job) else {
            return Ok(None);
        };
        match job.lines().get((line - 1) as usize) {
            Some(object) => self.outcome_on(&job.spec().operation, object),
            None => Ok(None),
        }
    }
}
