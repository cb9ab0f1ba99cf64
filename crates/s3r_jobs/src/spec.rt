//! What a job is asked to do.

ghost use Rattle.std.specs.Prelude.{◌≡◌, ◌↔◌, IsTrue};
ghost use Rattle.s3r_jobs.specs.Spec.{operation_name};

use crate::same::same_spec;
use s3r_names::{BucketName, Key, TagSet, Text, VersionId};

/// What a job does to each object that its manifest lists (Amazon S3 User Guide, "Operations supported by S3 Batch
/// Operations").
#[derive(Drop)]
pub enum Operation {
    /// A copy into the target, with the prefix and a slash before its key where a prefix is given.
    Copy {
        target: BucketName,
        prefix: Option<Text>,
    },
    /// Its tags are these from now on.
    Tagging(TagSet),
    /// Its legal hold is on or off from now on.
    Hold(bool),
    /// It goes where the rules of its bucket send it.
    Replicate,
}

impl Operation {
    /// The member that asks for it in a job's JSON (Amazon S3 API Reference, JobOperation).
    pub fn name(&self) -> &'static str
        ensures { result.now ≡ operation_name self.now }
    {
        match self {
            Operation::Copy { .. } => "S3PutObjectCopy",
            Operation::Tagging(_) => "S3PutObjectTagging",
            Operation::Hold(_) => "S3PutObjectLegalHold",
            Operation::Replicate => "S3ReplicateObject",
        }
    }
}

/// Where a job's lines stand: the object that is its manifest.
#[derive(Drop)]
pub struct ManifestSpec {
    /// Whether its records have a third field, a version's id.
    pub versions: bool,
    pub bucket: BucketName,
    pub key: Key,
    /// Without one it is the version that is the latest when the job is created.
    pub version: Option<VersionId>,
}

/// Where a job's report goes.
#[derive(Drop)]
pub struct ReportSpec {
    pub bucket: BucketName,
    /// What stands before its key.
    pub prefix: Option<Text>,
    /// Whether it has all lines, or those that failed.
    pub all: bool,
}

/// A job as it was created.
#[derive(Drop)]
pub struct JobSpec {
    /// What tells a request that is sent again.
    pub token: Text,
    /// The greater, the better.
    pub priority: u32,
    /// Whether a client has to confirm it before it runs.
    pub confirm: bool,
    pub operation: Operation,
    pub manifest: ManifestSpec,
    /// Without one no report is written.
    pub report: Option<ReportSpec>,
}

impl JobSpec {
    /// Whether both ask for the same.
    pub fn same(&self, other: &JobSpec) -> bool
        ensures { IsTrue result ↔ (self.now ≡ other.now) }
    {
        same_spec(self, other)
    }
}
