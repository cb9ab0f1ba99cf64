//! Why a command is refused.

use s3r_jobs::{JobState, Wanted};
use s3r_names::VersionId;
use s3r_rules::Kind;

/// Why a command, or the request that asks for it, is refused. No command is refused for `NoSuchKey`, `InvalidLocation` and
/// `InvalidArgument`: they are a desk's answers. No desk answers `NoSuchRegion`, `NotNext` or
/// `NotFirst`: they never leave it.
#[derive(Clone, Copy, Debug, PartialEq, Eq)]
pub enum Refusal {
    /// The region has no bucket of this name.
    NoSuchBucket,
    /// The region has a bucket of this name.
    BucketAlreadyExists,
    /// The bucket has a version or a marker.
    BucketNotEmpty,
    /// The bucket has no version of this key, or the latest is a marker.
    NoSuchKey,
    /// The bucket has no version of this key and id.
    NoSuchVersion,
    /// The version is a marker.
    MethodNotAllowed,
    /// The version is under a hold.
    AccessDenied,
    /// The bucket's versioning is Suspended, or may not be.
    InvalidBucketState,
    /// The bucket has no configuration of replication.
    NoReplication,
    /// A hold needs a bucket with Object Lock.
    LockNeeded,
    /// The region has as many buckets as it may have.
    TooManyBuckets,
    /// No region has this name.
    InvalidLocation,
    /// No region has this number.
    InvalidArgument,
    /// A rule of a configuration, counted from 1, is wrong so, or a job is, at rule 0.
    InvalidRequest { rule: u32, kind: Kind },
    /// The region has no job of this id.
    NoSuchJob,
    /// As many jobs as may be haven't ended.
    TooManyJobs,
    /// A job in this state can't do what was wanted.
    JobStatus { from: JobState, wanted: Wanted },
    /// The token made this job.
    Idempotency { id: VersionId },
    /// There are fewer regions.
    NoSuchRegion { region: u8 },
    /// The last number that was received from the region is this one, and the command's isn't above it.
    NotNext { watermark: u64 },
    /// The first pending task to the region has this number, 0 where none is pending, and the command's isn't it.
    NotFirst { first: u64 },
}
