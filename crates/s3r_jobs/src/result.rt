//! What became of lines, and why a job failed.

use s3r_lines::LineKind;

/// Why a line failed.
#[derive(Clone, Copy)]
pub enum Code {
    /// The region has no bucket of this name.
    NoSuchBucket,
    /// The bucket has no version of this key, or the latest is a marker.
    NoSuchKey,
    /// The bucket has no version of this key and id.
    NoSuchVersion,
    /// The version is a marker.
    MethodNotAllowed,
    /// The copy's key is longer than a key may be.
    KeyTooLong,
    /// The target's versioning is Suspended.
    InvalidBucketState,
    /// A hold needs a bucket with Object Lock.
    LockNeeded,
    /// The bucket has no configuration of replication.
    NoReplication,
    /// The configuration prescribes no copy of this version.
    NoMatchingRule,
    /// A copy's bucket isn't there.
    NoSuchDestination,
    /// The versioning of a copy's bucket is Suspended.
    DestinationSuspended,
    /// The version was removed where the copy went.
    VersionRemoved,
    /// A copy's hold needs a bucket with Object Lock.
    DestinationNotLocked,
    /// The copy was given up.
    AttemptsExhausted,
}

/// What became of a line.
#[derive(Clone, Copy)]
pub enum LineResult {
    Succeeded,
    Failed(Code),
}

/// Why a job failed.
#[derive(Clone, Copy)]
pub enum FailureReason {
    /// The manifest's version isn't there any more.
    Gone,
    /// The manifest has more bytes than one may have.
    TooLong,
    /// The manifest has more lines than one may have.
    TooManyLines,
    /// A record of the manifest, counted from 1, is wrong so.
    BadLine { number: u32, kind: LineKind },
    /// Too many of its lines failed.
    Threshold,
}
