//! What is asked of the desk, and what it answers.
ghost use Rattle.std.specs.Prelude.{◌≡◌};

use crate::{CopyOutcome, JobOutcome, WorkSummary};
use s3r_history::Refusal;
use s3r_jobs::{JobSpec, JobState};
use s3r_names::{BucketName, Bytes, ClassName, Key, Status, TagSet, Text, VersionId};
use s3r_rules::Config;
use s3r_versions::{ListPosition, Listing};
use std::marker::Model;

/// A request, read and not looked at further. A version that isn't named is the latest of the key. A body has at most
/// 4,194,304 bytes.
#[derive(Drop)]
pub enum Request {
    /// A new bucket in a region. None stands for a word that is no region's.
    CreateBucket {
        name: BucketName,
        region: Option<u32>,
        locked: bool,
    },
    /// Whether the bucket is there.
    HeadBucket {
        name: BucketName,
    },
    DeleteBucket {
        name: BucketName,
    },
    /// Versioning is Enabled from now on, or Suspended.
    PutVersioning {
        name: BucketName,
        enabled: bool,
    },
    GetVersioning {
        name: BucketName,
    },
    /// The bucket is copied by these rules from now on.
    PutReplication {
        name: BucketName,
        config: Config,
    },
    GetReplication {
        name: BucketName,
    },
    /// The bucket is copied no more.
    DeleteReplication {
        name: BucketName,
    },
    /// The first versions and markers whose keys begin with the prefix, behind a place: at most `limit`, which is at
    /// least 1.
    ListVersions {
        name: BucketName,
        prefix: Text,
        after: Option<ListPosition>,
        limit: usize,
    },
    /// A new version of an object.
    PutObject {
        bucket: BucketName,
        key: Key,
        body: Bytes,
        tags: TagSet,
        hold: bool,
        class: ClassName,
    },
    /// A version of an object, with its body, or without it where `head` says so.
    GetObject {
        bucket: BucketName,
        key: Key,
        version: Option<VersionId>,
        head: bool,
    },
    /// A marker over the object's versions, or the removal of the one that is named.
    DeleteObject {
        bucket: BucketName,
        key: Key,
        version: Option<VersionId>,
    },
    /// The tags of a version in place of those that it has. `gone` says that there are to be none, and how that is
    /// answered.
    PutTags {
        bucket: BucketName,
        key: Key,
        version: Option<VersionId>,
        tags: TagSet,
        gone: bool,
    },
    GetTags {
        bucket: BucketName,
        key: Key,
        version: Option<VersionId>,
    },
    /// A version's legal hold is ON from now on, or OFF.
    PutHold {
        bucket: BucketName,
        key: Key,
        version: Option<VersionId>,
        hold: bool,
    },
    GetHold {
        bucket: BucketName,
        key: Key,
        version: Option<VersionId>,
    },
    /// A turn of the copier: the first pending task from one region to another is carried.
    Copy {
        from: u32,
        to: u32,
    },
    /// A new job over the lines of a manifest. The token of one that is there asks for that one again.
    CreateJob {
        spec: JobSpec,
    },
    /// A job has this priority from now on. None stands for an id of another form.
    SetJobPriority {
        id: Option<VersionId>,
        priority: u32,
    },
    /// A job that waits for its confirmation is Ready, where `ready` says so; else it is cancelled.
    SetJobStatus {
        id: Option<VersionId>,
        ready: bool,
    },
    /// A turn of a region's jobs: the next step among them is made.
    JobTurn {
        region: u32,
    },
    /// So many rounds of turns of the copier and of jobs.
    Work {
        rounds: u32,
    },
}

/// What is told of a version beside its body.
#[derive(Drop)]
pub struct ObjectMetadata {
    pub id: VersionId,
    pub class: ClassName,
    /// How far its replication is.
    pub status: Status,
    /// Whether its bucket has Object Lock.
    pub locked: bool,
    pub hold: bool,
    /// How many bytes its body has.
    pub length: u32,
}

/// How far the replication of several versions is, seen as the list of their statuses.
#[derive(Drop)]
pub struct Statuses {
    statuses: Vec<Status>,
}

impl Model for Statuses {
    ghost use Rattle.std.specs.Prelude.{List};
    ghost use Rattle.s3r_names.specs.declared.outcome.Status.{Status};

    ghost Value = { List Status };

    ghost view = { λ object. object.statuses.items };
}

impl Statuses {
    pub fn from_vec(statuses: Vec<Status>) -> Statuses
        ensures { result ≡ statuses.items }
    {
        Statuses { statuses }
    }

    pub fn as_slice(&self) -> &[Status]
        ensures { result.now ≡ self.now }
    {
        self.statuses.as_slice()
    }
}

/// What a request comes to.
#[derive(Drop)]
pub enum Answer {
    /// It is refused, and nothing was done.
    Refused(Refusal),
    /// It was done, or the bucket is there.
    Done,
    /// The version was written, or its tags or hold were.
    Written(VersionId),
    /// A bucket, its configuration, a version or its tags are gone, or a marker was written. `marker` says that the version is one.
    Gone {
        id: Option<VersionId>,
        marker: bool,
    },
    /// A version and its body, which is left empty where it wasn't asked for.
    Object {
        object: ObjectMetadata,
        body: Bytes,
    },
    /// A marker stands in place of a version. `named` says that it was asked for by its id.
    MarkerThere {
        id: VersionId,
        named: bool,
    },
    TagSet(TagSet),
    /// Whether a legal hold is ON.
    Hold(bool),
    /// Whether versioning is Enabled.
    Versioning(bool),
    /// The rules by which a bucket is copied.
    Configuration(Config),
    /// Versions and markers, and beside each how far its replication is.
    Listing {
        listing: Listing,
        statuses: Statuses,
    },
    /// What a turn of the copier came to.
    Copied(CopyOutcome),
    /// The job was created, now or before.
    JobMade(VersionId),
    /// The job has this priority.
    JobSet {
        id: VersionId,
        priority: u32,
    },
    /// The job came to this state.
    JobMoved {
        id: VersionId,
        state: JobState,
    },
    /// What a turn of a region's jobs came to.
    JobStep(JobOutcome),
    /// What rounds of work came to.
    Worked(WorkSummary),
}
