use crate::effect::Effect;
use s3r_jobs::{JobSpec, JobState};
use s3r_names::{BucketName, Bytes, ClassName, Key, Outcome, TagSet, VersionId};
use s3r_rules::Config;

/// What one record of a region's volume says.
#[derive(Drop)]
pub enum Command {
    CreateBucket {
        name: BucketName,
        locked: bool,
    },
    DeleteBucket {
        name: BucketName,
    },
    /// Enabled or suspended.
    SetVersioning {
        name: BucketName,
        enabled: bool,
    },
    /// The bucket's replication rules are these from now on.
    SetReplication {
        name: BucketName,
        config: Config,
        /// The region of each rule's bucket, one a rule.
        regions: Bytes,
    },
    DropReplication {
        name: BucketName,
    },
    Put {
        bucket: BucketName,
        key: Key,
        tags: TagSet,
        hold: bool,
        class: ClassName,
        body: Bytes,
    },
    /// A delete marker is written.
    Marker {
        bucket: BucketName,
        key: Key,
    },
    /// A version is taken away.
    Remove {
        bucket: BucketName,
        key: Key,
        id: VersionId,
    },
    /// A version's tags are these from now on.
    SetTags {
        bucket: BucketName,
        key: Key,
        id: VersionId,
        tags: TagSet,
    },
    /// A version's legal hold is on or off from now on.
    SetHold {
        bucket: BucketName,
        key: Key,
        id: VersionId,
        hold: bool,
    },
    /// An effect of another region was received, or of this one, the number being its task's there.
    Receive {
        from: u8,
        number: u64,
        effect: Effect<Bytes>,
    },
    /// A task to a region came to this there.
    Settle {
        to: u8,
        number: u64,
        outcome: Outcome,
    },
    /// A task couldn't be carried, since its region couldn't be written to.
    Attempt {
        to: u8,
        number: u64,
    },
    /// A job was created over this version of its manifest. Its id is this command's index.
    CreateJob {
        spec: JobSpec,
        manifest: VersionId,
    },
    /// A job moves to this state.
    MoveJob {
        job: u64,
        state: JobState,
    },
    /// A job's priority is this from now on.
    SetPriority {
        job: u64,
        priority: u32,
    },
    /// A job's lines are read from its manifest.
    Prepare {
        job: u64,
    },
    /// A line of a job is done, or begun.
    Line {
        job: u64,
        line: u32,
    },
    /// A job ends, with its report's body where it has a report.
    Finish {
        job: u64,
        body: Option<Bytes>,
    },
}
