//! The fields of an effect, read in parts.

use s3r_names::{BucketName, Bytes, ClassName, Key, Stamp, TagSet, VersionId};

/// Those that every effect begins with.
#[derive(Drop)]
pub(crate) struct EffectFront {
    pub(crate) from: BucketName,
    pub(crate) to: BucketName,
    pub(crate) key: Key,
    pub(crate) id: VersionId,
}

/// Those of a Replica behind its front.
#[derive(Drop)]
pub(crate) struct ReplicaTail {
    pub(crate) n: u64,
    pub(crate) tags: TagSet,
    pub(crate) tags_stamp: Stamp,
    pub(crate) hold: bool,
    pub(crate) hold_stamp: Stamp,
    pub(crate) class: ClassName,
    pub(crate) body: Bytes,
}
