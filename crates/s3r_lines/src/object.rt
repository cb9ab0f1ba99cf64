//! The object that a line names.

use s3r_names::{BucketName, Key, VersionId};

/// The object that a line names.
#[derive(Drop)]
pub struct ObjectRef {
    pub bucket: BucketName,
    pub key: Key,
    /// Without one it is the version that is the latest when the line is done.
    pub version: Option<VersionId>,
}
