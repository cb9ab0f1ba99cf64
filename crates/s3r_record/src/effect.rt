use s3r_names::{BucketName, ClassName, Key, Stamp, TagSet, VersionId};

/// What a write prescribes to a destination, with all that it needs there: `B` is its body's bytes, or their place.
#[derive(Drop)]
pub enum Effect<B> {
    /// A version is copied, with its tags and hold.
    Replica {
        /// The bucket of the version.
        from: BucketName,
        /// The bucket that it goes to.
        to: BucketName,
        key: Key,
        id: VersionId,
        /// The clock's number when it was first written.
        n: u64,
        tags: TagSet,
        tags_stamp: Stamp,
        hold: bool,
        hold_stamp: Stamp,
        class: ClassName,
        body: B,
    },
    /// A delete marker is copied.
    Marker {
        from: BucketName,
        to: BucketName,
        key: Key,
        id: VersionId,
        n: u64,
    },
    /// A version's tags are these from now on.
    Tags {
        from: BucketName,
        to: BucketName,
        key: Key,
        id: VersionId,
        tags: TagSet,
        stamp: Stamp,
    },
    /// A version's legal hold is on or off from now on.
    Hold {
        from: BucketName,
        to: BucketName,
        key: Key,
        id: VersionId,
        hold: bool,
        stamp: Stamp,
    },
}
