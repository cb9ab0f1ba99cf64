//! A rule as it is written, before it is looked at beside others.

use s3r_names::{BucketName, TagSet, Text};

/// Which keys and tags a rule is for.
#[derive(Drop)]
pub struct Filter {
    pub prefix: Text,
    /// None stands for tags that are no set.
    pub tags: Option<TagSet>,
}

/// Where to a rule copies.
#[derive(Drop)]
pub struct Destination {
    /// None stands for what isn't a bucket's ARN.
    pub bucket: Option<BucketName>,
    pub class: Option<Text>,
}

/// A rule as it is written, whose form alone was looked at.
#[derive(Drop)]
pub struct Draft {
    pub id: Option<Text>,
    /// None stands for a number below 0.
    pub priority: Option<u64>,
    pub enabled: bool,
    pub filter: Filter,
    pub markers: bool,
    pub destination: Destination,
    pub replica_modifications: bool,
}
