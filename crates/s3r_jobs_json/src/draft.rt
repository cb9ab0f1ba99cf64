//! A job as it is written, whose lengths, ranges and names are still to be looked at.

use s3r_names::{TagSet, Text};

/// What is to be done to each object.
#[derive(Drop)]
pub enum OperationDraft {
    /// None stands for tags that are no set.
    Tagging(Option<TagSet>),
    Hold(bool),
}

/// Where the objects are listed.
#[derive(Drop)]
pub struct ManifestDraft {
    /// Whether a record has a version's id.
    pub versions: bool,
    pub arn: Text,
    pub version: Option<Text>,
}

/// A job as it is written, whose form alone was looked at.
#[derive(Drop)]
pub struct Draft {
    pub token: Text,
    /// None stands for a number below 0.
    pub priority: Option<u64>,
    pub confirm: bool,
    pub operation: OperationDraft,
    pub manifest: ManifestDraft,
}
