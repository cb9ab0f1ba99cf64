//! What is wrong of a line.

/// What is wrong of a manifest's record, in the order in which it is looked for (Amazon S3 User Guide, "Specifying a
/// manifest").
#[derive(Clone, Copy, Debug, PartialEq, Eq)]
pub enum LineKind {
    /// It hasn't as many fields as the manifest has columns.
    Fields,
    /// Its first field isn't a bucket's name.
    Bucket,
    /// Its second field isn't a key.
    Key,
    /// Its third field isn't a version's id.
    Version,
}
