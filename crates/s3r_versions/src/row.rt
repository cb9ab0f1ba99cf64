//! A version of an object.

ghost use Rattle.std.specs.Prelude.{◌≡◌, position};
ghost use Rattle.s3r_versions.specs.Order.{comes_before, first_stamp};
ghost use Rattle.s3r_versions.specs.Lookup.{is_of_key, is_version};
ghost use Rattle.s3r_versions.specs.Contents.{with_tags, with_hold};

use s3r_names::{BucketName, ClassName, Key, Stamp, TagSet, VersionId, is_before};
use std::cmp::Ordering;

/// The bucket of another region that a version was received from.
#[derive(Debug, Drop)]
pub struct Origin {
    pub region: u8,
    pub bucket: BucketName,
}

/// A version of an object, or a marker that the object was deleted.
#[derive(Debug, Drop)]
pub struct Row<B> {
    pub key: Key,
    pub id: VersionId,
    /// The clock's number when it was first written.
    pub n: u64,
    /// The index of the command that added it here.
    pub place: u64,
    pub marker: bool,
    pub body: B,
    pub length: u32,
    pub class: ClassName,
    pub tags: TagSet,
    pub tags_stamp: Stamp,
    pub hold: bool,
    pub hold_stamp: Stamp,
    pub origin: Option<Origin>,
}

fn first_stamp<B>(row: &Row<B>) -> Stamp
    ensures { result ≡ first_stamp row.now }
{
    Stamp {
        n: row.n,
        region: row.id.region,
        index: row.id.index,
    }
}

/// Whether a listing shows the first row before the second.
pub fn comes_before<B>(first: &Row<B>, second: &Row<B>) -> bool
    ensures { result ≡ comes_before first.now second.now }
{
    match first.key.as_bytes().cmp(second.key.as_bytes()) {
        Ordering::Less => true,
        Ordering::Equal => is_before(first_stamp(second), first_stamp(first)),
        Ordering::Greater => false,
    }
}

pub fn is_of_key<B>(row: &Row<B>, key: &Key) -> bool
    ensures { result ≡ is_of_key key.now row.now }
{
    row.key == *key
}

pub fn is_version<B>(row: &Row<B>, key: &Key, id: VersionId) -> bool
    ensures { result ≡ is_version key.now id row.now }
{
    row.key == *key && row.id == id
}

pub fn place_of_version<B>(rows: &[Row<B>], key: &Key, id: VersionId) -> Option<usize>
    ensures { result ≡ position (is_version key.now id) rows.now }
{
    rows.iter().position(|row| is_version(row, key, id))
}

/// Writes the tags, unless those that are there have as great a stamp.
pub fn write_tags<B>(row: &mut Row<B>, tags: TagSet, stamp: Stamp)
    ensures { row.new ≡ with_tags stamp tags row.old }
{
    if is_before(row.tags_stamp, stamp) {
        row.tags = tags;
        row.tags_stamp = stamp;
    }
}

/// Writes the hold, unless the one that is there has as great a stamp.
pub fn write_hold<B>(row: &mut Row<B>, hold: bool, stamp: Stamp)
    ensures { row.new ≡ with_hold stamp hold row.old }
{
    if is_before(row.hold_stamp, stamp) {
        row.hold = hold;
        row.hold_stamp = stamp;
    }
}
