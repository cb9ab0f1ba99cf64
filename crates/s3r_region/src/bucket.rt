//! The buckets of a region.

ghost use Rattle.std.specs.Prelude.{◌≡◌, OnOk, OnErr, option_copied, find, position};
ghost use Rattle.s3r_history.specs.Carried.{is_applied};
ghost use Rattle.s3r_region.specs.Contents.{is_named};
ghost use Rattle.s3r_region.specs.Changes.{set_first, without_first, changed, changed_if, new_bucket, IsFreeIn};

use crate::change::Change;
use s3r_history::Replication;
use s3r_names::{BucketName, Kept, Outcome};
use s3r_versions::Rows;
use std::alloc::{AllocError, Global};

/// A bucket of a region.
#[derive(Drop)]
pub struct Bucket {
    pub name: BucketName,
    /// Whether it has Object Lock.
    pub locked: bool,
    /// Whether its versioning is Enabled, and not Suspended.
    pub enabled: bool,
    /// Where to it is copied.
    pub config: Option<Replication>,
    pub rows: Rows<Kept>,
}

impl Bucket {
    pub(crate) fn new(alloc: Global, name: BucketName, locked: bool) -> Bucket
        ensures { result ≡ new_bucket name locked }
    {
        Bucket {
            name,
            locked,
            enabled: true,
            config: None,
            rows: Rows::new(alloc),
        }
    }
}

/// The bucket of this name.
pub(crate) fn bucket_named<'a>(buckets: &'a [Bucket], name: &BucketName) -> Option<&'a Bucket>
    ensures { option_copied result ≡ find (is_named name.now) buckets.now }
{
    buckets.iter().find(|bucket| bucket.name == *name)
}

fn place_of(buckets: &[Bucket], name: &BucketName) -> Option<usize>
    ensures { result ≡ position (is_named name.now) buckets.now }
{
    buckets.iter().position(|bucket| bucket.name == *name)
}

/// Makes the change in the bucket of this name. Without memory nothing changes.
pub(crate) fn change_bucket(
    buckets: &mut Vec<Bucket>,
    name: &BucketName,
    change: Change,
) -> Result<(), AllocError>
    requires { IsFreeIn change buckets.old.items }
    ensures ok { OnOk result (buckets.new.items ≡ set_first (is_named name.now) (changed change) buckets.old.items) }
    ensures err { OnErr result (buckets.new.items ≡ buckets.old.items) }
{
    match place_of(buckets, name) {
        Some(place) => buckets[place].change(change),
        None => Ok(()),
    }
}

/// Makes the change of an effect that came to this.
pub(crate) fn change_if_applied(
    buckets: &mut Vec<Bucket>,
    name: &BucketName,
    change: Change,
    outcome: Outcome,
) -> Result<(), AllocError>
    requires { IsFreeIn change buckets.old.items }
    ensures ok { OnOk result (buckets.new.items ≡ changed_if (is_applied outcome) name.now change buckets.old.items) }
    ensures err { OnErr result (buckets.new.items ≡ buckets.old.items) }
{
    match outcome {
        Outcome::Applied => change_bucket(buckets, name, change),
        Outcome::Refused(_) => {
            drop(change);
            Ok(())
        }
    }
}

/// Takes the bucket of this name out.
pub(crate) fn remove_bucket(buckets: &mut Vec<Bucket>, name: &BucketName)
    ensures { buckets.new.items ≡ without_first (is_named name.now) buckets.old.items }
{
    if let Some(place) = place_of(buckets, name) {
        let _bucket = buckets.remove(place);
    }
}
