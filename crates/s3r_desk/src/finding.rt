//! The region that has a bucket, found by its name.
ghost use Rattle.std.specs.Prelude.{◌≡◌, ◌<◌, IsTrue, IfSome, option_copied, option_map, length};
ghost use Rattle.s3r_region.specs.Contents.{have_ids};
ghost use Rattle.s3r_desk.specs.Steps.{location, status_or_none};
ghost use Rattle.s3r_desk.specs.Lookups.{bucket_in, views_of, seen_location, status_in, statuses_of};

use crate::bucket_location::BucketLocation;
use s3r_names::{BucketName, Key, Status, VersionId};
use s3r_region::Bucket;
use s3r_store::Store;

fn bucket_in<'a>(store: &'a Store, name: &BucketName) -> Option<&'a Bucket>
    ensures found { option_copied result ≡ bucket_in name.now store.now }
    ensures ids { IfSome result (λ bucket. IsTrue (have_ids bucket.now.rows.rows)) }
{
    let state = store.state()?;
    state.bucket(name)
}

/// The least region that has the bucket.
pub fn location_of<'a>(stores: &'a [Store], name: &BucketName) -> Option<BucketLocation<'a>>
    ensures least { option_map seen_location result ≡ location (length stores.now) (views_of stores.now) name.now }
    ensures within { IfSome result (λ h. h.region < length stores.now) }
{
    for region in 0..stores.len() {
        if let Some(bucket) = bucket_in(&stores[region], name) {
            return Some(BucketLocation { region, bucket });
        }
    }
    None
}

// The status of a version, where the store was read and has it.
fn status_in(store: &Store, bucket: &BucketName, key: &Key, id: VersionId) -> Option<Status>
    ensures { result ≡ status_in bucket.now key.now id store.now }
{
    let state = store.state()?;
    state.status(bucket, key, id)
}

/// How far the replication of a version of this region is.
pub fn status_at(
    stores: &[Store],
    region: usize,
    bucket: &BucketName,
    key: &Key,
    id: VersionId,
) -> Status
    ensures { result ≡ status_or_none (statuses_of stores.now region bucket.now key.now id) }
{
    let found = match stores.get(region) {
        Some(store) => status_in(store, bucket, key, id),
        None => None,
    };
    match found {
        Some(status) => status,
        None => Status::NoTask,
    }
}
