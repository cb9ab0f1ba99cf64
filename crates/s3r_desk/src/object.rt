//! Versions of objects, shown and removed.
ghost use Rattle.std.specs.Prelude.{◌≡◌, ◌<◌, ℕ, IfOk, IfSome, option_map, option_copied, length};
ghost use Rattle.s3r_names.specs.Version.{IsVersionId};
ghost use Rattle.s3r_record.specs.Spelling.{IsCommand};
ghost use Rattle.s3r_region.specs.After.{told_by};
ghost use Rattle.s3r_desk.specs.Steps.{IsNamed, FitsIn, at_location, sought, missing, hidden, object_of, object_at, location, metadata_of, version_shown, object_shown, object_asked, deletion};
ghost use Rattle.s3r_desk.specs.Lookups.{views_of, statuses_of, seen_location, Finds};

use crate::bucket_location::BucketLocation;
use crate::finding::{location_of, status_at};
use crate::planning::{Plan, Reply, refuses};
use crate::{Answer, ObjectMetadata};
use s3r_history::Refusal;
use s3r_names::{BucketName, Bytes, Kept, Key, Status, VersionId};
use s3r_record::Command;
use s3r_region::Bucket;
use s3r_store::Store;
use s3r_versions::Row;
use std::alloc::{AllocError, Global};

// The version of the key that is named, or the latest.
fn sought<'a>(bucket: &'a Bucket, key: &Key, version: Option<VersionId>) -> Option<&'a Row<Kept>>
    ensures { option_copied result ≡ sought key.now version (told_by bucket.now) }
{
    match version {
        Some(id) => bucket.rows.find(key, id),
        None => bucket.rows.latest(key),
    }
}

fn missing(version: Option<VersionId>) -> Refusal
    ensures { result ≡ missing version }
{
    match version {
        Some(_) => Refusal::NoSuchVersion,
        None => Refusal::NoSuchKey,
    }
}

fn hidden(version: Option<VersionId>) -> Refusal
    ensures { result ≡ hidden version }
{
    match version {
        Some(_) => Refusal::MethodNotAllowed,
        None => Refusal::NoSuchKey,
    }
}

// The version that is asked for, unless it isn't there or is a marker.
fn object_of<'a>(
    bucket: &'a Bucket,
    key: &Key,
    version: Option<VersionId>,
) -> Result<&'a Row<Kept>, Refusal>
    ensures { Finds (object_of version (sought key.now version (told_by bucket.now))) result }
{
    match sought(bucket, key, version) {
        Some(row) if row.marker => Err(hidden(version)),
        Some(row) => Ok(row),
        None => Err(missing(version)),
    }
}

// So it is of the bucket that a region has.
pub(crate) fn object_at<'a>(
    location: BucketLocation<'a>,
    key: &Key,
    version: Option<VersionId>,
) -> Result<&'a Row<Kept>, Refusal>
    ensures found { Finds (object_at key.now version (seen_location location.entry)) result }
    ensures id { IfOk result (λ row. IsVersionId row.now.id) }
{
    object_of(location.bucket, key, version)
}

fn metadata_of(row: &Row<Kept>, locked: bool, status: Status) -> Result<ObjectMetadata, AllocError>
    ensures { IfOk result (λ object. object ≡ metadata_of locked status row.now) }
{
    Ok(ObjectMetadata {
        id: row.id,
        class: row.class.clone()?,
        status,
        locked,
        hold: row.hold,
        length: row.length,
    })
}

// A version with its body, which is to be fetched, or without it where its head alone is asked for.
fn version_shown(
    alloc: Global,
    region: usize,
    row: &Row<Kept>,
    head: bool,
    object: ObjectMetadata,
) -> Result<Plan, AllocError>
    ensures planned { IfOk result (λ p. p ≡ version_shown region head object row.now) }
    ensures fits { (n : ℕ) → region < n → IfOk result (λ p. FitsIn n p) }
{
    if head {
        return Ok(Plan::Shows(Answer::Object {
            object,
            body: Bytes::from_vec(Vec::new(alloc)),
        }));
    }
    let body = row.body.clone()?;
    Ok(Plan::Fetches {
        region,
        object,
        body,
    })
}

// A version, or the marker in its place.
fn object_shown(
    alloc: Global,
    location: BucketLocation<'_>,
    row: &Row<Kept>,
    version: Option<VersionId>,
    head: bool,
    status: Status,
) -> Result<Plan, AllocError>
    ensures planned { IfOk result (λ p. p ≡ object_shown location.entry.region version head location.entry.bucket.now.locked status row.now) }
    ensures fits { (n : ℕ) → location.entry.region < n → IfOk result (λ p. FitsIn n p) }
{
    if row.marker {
        return Ok(Plan::Shows(Answer::MarkerThere {
            id: row.id,
            named: version.is_some(),
        }));
    }
    let object = metadata_of(row, location.bucket.locked, status)?;
    version_shown(alloc, location.region, row, head, object)
}

pub(crate) fn get_object(
    alloc: Global,
    stores: &[Store],
    bucket: BucketName,
    key: Key,
    version: Option<VersionId>,
    head: bool,
) -> Result<Plan, AllocError>
    ensures planned { IfOk result (λ p. p ≡ at_location (object_asked (statuses_of stores.now) bucket key version head)
        (location (length stores.now) (views_of stores.now) bucket)) }
    ensures fits { IfOk result (λ p. FitsIn (length stores.now) p) }
{
    let Some(location) = location_of(stores, &bucket) else {
        return Ok(refuses(Refusal::NoSuchBucket));
    };
    match sought(location.bucket, &key, version) {
        Some(row) => {
            let status = status_at(stores, location.region, &bucket, &key, row.id);
            object_shown(alloc, location, row, version, head, status)
        }
        None => Ok(refuses(missing(version))),
    }
}

// The version is removed where it is there.
fn removal(location: BucketLocation<'_>, bucket: BucketName, key: Key, id: VersionId) -> Plan
    requires { IsCommand (Command.Remove bucket key id) }
    ensures planned { result ≡ deletion bucket key (Some id) (seen_location location.entry) }
    ensures fits { (n : ℕ) → location.entry.region < n → FitsIn n result }
{
    match location.bucket.rows.find(&key, id) {
        Some(row) => Plan::Commits {
            region: location.region,
            command: Command::Remove { bucket, key, id },
            reply: Reply::Is(Answer::Gone {
                id: Some(id),
                marker: row.marker,
            }),
        },
        None => Plan::Shows(Answer::Gone {
            id: Some(id),
            marker: false,
        }),
    }
}

// A marker is put over the versions, or the one that is named is removed.
pub(crate) fn delete_object(
    location: Option<BucketLocation<'_>>,
    bucket: BucketName,
    key: Key,
    version: Option<VersionId>,
) -> Plan
    requires fits { IsCommand (Command.Marker bucket key) × IsNamed version }
    ensures planned { result ≡ at_location (deletion bucket key version) (option_map seen_location location.entry) }
    ensures fits { (n : ℕ) → IfSome location.entry (λ h. h.region < n) → FitsIn n result }
{
    let Some(location) = location else {
        return refuses(Refusal::NoSuchBucket);
    };
    match version {
        Some(id) => removal(location, bucket, key, id),
        None => Plan::Commits {
            region: location.region,
            command: Command::Marker { bucket, key },
            reply: Reply::Marked,
        },
    }
}
