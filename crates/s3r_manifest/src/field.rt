//! The fields of a record.

ghost use Rattle.std.specs.Prelude.{◌≡◌};
ghost use Rattle.csv.specs.Records.{fields_of};
ghost use Rattle.s3r_manifest.specs.Faults.{GivesAt, fault_at};
ghost use Rattle.s3r_manifest.specs.Lines.{bucket_of, field, key_of, version_of};

use crate::fault::ManifestFault;
use csv::ByteRecord;
use percent_encoding::percent_decode;
use s3r_lines::LineKind;
use s3r_names::{BucketName, Key, VersionId};
use s3r_routes::{RouteFault, bucket_named, key_named, version_named};
use std::alloc::Global;

/// The field at a place, from 0; no bytes where there is none.
pub(crate) fn field(row: &ByteRecord, place: usize) -> &[u8]
    ensures { result.now ≡ field place (fields_of row.now) }
{
    match row.get(place) {
        Some(bytes) => bytes,
        None => &[],
    }
}

/// The fault of a record, from 1, one of whose names isn't one.
fn fault_at(number: u32, kind: LineKind, fault: RouteFault) -> ManifestFault
    ensures { result ≡ fault_at number kind fault }
{
    match fault {
        RouteFault::OutOfMemory => ManifestFault::OutOfMemory,
        _ => ManifestFault::BadLine(number, kind),
    }
}

/// The bucket that a field names as it stands.
pub(crate) fn bucket_at(
    alloc: Global,
    number: u32,
    bytes: &[u8],
) -> Result<BucketName, ManifestFault>
    ensures { GivesAt number result (bucket_of bytes.now) }
{
    match bucket_named(alloc, bytes) {
        Ok(name) => Ok(name),
        Err(fault) => Err(fault_at(number, LineKind::Bucket, fault)),
    }
}

/// The key that a field writes percent-encoded (RFC 3986, section 2.1). `+` stands for itself. What has no escape is read
/// where it stands.
pub(crate) fn key_at(alloc: Global, number: u32, bytes: &[u8]) -> Result<Key, ManifestFault>
    ensures { GivesAt number result (key_of bytes.now) }
{
    let decoded = percent_decode(bytes).into_cow(alloc)?;
    match key_named(alloc, decoded.as_slice()) {
        Ok(key) => Ok(key),
        Err(fault) => Err(fault_at(number, LineKind::Key, fault)),
    }
}

/// The version whose id a field is. No bytes stand for the latest.
pub(crate) fn version_at(number: u32, bytes: &[u8]) -> Result<Option<VersionId>, ManifestFault>
    ensures { GivesAt number result (version_of bytes.now) }
{
    if bytes.is_empty() {
        return Ok(None);
    }
    match version_named(bytes) {
        Ok(id) => Ok(Some(id)),
        Err(_) => Err(ManifestFault::BadLine(number, LineKind::Version)),
    }
}
