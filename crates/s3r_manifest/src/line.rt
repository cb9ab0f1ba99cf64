//! The line that a record is.

ghost use Rattle.csv.specs.Records.{fields_of};
ghost use Rattle.s3r_manifest.specs.Faults.{GivesAt};
ghost use Rattle.s3r_manifest.specs.Lines.{line_of};

use crate::fault::ManifestFault;
use crate::field::{bucket_at, field, key_at, version_at};
use csv::ByteRecord;
use s3r_lines::{LineKind, ObjectRef};
use std::alloc::Global;

/// The object that the record of this number names, from 1; a version's id is its third field where `versions` says so.
/// What is wrong is looked for in the order of `LineKind`.
pub(crate) fn line_at(
    alloc: Global,
    versions: bool,
    number: u32,
    row: &ByteRecord,
) -> Result<ObjectRef, ManifestFault>
    ensures { GivesAt number result (line_of versions (fields_of row.now)) }
{
    let columns = if versions { 3 } else { 2 };
    if row.len() != columns {
        return Err(ManifestFault::BadLine(number, LineKind::Fields));
    }
    let bucket = bucket_at(alloc, number, field(row, 0))?;
    let key = key_at(alloc, number, field(row, 1))?;
    let version = version_at(number, if versions { field(row, 2) } else { &[] })?;
    Ok(ObjectRef {
        bucket,
        key,
        version,
    })
}
