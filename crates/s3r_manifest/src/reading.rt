//! A manifest's text.

ghost use Rattle.s3r_manifest.specs.Faults.{Gives};
ghost use Rattle.s3r_manifest.specs.Lines.{manifest};

use crate::fault::ManifestFault;
use crate::line::line_at;
use csv::{ByteRecord, ReaderBuilder};
use s3r_lines::{Lines, MOST_LINES};
use std::alloc::Global;

/// The most bytes of a manifest.
const MOST_BYTES: usize = 4_194_304;

/// The lines of a manifest (Amazon S3 User Guide, "Specifying a manifest"). Each record of the CSV text (RFC 4180) is a
/// bucket and a percent-encoded key, and with `versions` also a version's id, or nothing for the version that is the latest
/// when the line is done. There is no header row. A byte order mark at the start is dropped, and empty lines are passed over.
/// The first of these is the refusal:
///
/// - ManifestTooLong where the text has more than 4,194,304 bytes.
/// - BadLine where one of the first 20,000 records is wrong, with the number of the first and what is wrong of it first.
/// - TooManyLines where there are more than 20,000 records.
///
/// OutOfMemory may come with any text. A refusal leaves nothing behind.
pub fn read(alloc: Global, versions: bool, bytes: &[u8]) -> Result<Lines, ManifestFault>
    ensures { Gives result (manifest versions bytes.now) }
{
    if bytes.len() > MOST_BYTES {
        return Err(ManifestFault::ManifestTooLong);
    }
    let mut reader = ReaderBuilder::new()
        .has_headers(false)
        .flexible(true)
        .from_reader(alloc, bytes);
    let mut row = ByteRecord::new(alloc);
    let mut lines = Vec::new(alloc);
    for done in 0..MOST_LINES as u32 {
        // Over bytes, with records of any width, a read fails for memory alone.
        let Ok(found) = reader.read_byte_record(&mut row) else {
            return Err(ManifestFault::OutOfMemory);
        };
        if !found {
            return Ok(Lines::from_vec(lines));
        }
        lines.push(line_at(alloc, versions, done + 1, &row)?)?;
    }
    let Ok(more) = reader.read_byte_record(&mut row) else {
        return Err(ManifestFault::OutOfMemory);
    };
    if more {
        return Err(ManifestFault::TooManyLines);
    }
    Ok(Lines::from_vec(lines))
}
