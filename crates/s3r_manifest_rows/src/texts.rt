//! Texts of what a manifest is read as.

use percent_encoding::{NON_ALPHANUMERIC, percent_encode};
use s3r_lines::ObjectRef;
use s3r_manifest::{ManifestFault, read};
use s3r_names::VersionId;
use std::alloc::{AllocError, Global};

/// Adds the bucket, the key percent-encoded, and the version of a line.
fn push_line(text: &mut String, alloc: Global, line: &ObjectRef) -> Result<(), AllocError> {
    text.push_str(line.bucket.as_str())?;
    text.push_str(" ")?;
    percent_encode(line.key.as_bytes(), NON_ALPHANUMERIC).append_to(text)?;
    text.push_str(" ")?;
    text.push_str(version_text(alloc, line.version)?.as_str())
}

/// A version's region and index in decimal digits.
fn version_text(alloc: Global, version: Option<VersionId>) -> Result<String, AllocError> {
    match version {
        Some(id) => {
            let region = id.region;
            let index = id.index;
            format!(in alloc; "{region}-{index}")
        }
        None => String::from_str(alloc, "latest"),
    }
}

/// How many lines, and each of them.
pub fn lines_text(alloc: Global, versions: bool, bytes: &[u8]) -> Result<String, ManifestFault> {
    let lines = read(alloc, versions, bytes)?;
    let count = lines.as_slice().len();
    let mut text = format!(in alloc; "lines: {count}")?;
    for line in lines.as_slice() {
        text.push_str(" | ")?;
        push_line(&mut text, alloc, line)?;
    }
    Ok(text)
}

/// How many lines.
pub fn count_text(alloc: Global, bytes: &[u8]) -> Result<String, ManifestFault> {
    let count = read(alloc, false, bytes)?.as_slice().len();
    Ok(format!(in alloc; "lines: {count}")?)
}

/// How many lines in all readings of a manifest.
pub fn sum_text(alloc: Global, times: u32, bytes: &[u8]) -> Result<String, ManifestFault> {
    let mut sum: usize = 0;
    for _ in 0..times {
        sum = sum.saturating_add(read(alloc, false, bytes)?.as_slice().len());
    }
    Ok(format!(in alloc; "lines in all: {sum}")?)
}

/// A fault's name, and what it says.
pub fn fault_text(alloc: Global, fault: ManifestFault) -> Result<String, AllocError> {
    format!(in alloc; "{fault:?}: {fault}")
}
