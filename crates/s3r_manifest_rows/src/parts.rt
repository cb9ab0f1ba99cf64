//! The bytes of a manifest, written as parts. Each is percent-encoded, and a number and ` * ` before it repeat it.

use percent_encoding::percent_decode;
use std::alloc::{AllocError, Global};

/// Adds the bytes of a part.
fn add_part(bytes: &mut Vec<u8>, part: &str) -> Result<(), AllocError> {
    let (times, unit) = match part.split_once(" * ") {
        Some((times, unit)) => (times.parse::<u32>().unwrap_or(0), unit),
        None => (1, part),
    };
    for _ in 0..times {
        percent_decode(unit.as_bytes()).append_to(bytes)?;
    }
    Ok(())
}

/// The bytes of all parts, which ` | ` parts.
pub fn joined(alloc: Global, parts: &str) -> Result<Vec<u8>, AllocError> {
    let mut bytes = Vec::new(alloc);
    for part in parts.split(" | ") {
        add_part(&mut bytes, part.trim())?;
    }
    Ok(bytes)
}
