// Texts found in bytes.
ghost use Rattle.std.specs.Prelude.{◌+◌, ◌<◌, ◌≤◌, length, IfSome};

use std::alloc::{AllocError, Global};

/// How often a text stands in some bytes.
pub fn count(bytes: &[u8], text: &[u8]) -> usize {
    let mut found = 0usize;
    for at in 0..bytes.len() {
        if bytes[at..].starts_with(text) {
            found = found.saturating_add(1);
        }
    }
    found
}

/// The bytes before and behind the first place where a text stands.
pub fn split_once<'a>(bytes: &'a [u8], text: &[u8]) -> Option<(&'a [u8], &'a [u8])>
    ensures { IfSome result (λ parts. length parts.1.now + length text.now ≤ length bytes.now) }
{
    for at in 0..bytes.len() {
        if bytes[at..].starts_with(text) {
            return Some((&bytes[..at], &bytes[at + text.len()..]));
        }
    }
    None
}

/// The lines of some bytes without their ends, and the bytes behind the last end.
pub fn lines(alloc: Global, bytes: &[u8]) -> Result<Vec<&[u8]>, AllocError> {
    let mut lines = Vec::new(alloc);
    let mut rest = bytes;
    while let Some((line, behind)) = split_once(rest, b"\r\n") {
        lines.push(line)?;
        rest = behind;
    }
    lines.push(rest)?;
    Ok(lines)
}

// Splits bytes, which aren't none, before the next place where a text stands.
fn split_before<'a>(bytes: &'a [u8], text: &[u8]) -> (&'a [u8], &'a [u8])
    requires { 0 < length bytes.now }
    ensures { length result.1.now < length bytes.now }
{
    for at in 1..bytes.len() {
        if bytes[at..].starts_with(text) {
            return bytes.split_at(at);
        }
    }
    bytes.split_at(bytes.len())
}

/// The parts of some bytes that begin where a text stands.
pub fn parts<'a>(alloc: Global, bytes: &'a [u8], text: &[u8]) -> Result<Vec<&'a [u8]>, AllocError> {
    let mut parts = Vec::new(alloc);
    let mut rest = bytes;
    while !rest.is_empty() {
        let (part, behind) = split_before(rest, text);
        parts.push(part)?;
        rest = behind;
    }
    Ok(parts)
}
