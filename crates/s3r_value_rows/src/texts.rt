//! Texts of values that several words tell.

use crate::fault::Fault;
use s3r_names::{TagSet, VersionId};
use std::alloc::{AllocError, Global};

/// A copy of a text.
pub fn owned(alloc: Global, text: &str) -> Result<String, Fault> {
    Ok(String::from_str(alloc, text)?)
}

/// `true` or `false`.
pub fn truth(alloc: Global, is_so: bool) -> Result<String, Fault> {
    owned(alloc, if is_so { "true" } else { "false" })
}

/// Adds a part behind others.
pub fn add(text: &mut String, separator: &str, part: &str) -> Result<(), AllocError> {
    if !text.is_empty() {
        text.push_str(separator)?;
    }
    text.push_str(part)
}

/// Tags as a web form, in brackets.
pub fn set_text(alloc: Global, tags: &TagSet) -> Result<String, AllocError> {
    let form = tags.print_query(alloc)?;
    format!(in alloc; "[{form}]")
}

/// An id's region and index, both in decimal digits.
pub fn id_text(alloc: Global, id: Option<VersionId>) -> Result<String, AllocError> {
    match id {
        Some(id) => {
            let region = id.region;
            let index = id.index;
            format!(in alloc; "{region}-{index}")
        }
        None => String::from_str(alloc, "none"),
    }
}
