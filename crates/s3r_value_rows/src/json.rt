//! JSON bodies.

use crate::cells::Cells;
use crate::fault::Fault;
use crate::texts::{set_text, truth};
use s3r_json::{
    has_only, list_at, only_at, optional_text_at, read_value, status_of, status_text, tags_of,
    tags_text, text_at, text_of,
};
use s3r_names::TagSet;
use serde_json::Value;
use std::alloc::{AllocError, Global};

/// A value, printed in its shortest form.
pub fn value(alloc: Global, cells: &Cells) -> Result<String, Fault> {
    let value = read_value(alloc, cells.bytes(0))?;
    let text = value.to_string(alloc);
    drop(value);
    Ok(text?)
}

/// Whether the value of the first cell is an object whose members are named by the others.
fn names_only(alloc: Global, value: &Value, cells: &Cells) -> Result<bool, AllocError> {
    let mut names = Vec::new(alloc);
    for place in 1..cells.len() {
        names.push(cells.text(place))?;
    }
    Ok(has_only(value, names.as_slice()))
}

pub fn only(alloc: Global, cells: &Cells) -> Result<String, Fault> {
    let value = read_value(alloc, cells.bytes(0))?;
    let is_so = names_only(alloc, &value, cells);
    drop(value);
    truth(alloc, is_so?)
}

/// What each getter says of a member.
fn getters(alloc: Global, value: &Value, name: &str) -> Result<String, AllocError> {
    let text = text_at(value, name);
    let items = list_at(value, name).map(|list| list.len());
    let optional = optional_text_at(value, name);
    let is_only = only_at(value, name).is_some();
    format!(in alloc; "text {text:?}, items {items:?}, optional text {optional:?}, only {is_only}")
}

pub fn member(alloc: Global, cells: &Cells) -> Result<String, Fault> {
    let value = read_value(alloc, cells.bytes(0))?;
    let text = getters(alloc, &value, cells.text(1));
    drop(value);
    Ok(text?)
}

/// Whether a body says ON rather than OFF.
pub fn status(alloc: Global, cells: &Cells) -> Result<String, Fault> {
    let is_on = status_of(alloc, cells.bytes(0), "ON", "OFF")?;
    truth(alloc, is_on)
}

pub fn status_line(alloc: Global, cells: &Cells) -> Result<String, Fault> {
    Ok(status_text(alloc, cells.text(0))?)
}

/// The text of the one member of a body.
pub fn member_text(alloc: Global, cells: &Cells) -> Result<String, Fault> {
    Ok(text_of(alloc, cells.bytes(0), cells.text(1))?)
}

/// The tags of a body.
pub fn tag_set(alloc: Global, cells: &Cells) -> Result<String, Fault> {
    let set = tags_of(alloc, cells.bytes(0))?;
    Ok(set_text(alloc, &set)?)
}

/// The body of the tags of a web form.
pub fn tag_lines(alloc: Global, cells: &Cells) -> Result<String, Fault> {
    let set = TagSet::read_query(alloc, cells.bytes(0))?;
    Ok(tags_text(alloc, &set)?)
}
