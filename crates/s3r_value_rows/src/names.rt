//! Names, texts and tags.

use crate::cells::Cells;
use crate::fault::Fault;
use crate::texts::{add, owned, set_text};
use s3r_names::{Arn, BucketName, Bytes, ClassName, Key, Tag, TagSet, Text, VersionId, form_pairs};
use std::alloc::{AllocError, Global};

/// A copy's text, and whether it differs from the first.
fn copied(alloc: Global, text: &str, is_same: bool) -> Result<String, AllocError> {
    if is_same {
        String::from_str(alloc, text)
    } else {
        format!(in alloc; "{text}, a copy that differs")
    }
}

fn bucket_text(alloc: Global, name: &BucketName) -> Result<String, AllocError> {
    let copy = name.clone()?;
    copied(alloc, copy.as_str(), copy == *name)
}

pub fn bucket(alloc: Global, cells: &Cells) -> Result<String, Fault> {
    let name = BucketName::read(alloc, cells.bytes(0))?;
    Ok(bucket_text(alloc, &name)?)
}

fn key_text(alloc: Global, key: &Key) -> Result<String, AllocError> {
    let copy = key.clone()?;
    copied(alloc, copy.as_str(), copy == *key)
}

pub fn key(alloc: Global, cells: &Cells) -> Result<String, Fault> {
    let key = Key::read(alloc, cells.bytes(0))?;
    Ok(key_text(alloc, &key)?)
}

fn class_text(alloc: Global, class: &ClassName) -> Result<String, AllocError> {
    let copy = class.clone()?;
    copied(alloc, copy.as_str(), copy == *class)
}

pub fn class(alloc: Global, cells: &Cells) -> Result<String, Fault> {
    let class = ClassName::read(alloc, cells.bytes(0))?;
    Ok(class_text(alloc, &class)?)
}

/// The class of what names none.
pub fn standard(alloc: Global) -> Result<String, Fault> {
    let class = ClassName::standard(alloc)?;
    owned(alloc, class.as_str())
}

pub fn text(alloc: Global, cells: &Cells) -> Result<String, Fault> {
    let text = Text::from_str(alloc, cells.text(0))?;
    let copy = text.clone()?;
    let is_same = copy == text;
    let copy = Text::from_string(copy.into_string());
    Ok(copied(alloc, copy.as_str(), is_same)?)
}

pub fn bytes(alloc: Global, cells: &Cells) -> Result<String, Fault> {
    let bytes = Bytes::from_slice(alloc, cells.bytes(0))?;
    let copy = bytes.clone()?;
    let is_same = copy == bytes;
    let copy = Bytes::from_vec(copy.into_vec());
    let text = copy.as_slice().escape_ascii().to_string(alloc)?;
    Ok(copied(alloc, text.as_str(), is_same)?)
}

/// A tag of a key and a value.
pub fn tag(alloc: Global, cells: &Cells) -> Result<String, Fault> {
    let tag = Tag::read(alloc, cells.bytes(0), cells.bytes(1))?;
    let key = tag.key.as_str();
    let value = tag.value.as_str();
    Ok(format!(in alloc; "{key}={value}")?)
}

/// Tags whose keys and values are tags' alone.
fn read_tags(alloc: Global, cells: &Cells) -> Result<Vec<Tag>, Fault> {
    let mut tags = Vec::new(alloc);
    for pair in 0..cells.len() / 2 {
        let tag = Tag::read(alloc, cells.bytes(2 * pair), cells.bytes(2 * pair + 1))?;
        tags.push(tag)?;
    }
    Ok(tags)
}

/// Tags of any texts.
fn any_tags(alloc: Global, cells: &Cells) -> Result<Vec<Tag>, AllocError> {
    let mut tags = Vec::new(alloc);
    for pair in 0..cells.len() / 2 {
        let key = Text::from_str(alloc, cells.text(2 * pair))?;
        let value = Text::from_str(alloc, cells.text(2 * pair + 1))?;
        tags.push(Tag { key, value })?;
    }
    Ok(tags)
}

/// The set of tags whose keys rise.
pub fn tags(alloc: Global, cells: &Cells) -> Result<String, Fault> {
    let set = TagSet::from_tags(read_tags(alloc, cells)?)?;
    let copy = set.clone()?;
    Ok(set_text(alloc, &copy)?)
}

/// The set of tags in any order.
pub fn pairs(alloc: Global, cells: &Cells) -> Result<String, Fault> {
    let set = TagSet::from_pairs(any_tags(alloc, cells)?)?;
    Ok(set_text(alloc, &set)?)
}

pub fn no_tags(alloc: Global) -> Result<String, Fault> {
    Ok(set_text(alloc, &TagSet::none(alloc))?)
}

/// The set of a web form's pairs.
pub fn query(alloc: Global, cells: &Cells) -> Result<String, Fault> {
    let set = TagSet::read_query(alloc, cells.bytes(0))?;
    Ok(set_text(alloc, &set)?)
}

fn pair_text(alloc: Global, name: &Bytes, value: &Bytes) -> Result<String, AllocError> {
    let name = name.as_slice().escape_ascii();
    let value = value.as_slice().escape_ascii();
    format!(in alloc; "{name}={value}")
}

/// The pairs of a web form.
pub fn form(alloc: Global, cells: &Cells) -> Result<String, Fault> {
    let mut text = String::new(alloc);
    for (name, value) in &form_pairs(alloc, cells.bytes(0))? {
        add(&mut text, ", ", pair_text(alloc, name, value)?.as_str())?;
    }
    Ok(text)
}

/// What an ARN names, and the ARN printed.
fn arn_text(alloc: Global, arn: &Arn) -> Result<String, AllocError> {
    let kind = match arn {
        Arn::Bucket(_) => "bucket",
        Arn::Object(_, _) => "object",
    };
    let text = arn.print(alloc)?;
    format!(in alloc; "{kind} {text}")
}

pub fn arn(alloc: Global, cells: &Cells) -> Result<String, Fault> {
    let arn = Arn::read(alloc, cells.text(0))?;
    let text = arn_text(alloc, &arn);
    drop(arn);
    Ok(text?)
}

/// A version's id: its region and index, and the id printed.
pub fn id(alloc: Global, cells: &Cells) -> Result<String, Fault> {
    let Some(id) = VersionId::read(cells.bytes(0)) else {
        return owned(alloc, "none");
    };
    let mut bytes = [0; 18];
    id.print(&mut bytes);
    let text = bytes.escape_ascii();
    let region = id.region;
    let index = id.index;
    Ok(format!(in alloc; "region {region}, index {index}, {text}")?)
}
