//! The versions of a bucket, by a script of which each cell is a step.

use crate::cells::Cells;
use crate::fault::Fault;
use crate::steps::Step;
use crate::texts::{add, id_text, owned, set_text, truth};
use s3r_names::{ClassName, Stamp, TagSet};
use s3r_versions::{Listed, Listing, Row, Rows};
use std::alloc::{AllocError, Global};

/// The version of `KEY N ID`, which is written by the stamp of N and ID.
fn row_of(alloc: Global, step: &Step<'_>, marker: bool) -> Result<Row<u8>, Fault> {
    let stamp = step.stamp(2);
    let id = step.id(3);
    let key = step.key(alloc)?;
    let class = ClassName::standard(alloc)?;
    Ok(Row {
        key,
        id,
        n: stamp.n,
        place: stamp.index,
        marker,
        body: 0,
        length: 0,
        class,
        tags: TagSet::none(alloc),
        tags_stamp: stamp,
        hold: false,
        hold_stamp: stamp,
        origin: None,
    })
}

/// `add KEY N ID` or `marker KEY N ID`: puts a version in its place, unless it is there. Nothing is told.
fn added(
    alloc: Global,
    rows: &mut Rows<u8>,
    step: &Step<'_>,
    marker: bool,
) -> Result<String, Fault> {
    let row = row_of(alloc, step, marker)?;
    match rows.find(&row.key, row.id) {
        None => rows.add(row)?,
        Some(_) => {}
    }
    Ok(String::new(alloc))
}

/// `empty`: whether there is none.
fn is_empty(alloc: Global, rows: &Rows<u8>) -> Result<String, Fault> {
    truth(alloc, rows.is_empty())
}

/// `latest KEY`: the id of the key's latest version.
fn latest(alloc: Global, rows: &Rows<u8>, step: &Step<'_>) -> Result<String, Fault> {
    let key = step.key(alloc)?;
    let id = rows.latest(&key).map(|row| row.id);
    Ok(id_text(alloc, id)?)
}

fn stamp_text(alloc: Global, stamp: Stamp) -> Result<String, AllocError> {
    let n = stamp.n;
    let region = stamp.region;
    let index = stamp.index;
    format!(in alloc; "{n} {region}-{index}")
}

fn row_text(alloc: Global, row: Option<&Row<u8>>) -> Result<String, AllocError> {
    let Some(row) = row else {
        return String::from_str(alloc, "none");
    };
    let n = row.n;
    let hold = row.hold;
    let tags = set_text(alloc, &row.tags)?;
    let stamp = stamp_text(alloc, row.tags_stamp)?;
    format!(in alloc; "{n}, {hold}, {tags} of {stamp}")
}

/// `find KEY ID`: the clock's number of a version, its hold, its tags and their stamp.
fn found(alloc: Global, rows: &Rows<u8>, step: &Step<'_>) -> Result<String, Fault> {
    let key = step.key(alloc)?;
    Ok(row_text(alloc, rows.find(&key, step.id(2)))?)
}

fn entry_text(alloc: Global, entry: &Listed) -> Result<String, AllocError> {
    let key = entry.key.as_str();
    let id = id_text(alloc, Some(entry.id))?;
    let latest = if entry.latest { " latest" } else { "" };
    let marker = if entry.marker { " marker" } else { "" };
    format!(in alloc; "{key} {id}{latest}{marker}")
}

fn page_text(alloc: Global, page: &Listing) -> Result<String, AllocError> {
    let mut text = String::new(alloc);
    for entry in page.entries.as_slice() {
        add(&mut text, ", ", entry_text(alloc, entry)?.as_str())?;
    }
    let end = if page.truncated {
        "and more"
    } else {
        "no more"
    };
    add(&mut text, ", ", end)?;
    Ok(text)
}

/// `list LIMIT PREFIX KEY ID`: a page, of all versions where the prefix is `-`, and from the first on without a key.
fn listed(alloc: Global, rows: &Rows<u8>, step: &Step<'_>) -> Result<String, Fault> {
    let limit = step.number(1).max(1) as usize;
    let prefix = match step.word(2) {
        "-" => "",
        prefix => prefix,
    };
    let after = step.place(alloc, 3)?;
    let page = rows.list(alloc, prefix, after.as_ref(), limit)?;
    Ok(page_text(alloc, &page)?)
}

/// `remove KEY ID`: whether the version was there.
fn removed(alloc: Global, rows: &mut Rows<u8>, step: &Step<'_>) -> Result<String, Fault> {
    let key = step.key(alloc)?;
    truth(alloc, rows.remove(&key, step.id(2))?)
}

/// `was-removed ID`: whether a version with this id was removed.
fn was_removed(alloc: Global, rows: &Rows<u8>, step: &Step<'_>) -> Result<String, Fault> {
    truth(alloc, rows.was_removed(step.id(1)))
}

/// `removed-after ID`: the next removed id, the first for `-`.
fn removed_after(alloc: Global, rows: &Rows<u8>, step: &Step<'_>) -> Result<String, Fault> {
    Ok(id_text(alloc, rows.removed_after(step.optional_id(1)))?)
}

/// `hold KEY ID N ID HOLD`: writes the hold by the stamp of N and ID. Whether the version is there.
fn set_hold(alloc: Global, rows: &mut Rows<u8>, step: &Step<'_>) -> Result<String, Fault> {
    let key = step.key(alloc)?;
    let hold = step.word(5) == "true";
    truth(alloc, rows.set_hold(&key, step.id(2), hold, step.stamp(3)))
}

/// `tags KEY ID N ID FORM`: likewise the tags of a web form.
fn set_tags(alloc: Global, rows: &mut Rows<u8>, step: &Step<'_>) -> Result<String, Fault> {
    let key = step.key(alloc)?;
    let tags = TagSet::read_query(alloc, step.word(5).as_bytes())?;
    truth(alloc, rows.set_tags(&key, step.id(2), tags, step.stamp(3)))
}

fn done(alloc: Global, rows: &mut Rows<u8>, step: &Step<'_>) -> Result<String, Fault> {
    match step.word(0) {
        "add" => added(alloc, rows, step, false),
        "marker" => added(alloc, rows, step, true),
        "remove" => removed(alloc, rows, step),
        "hold" => set_hold(alloc, rows, step),
        "tags" => set_tags(alloc, rows, step),
        _ => told(alloc, rows, step),
    }
}

fn told(alloc: Global, rows: &Rows<u8>, step: &Step<'_>) -> Result<String, Fault> {
    match step.word(0) {
        "empty" => is_empty(alloc, rows),
        "latest" => latest(alloc, rows, step),
        "find" => found(alloc, rows, step),
        "list" => listed(alloc, rows, step),
        "was-removed" => was_removed(alloc, rows, step),
        "removed-after" => removed_after(alloc, rows, step),
        _ => owned(alloc, "no such step"),
    }
}

/// What the steps tell, from no versions on.
pub fn script(alloc: Global, cells: &Cells) -> Result<String, Fault> {
    let mut rows = Rows::new(alloc);
    let mut text = String::new(alloc);
    for place in 0..cells.len() {
        let step = Step::new(cells.text(place));
        let told = done(alloc, &mut rows, &step)?;
        if !told.is_empty() {
            add(&mut text, "; ", told.as_str())?;
        }
    }
    Ok(text)
}
