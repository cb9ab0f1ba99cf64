//! The answers that list versions.

use crate::answers::{answer_text, id_of, status_named};
use crate::escape::unescaped;
use crate::row::{RowFault, first_cell, first_word};
use s3r_desk::{Answer, Listing, Statuses};
use s3r_names::{ClassName, Key, NameFault, Stamp, Status, TagSet, VersionId};
use s3r_versions::{Row, Rows};
use std::alloc::{AllocError, Global};

/// A version's length, which a marker has none of.
fn length_of(cell: &str) -> Result<Option<u32>, RowFault> {
    if cell == "marker" {
        return Ok(None);
    }
    Ok(Some(cell.parse::<u32>()?))
}

fn row_of(
    alloc: Global,
    key: &[u8],
    id: VersionId,
    length: Option<u32>,
) -> Result<Row<u8>, NameFault> {
    let stamp = Stamp {
        n: id.index,
        region: id.region,
        index: id.index,
    };
    Ok(Row {
        key: Key::read(alloc, key)?,
        id,
        n: id.index,
        place: id.index,
        marker: length.is_none(),
        body: 0,
        length: length.unwrap_or(0),
        class: ClassName::standard(alloc)?,
        tags: TagSet::none(alloc),
        tags_stamp: stamp,
        hold: false,
        hold_stamp: stamp,
        origin: None,
    })
}

fn add_row(rows: &mut Rows<u8>, row: Row<u8>) -> Result<(), RowFault> {
    match rows.find(&row.key, row.id) {
        None => Ok(rows.add(row)?),
        Some(_) => Err(RowFault::NoRow),
    }
}

/// A version is `LENGTH KEY REGION INDEX`.
fn add_version(alloc: Global, rows: &mut Rows<u8>, cell: &str) -> Result<(), RowFault> {
    let (length, cell) = first_word(cell);
    let (key, id) = first_word(cell);
    let length = length_of(length)?;
    let id = id_of(id)?;
    let key = unescaped(alloc, key)?;
    add_row(rows, row_of(alloc, &key, id, length)?)
}

fn rows_of(alloc: Global, cells: &str) -> Result<Rows<u8>, RowFault> {
    let mut rows = Rows::new(alloc);
    for cell in cells.split(" | ") {
        if !cell.is_empty() {
            add_version(alloc, &mut rows, cell)?;
        }
    }
    Ok(rows)
}

fn push_status(statuses: &mut Vec<Status>, status: Status) -> Result<(), AllocError> {
    statuses.push(status)?;
    Ok(())
}

/// Statuses by their names, `-` standing for none.
fn statuses_of(alloc: Global, cell: &str) -> Result<Statuses, RowFault> {
    let mut statuses = Vec::new(alloc);
    for name in cell.split(' ') {
        if name != "-" {
            push_status(&mut statuses, status_named(name)?)?;
        }
    }
    Ok(Statuses::from_vec(statuses))
}

/// The first page of a bucket with these versions.
fn page_of(alloc: Global, limit: usize, versions: &str) -> Result<Listing, RowFault> {
    let rows = rows_of(alloc, versions)?;
    let page = rows.list(alloc, "", None, limit.max(1));
    drop(rows);
    page.map_err(|_| RowFault::OutOfMemory)
}

/// `listing | LIMIT | STATUS .. | VERSION | ..`: the first page of a bucket with these versions, and the statuses of
/// its entries.
pub fn listing(alloc: Global, cells: &str) -> Result<String, RowFault> {
    let (limit, cells) = first_cell(cells);
    let (statuses, versions) = first_cell(cells);
    let limit = limit.parse::<usize>()?;
    let statuses = statuses_of(alloc, statuses)?;
    let listing = page_of(alloc, limit, versions)?;
    answer_text(alloc, "-", Ok(Answer::Listing { listing, statuses }))
}
