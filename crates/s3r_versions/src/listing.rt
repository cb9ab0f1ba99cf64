//! A bucket's versions, page by page.

ghost use Rattle.std.specs.Prelude.{◌≡◌, ◌<◌, IsTrue, IfOk, IfSome, Some, None, is_some, option_copied, filter, drop, length, position};
ghost use Rattle.std.specs.List.{HoldsAt};
ghost use Rattle.std.specs.Ordering.{nat_cmp, is_lt};
ghost use Rattle.std.specs.Cmp.Lexicographic.{slice_cmp};
ghost use Rattle.s3r_versions.specs.Order.{is_listed};
ghost use Rattle.s3r_versions.specs.Lookup.{has_each_once, is_latest, is_version};
ghost use Rattle.s3r_versions.specs.Listing.{has_prefix, is_version_there, is_place_there, is_behind, is_after, entry_of, page_of};

use crate::Row;
use crate::row::place_of_version;
use s3r_names::{ClassName, Key, VersionId};
use std::alloc::{AllocError, Global};
use std::marker::Model;
use thiserror::Error;

/// A place in a listing: behind all versions of keys up to this one, or behind the version of the key that is named.
#[derive(Debug, Drop)]
pub struct ListPosition {
    pub key: Key,
    pub id: Option<VersionId>,
}

/// A version as a listing shows it.
#[derive(Debug, Drop)]
pub struct Listed {
    pub key: Key,
    pub id: VersionId,
    /// No version of the key is later.
    pub latest: bool,
    pub marker: bool,
    pub length: u32,
    pub class: ClassName,
}

/// Versions in the listing order, seen as their list.
#[derive(Debug, Drop)]
pub struct Entries {
    entries: Vec<Listed>,
}

impl Model for Entries {
    ghost use Rattle.std.specs.Prelude.{List};
    ghost use Rattle.s3r_versions.specs.declared.listing.Listed.{Listed};

    ghost Value = { List Listed };

    ghost view = { λ object. object.entries.items };
}

impl Entries {
    pub fn as_slice(&self) -> &[Listed]
        ensures { result.now ≡ self.now }
    {
        self.entries.as_slice()
    }

    pub fn into_vec(self) -> Vec<Listed>
        ensures { result.items ≡ self }
    {
        self.entries
    }
}

/// A page of a listing.
#[derive(Debug, Drop)]
pub struct Listing {
    pub entries: Entries,
    /// More versions follow.
    pub truncated: bool,
}

/// Why nothing is listed.
#[derive(Clone, Copy, Debug, PartialEq, Eq, Error)]
pub enum ListFault {
    #[error("the version that the place names isn't there")]
    NoSuchVersion,
    #[error("out of memory")]
    OutOfMemory,
}

impl From<AllocError> for ListFault {
    ghost use Rattle.s3r_versions.specs.declared.listing.ListFault.TheVariants.{OutOfMemory};

    ghost from_gives = { λ _ fault. fault ≡ OutOfMemory };

    fn from(_error: AllocError) -> ListFault {
        ListFault::OutOfMemory
    }
}

/// The first row of a key above this one.
fn place_above<B>(rows: &[Row<B>], key: &Key) -> Option<usize>
    ensures { result ≡ position (λ row. is_lt (slice_cmp nat_cmp key.now row.key)) rows.now }
{
    rows.iter()
        .position(|row| key.as_bytes().cmp(row.key.as_bytes()).is_lt())
}

/// Where the rows of keys up to this one end.
fn end_of_key<B>(rows: &[Row<B>], key: &Key) -> usize
    requires { IsTrue (is_listed rows.now) }
    ensures { drop result rows.now ≡ filter (is_behind key.now None rows.now) rows.now }
{
    place_above(rows, key).unwrap_or(rows.len())
}

/// Where the rows up to the version end. None: it isn't there.
fn end_of_version<B>(rows: &[Row<B>], key: &Key, id: VersionId) -> Option<usize>
    requires listed { IsTrue (is_listed rows.now) }
    requires once { IsTrue (has_each_once rows.now) }
    ensures there { is_some result ≡ is_version_there key.now (Some id) rows.now }
    ensures rest { IfSome result (λ end. drop end rows.now ≡ filter (is_behind key.now (Some id) rows.now) rows.now) }
{
    let place = place_of_version(rows, key, id)?;
    Some(place + 1)
}

fn end_of_place<B>(rows: &[Row<B>], place: &ListPosition) -> Option<usize>
    requires listed { IsTrue (is_listed rows.now) }
    requires once { IsTrue (has_each_once rows.now) }
    ensures there { is_some result ≡ is_version_there place.now.key place.now.id rows.now }
    ensures rest { IfSome result (λ end. drop end rows.now ≡ filter (is_behind place.now.key place.now.id rows.now) rows.now) }
{
    match place.id {
        Some(id) => end_of_version(rows, &place.key, id),
        None => Some(end_of_key(rows, &place.key)),
    }
}

/// Where the rows up to the place end. None: the version that it names isn't there.
pub(crate) fn start_after<B>(rows: &[Row<B>], after: Option<&ListPosition>) -> Option<usize>
    requires listed { IsTrue (is_listed rows.now) }
    requires once { IsTrue (has_each_once rows.now) }
    ensures there { is_some result ≡ is_place_there (option_copied after.entry) rows.now }
    ensures rest { IfSome result (λ start. drop start rows.now ≡ filter (is_after (option_copied after.entry) rows.now) rows.now) }
{
    match after {
        Some(place) => end_of_place(rows, place),
        None => Some(0),
    }
}

fn has_prefix<B>(row: &Row<B>, prefix: &str) -> bool
    ensures { result ≡ has_prefix prefix.now row.now }
{
    row.key.as_bytes().starts_with(prefix.as_bytes())
}

/// Whether the row is the first of its key.
fn is_latest_at<B>(rows: &[Row<B>], place: usize) -> bool
    requires listed { IsTrue (is_listed rows.now) }
    requires inside { place < length rows.now }
    ensures { HoldsAt (λ row. result ≡ is_latest row.key rows.now row) rows.now place }
{
    place == 0 || rows[place - 1].key != rows[place].key
}

fn entry_at<B>(rows: &[Row<B>], place: usize) -> Result<Listed, AllocError>
    requires listed { IsTrue (is_listed rows.now) }
    requires inside { place < length rows.now }
    ensures { IfOk result (λ entry. HoldsAt (λ row. entry ≡ entry_of rows.now row) rows.now place) }
{
    let row = &rows[place];
    Ok(Listed {
        key: row.key.clone()?,
        id: row.id,
        latest: is_latest_at(rows, place),
        marker: row.marker,
        length: row.length,
        class: row.class.clone()?,
    })
}

/// The first rows with the prefix from a place on.
pub(crate) fn page_from<B>(
    alloc: Global,
    rows: &[Row<B>],
    start: usize,
    prefix: &str,
    limit: usize,
) -> Result<Listing, AllocError>
    requires listed { IsTrue (is_listed rows.now) }
    ensures { IfOk result (λ page. page ≡ page_of limit rows.now (filter (has_prefix prefix.now) (drop start rows.now))) }
{
    let mut entries = Vec::new(alloc);
    for place in start..rows.len() {
        if !has_prefix(&rows[place], prefix) {
            continue;
        }
        if entries.len() == limit {
            return Ok(Listing {
                entries: Entries { entries },
                truncated: true,
            });
        }
        entries.push(entry_at(rows, place)?)?;
    }
    Ok(Listing {
        entries: Entries { entries },
        truncated: false,
    })
}
