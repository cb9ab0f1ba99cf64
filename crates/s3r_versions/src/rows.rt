//! A bucket's versions.

ghost use Rattle.std.specs.Prelude.{◌≡◌, ◌≤◌, ◌↔◌, [], false, IfOk, OnOk, OnErr, IsErrOf, IsTrue, is_some, option_copied, position, find, if◌then◌else◌};
ghost use Rattle.s3r_versions.specs.Order.{comes_before};
ghost use Rattle.s3r_versions.specs.Lookup.{is_of_key, find_version, latest};
ghost use Rattle.s3r_versions.specs.Contents.{with_row, without_version, on_version, with_tags, with_hold};
ghost use Rattle.s3r_versions.specs.Removed.{was_removed, with_id, removed_after};
ghost use Rattle.s3r_versions.specs.Listing.{listing, is_place_there};

use crate::Row;
use crate::listing::{ListFault, ListPosition, Listing, page_from, start_after};
use crate::removed::{keep_id, removed_after, was_removed};
use crate::row::{comes_before, is_of_key, is_version, place_of_version, write_hold, write_tags};
use s3r_names::{Key, Stamp, TagSet, VersionId};
use std::alloc::{AllocError, Global};
use std::marker::Model;

/// The rows of one bucket, and the ids that were removed from it.
#[derive(Debug, Drop)]
pub struct Rows<B> {
    rows: Vec<Row<B>>,
    removed: Vec<VersionId>,
}

impl<B> Model for Rows<B> {
    ghost use Rattle.s3r_versions.specs.Contents.{Contents};
    ghost use Rattle.std.specs.Prelude.{IsTrue};
    ghost use Rattle.s3r_versions.specs.Order.{is_listed, is_rising};
    ghost use Rattle.s3r_versions.specs.Lookup.{has_each_once};

    ghost Value = { Contents B };

    ghost view = { λ object. record { rows = object.rows.items; removed = object.removed.items } };

    ghost invariant = { λ object. IsTrue (is_listed object.rows.items) × IsTrue (has_each_once object.rows.items) × IsTrue (is_rising object.removed.items) };
}

impl<B> Rows<B> {
    pub fn new(alloc: Global) -> Rows<B>
        ensures rows { result.rows ≡ [] }
        ensures removed { result.removed ≡ [] }
    {
        Rows {
            rows: Vec::new(alloc),
            removed: Vec::new(alloc),
        }
    }

    pub fn is_empty(&self) -> bool
        ensures { IsTrue result ↔ (self.now.rows ≡ []) }
    {
        self.rows.is_empty()
    }

    /// The row of this key and id.
    pub fn find(&self, key: &Key, id: VersionId) -> Option<&Row<B>>
        ensures { option_copied result ≡ find_version key.now id self.now.rows }
    {
        self.rows.iter().find(|row| is_version(*row, key, id))
    }

    /// The row of the key that was written last.
    pub fn latest(&self, key: &Key) -> Option<&Row<B>>
        ensures { option_copied result ≡ latest key.now self.now.rows }
    {
        first_of_key(&self.rows, key)
    }

    /// Whether a version with this id was removed.
    pub fn was_removed(&self, id: VersionId) -> bool
        ensures { result ≡ was_removed id self.now.removed }
    {
        was_removed(id, &self.removed)
    }

    /// The least removed id above this one, or the least of all.
    pub fn removed_after(&self, id: Option<VersionId>) -> Option<VersionId>
        ensures { result ≡ removed_after id self.now.removed }
    {
        removed_after(id, &self.removed)
    }

    /// The first versions with the prefix after a place, in the listing order.
    pub fn list(
        &self,
        alloc: Global,
        prefix: &str,
        after: Option<&ListPosition>,
        limit: usize,
    ) -> Result<Listing, ListFault>
        requires { 1 ≤ limit }
        ensures ok { IfOk result (λ page. page ≡ listing prefix.now (option_copied after.entry) limit self.now.rows) }
        ensures missing { IsErrOf result ListFault.NoSuchVersion ↔ (is_place_there (option_copied after.entry) self.now.rows ≡ false) }
    {
        match start_after(&self.rows, after) {
            Some(start) => Ok(page_from(alloc, &self.rows, start, prefix, limit)?),
            None => Err(ListFault::NoSuchVersion),
        }
    }

    /// Writes the version's tags, unless those that it has are of as great a stamp; false where it isn't there.
    pub fn set_tags(&mut self, key: &Key, id: VersionId, tags: TagSet, stamp: Stamp) -> bool
        ensures there { result ≡ is_some (find_version key.now id self.old.rows) }
        ensures rows { self.new.rows ≡ on_version key.now id (with_tags stamp tags) self.old.rows }
        ensures removed { self.new.removed ≡ self.old.removed }
    {
        match place_of_version(&self.rows, key, id) {
            Some(place) => {
                write_tags(&mut self.rows[place], tags, stamp);
                true
            }
            None => false,
        }
    }

    /// Writes whether the version has a hold, unless what it has is of as great a stamp; false where it isn't there.
    pub fn set_hold(&mut self, key: &Key, id: VersionId, hold: bool, stamp: Stamp) -> bool
        ensures there { result ≡ is_some (find_version key.now id self.old.rows) }
        ensures rows { self.new.rows ≡ on_version key.now id (with_hold stamp hold) self.old.rows }
        ensures removed { self.new.removed ≡ self.old.removed }
    {
        match place_of_version(&self.rows, key, id) {
            Some(place) => {
                write_hold(&mut self.rows[place], hold, stamp);
                true
            }
            None => false,
        }
    }
}

impl<B: Drop> Rows<B> {
    /// Puts the row in its place.
    pub fn add(&mut self, row: Row<B>) -> Result<(), AllocError>
        requires { find_version row.key row.id self.old.rows ≡ None }
        ensures ok { OnOk result (self.new.rows ≡ with_row row self.old.rows) }
        ensures err { OnErr result (self.new.rows ≡ self.old.rows) }
        ensures removed { self.new.removed ≡ self.old.removed }
    {
        let place = place_of(&row, &self.rows).unwrap_or(self.rows.len());
        self.rows.insert(place, row)?;
        Ok(())
    }

    /// Takes the version out and keeps its id; false where it isn't there. Without memory all stays.
    pub fn remove(&mut self, key: &Key, id: VersionId) -> Result<bool, AllocError>
        ensures ok { IfOk result (λ there. there ≡ is_some (find_version key.now id self.old.rows)) }
        ensures rows { OnOk result (self.new.rows ≡ without_version key.now id self.old.rows) }
        ensures removed { OnOk result (self.new.removed ≡ (if is_some (find_version key.now id self.old.rows)
            then with_id id self.old.removed else self.old.removed)) }
        ensures err { OnErr result (self.new ≡ self.old) }
    {
        match place_of_version(&self.rows, key, id) {
            Some(place) => {
                keep_id(&mut self.removed, id)?;
                drop(self.rows.remove(place));
                Ok(true)
            }
            None => Ok(false),
        }
    }
}

fn first_of_key<'a, B>(rows: &'a [Row<B>], key: &Key) -> Option<&'a Row<B>>
    ensures { option_copied result ≡ find (is_of_key key.now) rows.now }
{
    rows.iter().find(|row| is_of_key(*row, key))
}

/// The first row that the new one comes before.
fn place_of<B>(row: &Row<B>, rows: &[Row<B>]) -> Option<usize>
    ensures { result ≡ position (comes_before row.now) rows.now }
{
    rows.iter().position(|other| comes_before(row, other))
}
