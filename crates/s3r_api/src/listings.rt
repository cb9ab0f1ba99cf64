//! The text of a page of a bucket's versions.

ghost use Rattle.std.specs.Prelude.{◌≡◌, not, Some, None, IfOk, option_copied, string_bytes, map, filter};
ghost use Rattle.std.specs.List.{zip};
ghost use Rattle.serde_json.specs.Data.{array};
ghost use Rattle.serde_json.specs.View.{view, items_of};
ghost use Rattle.serde_json.specs.Written.{compact_text};
ghost use Rattle.s3r_api.specs.Listings.{marker_with, marker_data, version_with, version_data, cut_after, page_data, listing_data};

use crate::ids::id_text;
use crate::replication::status_word;
use s3r_desk::{Listed, Listing, Statuses};
use s3r_names::Status;
use serde_json::{Value, json};
use std::alloc::{AllocError, Global};

fn marker_without_status(alloc: Global, entry: &Listed, id: &str) -> Result<Value, AllocError>
    ensures { IfOk result (λ value. view value ≡ marker_with entry.now None id.now) }
{
    json!(in alloc; {
        "IsLatest": entry.latest,
        "Key": entry.key.as_str(),
        "VersionId": id
    })
}

/// A marker whose status has this word.
fn marker_with_status(
    alloc: Global,
    entry: &Listed,
    word: &str,
    id: &str,
) -> Result<Value, AllocError>
    ensures { IfOk result (λ value. view value ≡ marker_with entry.now (Some word.now) id.now) }
{
    json!(in alloc; {
        "IsLatest": entry.latest,
        "Key": entry.key.as_str(),
        "ReplicationStatus": word,
        "VersionId": id
    })
}

fn marker_value(alloc: Global, entry: &Listed, status: Status) -> Result<Value, AllocError>
    ensures { IfOk result (λ value. view value ≡ marker_data (entry.now, status)) }
{
    let id = id_text(alloc, entry.id)?;
    match status_word(status) {
        Some(word) => marker_with_status(alloc, entry, word, id.as_str()),
        None => marker_without_status(alloc, entry, id.as_str()),
    }
}

fn version_without_status(alloc: Global, entry: &Listed, id: &str) -> Result<Value, AllocError>
    ensures { IfOk result (λ value. view value ≡ version_with entry.now None id.now) }
{
    json!(in alloc; {
        "IsLatest": entry.latest,
        "Key": entry.key.as_str(),
        "Size": entry.length,
        "StorageClass": entry.class.as_str(),
        "VersionId": id
    })
}

/// A version whose status has this word.
fn version_with_status(
    alloc: Global,
    entry: &Listed,
    word: &str,
    id: &str,
) -> Result<Value, AllocError>
    ensures { IfOk result (λ value. view value ≡ version_with entry.now (Some word.now) id.now) }
{
    json!(in alloc; {
        "IsLatest": entry.latest,
        "Key": entry.key.as_str(),
        "ReplicationStatus": word,
        "Size": entry.length,
        "StorageClass": entry.class.as_str(),
        "VersionId": id
    })
}

fn version_value(alloc: Global, entry: &Listed, status: Status) -> Result<Value, AllocError>
    ensures { IfOk result (λ value. view value ≡ version_data (entry.now, status)) }
{
    let id = id_text(alloc, entry.id)?;
    match status_word(status) {
        Some(word) => version_with_status(alloc, entry, word, id.as_str()),
        None => version_without_status(alloc, entry, id.as_str()),
    }
}

/// Entries as JSON, each kind in order.
#[derive(Drop)]
struct EntryValues {
    markers: Vec<Value>,
    versions: Vec<Value>,
}

/// Each entry with its status.
fn entry_values(
    alloc: Global,
    entries: &[Listed],
    statuses: &[Status],
) -> Result<EntryValues, AllocError>
    ensures markers { IfOk result (λ values. map view values.markers.items ≡ map marker_data
        (filter (λ shown. shown.0.marker) (zip entries.now statuses.now))) }
    ensures versions { IfOk result (λ values. map view values.versions.items ≡ map version_data
        (filter (λ shown. not shown.0.marker) (zip entries.now statuses.now))) }
{
    let mut markers = Vec::new(alloc);
    let mut versions = Vec::new(alloc);
    for (entry, status) in entries.iter().zip(statuses) {
        if entry.marker {
            markers.push(marker_value(alloc, entry, *status)?)?;
        } else {
            versions.push(version_value(alloc, entry, *status)?)?;
        }
    }
    Ok(EntryValues { markers, versions })
}

/// The entry behind which more follow.
fn cut_after(listing: &Listing) -> Option<&Listed>
    ensures { option_copied result ≡ cut_after listing.now }
{
    if listing.truncated {
        listing.entries.as_slice().last()
    } else {
        None
    }
}

/// A page with these markers and these versions.
fn page_value(
    alloc: Global,
    markers: Vec<Value>,
    versions: Vec<Value>,
    listing: &Listing,
) -> Result<Value, AllocError>
    ensures { IfOk result (λ value. view value ≡ page_data (array (items_of (map view markers.items)))
        (array (items_of (map view versions.items))) listing.now) }
{
    match cut_after(listing) {
        Some(entry) => {
            let id = id_text(alloc, entry.id)?;
            json!(in alloc; {
                "DeleteMarkers": markers,
                "IsTruncated": listing.truncated,
                "NextKeyMarker": entry.key.as_str(),
                "NextVersionIdMarker": id.as_str(),
                "Versions": versions
            })
        }
        None => json!(in alloc; {
            "DeleteMarkers": markers,
            "IsTruncated": listing.truncated,
            "Versions": versions
        }),
    }
}

fn listing_value(alloc: Global, listing: &Listing, statuses: &Statuses) -> Result<Value, AllocError>
    ensures { IfOk result (λ value. view value ≡ listing_data listing.now statuses.now) }
{
    let entries = listing.entries.as_slice();
    let EntryValues { markers, versions } = entry_values(alloc, entries, statuses.as_slice())?;
    page_value(alloc, markers, versions, listing)
}

/// The compact JSON text of a page: its delete markers, its versions and, where it is truncated, its last entry. Each
/// has the status that stands at its place.
pub fn listing_text(
    alloc: Global,
    listing: &Listing,
    statuses: &Statuses,
) -> Result<String, AllocError>
    ensures { IfOk result (λ text. string_bytes text ≡ compact_text (listing_data listing.now statuses.now)) }
{
    listing_value(alloc, listing, statuses)?.to_string(alloc)
}
