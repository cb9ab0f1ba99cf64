//! A bucket's versions, listed.
ghost use Rattle.std.specs.Prelude.{◌≡◌, ◌≤◌, IfOk, length};
ghost use Rattle.s3r_desk.specs.Steps.{FitsIn, at_location, location, page};
ghost use Rattle.s3r_desk.specs.Steps as asked;
ghost use Rattle.s3r_desk.specs.Lookups.{views_of, statuses_of};

use crate::finding::{location_of, status_at};
use crate::planning::{Plan, refuses};
use crate::{Answer, Statuses};
use s3r_history::Refusal;
use s3r_names::{BucketName, Text};
use s3r_store::Store;
use s3r_versions::{ListFault, ListPosition, Listed, Listing};
use std::alloc::{AllocError, Global};

// How far the replication of the versions of a listing is.
fn statuses_of(
    alloc: Global,
    stores: &[Store],
    region: usize,
    name: &BucketName,
    entries: &[Listed],
) -> Result<Statuses, AllocError>
    ensures { IfOk result (λ statuses. statuses ≡ asked.statuses_of (statuses_of stores.now region name.now) entries.now) }
{
    let mut statuses = Vec::new(alloc);
    for entry in entries {
        statuses.push(status_at(stores, region, name, &entry.key, entry.id))?;
    }
    Ok(Statuses::from_vec(statuses))
}

// The listing with the statuses of its versions.
fn listed(
    alloc: Global,
    stores: &[Store],
    region: usize,
    name: &BucketName,
    listing: Listing,
) -> Result<Plan, AllocError>
    ensures { IfOk result (λ p. p ≡ asked.listed (statuses_of stores.now region name.now) listing) }
{
    let statuses = statuses_of(alloc, stores, region, name, listing.entries.as_slice())?;
    Ok(Plan::Shows(Answer::Listing { listing, statuses }))
}

pub(crate) fn list_versions(
    alloc: Global,
    stores: &[Store],
    name: BucketName,
    prefix: Text,
    after: Option<ListPosition>,
    limit: usize,
) -> Result<Plan, AllocError>
    requires { 1 ≤ limit }
    ensures planned { IfOk result (λ p. p ≡ at_location (λ h. page (statuses_of stores.now h.region name) prefix after limit h.told)
        (location (length stores.now) (views_of stores.now) name)) }
    ensures fits { IfOk result (λ p. FitsIn (length stores.now) p) }
{
    let Some(location) = location_of(stores, &name) else {
        return Ok(refuses(Refusal::NoSuchBucket));
    };
    match location
        .bucket
        .rows
        .list(alloc, prefix.as_str(), after.as_ref(), limit)
    {
        Ok(listing) => listed(alloc, stores, location.region, &name, listing),
        Err(ListFault::NoSuchVersion) => Ok(refuses(Refusal::NoSuchVersion)),
        Err(ListFault::OutOfMemory) => Err(AllocError),
    }
}
