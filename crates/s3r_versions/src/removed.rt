//! The ids that were removed from a bucket.

ghost use Rattle.std.specs.Prelude.{◌≡◌, OnOk, OnErr, IsTrue, not, position};
ghost use Rattle.s3r_versions.specs.Order.{is_id_before, is_rising};
ghost use Rattle.s3r_versions.specs.Removed.{was_removed, with_id, is_id_above, removed_after};

use s3r_names::VersionId;
use std::alloc::AllocError;

fn is_id_before(first: VersionId, second: VersionId) -> bool
    ensures { result ≡ is_id_before first second }
{
    first.region < second.region || (first.region == second.region && first.index < second.index)
}

fn is_id_above(id: Option<VersionId>, other: VersionId) -> bool
    ensures { result ≡ is_id_above id other }
{
    match id {
        Some(id) => is_id_before(id, other),
        None => true,
    }
}

pub(crate) fn was_removed(id: VersionId, ids: &[VersionId]) -> bool
    ensures { result ≡ was_removed id ids.now }
{
    ids.iter().any(|other| *other == id)
}

pub(crate) fn removed_after(id: Option<VersionId>, ids: &[VersionId]) -> Option<VersionId>
    ensures { result ≡ removed_after id ids.now }
{
    ids.iter().copied().find(|other| is_id_above(id, *other))
}

/// The first id that isn't below this one.
fn place_of_id(id: VersionId, ids: &[VersionId]) -> Option<usize>
    ensures { result ≡ position (λ other. not (is_id_before other id)) ids.now }
{
    ids.iter().position(|other| !is_id_before(*other, id))
}

/// Puts the id in its place, where it isn't there.
pub(crate) fn keep_id(ids: &mut Vec<VersionId>, id: VersionId) -> Result<(), AllocError>
    requires { IsTrue (is_rising ids.old.items) }
    ensures ok { OnOk result (ids.new.items ≡ with_id id ids.old.items) }
    ensures err { OnErr result (ids.new.items ≡ ids.old.items) }
{
    if was_removed(id, ids) {
        return Ok(());
    }
    let place = place_of_id(id, ids).unwrap_or(ids.len());
    ids.insert(place, id)?;
    Ok(())
}
