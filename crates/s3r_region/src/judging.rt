//! What an effect comes to at its bucket.

ghost use Rattle.std.specs.Prelude.{◌≡◌, ◌||◌, ◌&&◌, Some, is_none};
ghost use Rattle.s3r_versions.specs.Lookup.{find_version};
ghost use Rattle.s3r_versions.specs.Removed.{was_removed};
ghost use Rattle.s3r_history.specs.Carried.{is_change, key_of, id_of};
ghost use Rattle.s3r_history.specs.Judging.{is_ahead, judged};
ghost use Rattle.s3r_region.specs.After.{told_by};

use crate::Bucket;
use crate::parts::{has_hold, id_of, is_change, key_of};
use s3r_names::{Bytes, Outcome, Reason, VersionId};
use s3r_record::Effect;

/// Whether the id is one that this region's first commands didn't give.
fn is_ahead(region: u8, commands: u64, id: VersionId) -> bool
    ensures { result ≡ is_ahead region commands id }
{
    id.region == region && commands < id.index
}

/// Whether the effect's version was removed from the bucket: by its id, or by a history that hasn't come to it yet.
fn is_gone(bucket: &Bucket, region: u8, commands: u64, id: VersionId) -> bool
    ensures { result ≡ (was_removed id bucket.now.rows.removed || is_ahead region commands id) }
{
    bucket.rows.was_removed(id) || is_ahead(region, commands, id)
}

/// Whether the effect changes a version that isn't there.
fn is_missing(bucket: &Bucket, effect: &Effect<Bytes>) -> bool
    ensures { result ≡ (is_change effect.now && is_none (find_version (key_of effect.now) (id_of effect.now) bucket.now.rows.rows)) }
{
    is_change(effect) && bucket.rows.find(key_of(effect), id_of(effect)).is_none()
}

/// What the effect comes to at its bucket, in this region after so many commands.
pub(crate) fn judged(bucket: &Bucket, region: u8, commands: u64, effect: &Effect<Bytes>) -> Outcome
    ensures { result ≡ judged region commands effect.now (Some (told_by bucket.now)) }
{
    if !bucket.enabled {
        return Outcome::Refused(Reason::DestinationSuspended);
    }
    if is_gone(bucket, region, commands, id_of(effect)) {
        return Outcome::Refused(Reason::VersionRemoved);
    }
    if is_missing(bucket, effect) {
        return Outcome::Refused(Reason::NoSuchVersion);
    }
    if has_hold(effect) && !bucket.locked {
        return Outcome::Refused(Reason::DestinationNotLocked);
    }
    Outcome::Applied
}
