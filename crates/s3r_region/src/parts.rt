//! What every kind of effect says.

ghost use Rattle.std.specs.Prelude.{◌≡◌};
ghost use Rattle.s3r_history.specs.Carried.{source_of, target_of, key_of, id_of, is_change, has_hold};
ghost use Rattle.s3r_history.specs.Past.{carried_n};

use s3r_names::{BucketName, Bytes, Key, VersionId};
use s3r_record::Effect;

/// The bucket that it is from.
pub(crate) fn source_of<B>(effect: &Effect<B>) -> &BucketName
    ensures { result.now ≡ source_of effect.now }
{
    match effect {
        Effect::Replica { from, .. }
        | Effect::Marker { from, .. }
        | Effect::Tags { from, .. }
        | Effect::Hold { from, .. } => from,
    }
}

/// The bucket that it goes to.
pub(crate) fn target_of<B>(effect: &Effect<B>) -> &BucketName
    ensures { result.now ≡ target_of effect.now }
{
    match effect {
        Effect::Replica { to, .. }
        | Effect::Marker { to, .. }
        | Effect::Tags { to, .. }
        | Effect::Hold { to, .. } => to,
    }
}

pub(crate) fn key_of<B>(effect: &Effect<B>) -> &Key
    ensures { result.now ≡ key_of effect.now }
{
    match effect {
        Effect::Replica { key, .. }
        | Effect::Marker { key, .. }
        | Effect::Tags { key, .. }
        | Effect::Hold { key, .. } => key,
    }
}

pub(crate) fn id_of<B>(effect: &Effect<B>) -> VersionId
    ensures { result ≡ id_of effect.now }
{
    match effect {
        Effect::Replica { id, .. }
        | Effect::Marker { id, .. }
        | Effect::Tags { id, .. }
        | Effect::Hold { id, .. } => *id,
    }
}

/// Whether it changes a version that is there.
pub(crate) fn is_change<B>(effect: &Effect<B>) -> bool
    ensures { result ≡ is_change effect.now }
{
    match effect {
        Effect::Replica { .. } | Effect::Marker { .. } => false,
        Effect::Tags { .. } | Effect::Hold { .. } => true,
    }
}

/// Whether its hold is ON.
pub(crate) fn has_hold<B>(effect: &Effect<B>) -> bool
    ensures { result ≡ has_hold effect.now }
{
    match effect {
        Effect::Replica { hold, .. } | Effect::Hold { hold, .. } => *hold,
        Effect::Marker { .. } | Effect::Tags { .. } => false,
    }
}

/// The greatest number of the clock that it carries.
pub(crate) fn carried_n(effect: &Effect<Bytes>) -> u64
    ensures { result ≡ carried_n effect.now }
{
    match effect {
        Effect::Replica {
            n,
            tags_stamp,
            hold_stamp,
            ..
        } => (*n).max(tags_stamp.n.max(hold_stamp.n)),
        Effect::Marker { n, .. } => *n,
        Effect::Tags { stamp, .. } | Effect::Hold { stamp, .. } => stamp.n,
    }
}
