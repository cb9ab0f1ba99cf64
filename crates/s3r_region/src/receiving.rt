//! What a received effect changes.

ghost use Rattle.std.specs.Prelude.{◌≡◌, IfOk};
ghost use Rattle.s3r_record.specs.Spelling.{EffectMeetsLimits};
ghost use Rattle.s3r_history.specs.Carried.{target_of};
ghost use Rattle.s3r_history.specs.Deeds.{first_stamp};
ghost use Rattle.s3r_region.specs.Receives.{change_by};

use crate::change::Change;
use crate::version::{new_marker, new_version};
use s3r_names::{BucketName, Bytes, Kept, Stamp, VersionId};
use s3r_record::Effect;
use s3r_versions::Origin;
use std::alloc::{AllocError, Global};

/// When the version of this id was first written.
fn first_stamp(id: VersionId, n: u64) -> Stamp
    ensures { result ≡ first_stamp id n }
{
    Stamp {
        n,
        region: id.region,
        index: id.index,
    }
}

/// The bucket that an effect of a region goes to, and what it changes there. The command that receives it has this index.
pub(crate) fn change_by(
    alloc: Global,
    place: u64,
    region: u8,
    effect: Effect<Bytes>,
) -> Result<(BucketName, Change), AllocError>
    requires { EffectMeetsLimits effect }
    ensures { IfOk result (λ change. (change.0 ≡ target_of effect) × (change.1 ≡ change_by place region effect)) }
{
    match effect {
        Effect::Replica {
            from,
            to,
            key,
            id,
            n,
            tags,
            tags_stamp,
            hold,
            hold_stamp,
            class,
            body,
        } => {
            let body = Kept::new(alloc, body)?;
            let mut row = new_version(first_stamp(id, n), key, tags, hold, class, body);
            row.place = place;
            row.tags_stamp = tags_stamp;
            row.hold_stamp = hold_stamp;
            row.origin = Some(Origin {
                region,
                bucket: from,
            });
            Ok((to, Change::Receive(row)))
        }
        Effect::Marker {
            from,
            to,
            key,
            id,
            n,
        } => {
            let mut row = new_marker(alloc, first_stamp(id, n), key)?;
            row.place = place;
            row.origin = Some(Origin {
                region,
                bucket: from,
            });
            Ok((to, Change::Receive(row)))
        }
        Effect::Tags {
            to,
            key,
            id,
            tags,
            stamp,
            ..
        } => Ok((
            to,
            Change::Tags {
                key,
                id,
                tags,
                stamp,
            },
        )),
        Effect::Hold {
            to,
            key,
            id,
            hold,
            stamp,
            ..
        } => Ok((
            to,
            Change::Hold {
                key,
                id,
                hold,
                stamp,
            },
        )),
    }
}
