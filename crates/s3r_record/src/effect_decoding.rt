//! An effect, read from the front of what is left.

ghost use Rattle.s3r_record.specs.Reading.{Gives, unread, place};
ghost use Rattle.s3r_record.specs.ReadingEffects.{effect_front_at, stamped_tags_at, stamped_hold_at, replica_tail_at, replica_at, marker_copy_at, tags_copy_at, hold_copy_at, kind_fields_at, effect_at};

use crate::effect::Effect;
use crate::effect_kinds;
use crate::effect_parts::{EffectFront, ReplicaTail};
use crate::fault::RecordFault;
use crate::fields::{body_of, bucket_name_of, byte_of, class_of, flag_of, key_of, u64_of};
use crate::id_fields::{id_of, stamp_of};
use crate::reading::Rest;
use crate::tag_fields::tag_set_of;
use s3r_names::{Bytes, Stamp, TagSet};
use std::alloc::Global;

/// The most bytes of a copied body, which may be a report.
const BODY_LIMIT: usize = 15_582_912;

#[tactic(auto, unfolding(crate::specs::ReadingEffects::effect_front_at))]
fn front_of(alloc: Global, left: Rest<'_>) -> Result<(EffectFront, Rest<'_>), RecordFault>
    ensures { Gives (λ x. (x.0, unread x.1)) result (effect_front_at (unread left.entry)) }
{
    let (from, rest) = bucket_name_of(alloc, left)?;
    let (to, rest) = bucket_name_of(alloc, rest)?;
    let (key, rest) = key_of(alloc, rest)?;
    let (id, rest) = id_of(rest)?;
    Ok((EffectFront { from, to, key, id }, rest))
}

#[tactic(auto, unfolding(crate::specs::ReadingEffects::stamped_tags_at))]
fn stamped_tags_of(
    alloc: Global,
    left: Rest<'_>,
) -> Result<((TagSet, Stamp), Rest<'_>), RecordFault>
    ensures { Gives (λ x. (x.0, unread x.1)) result (stamped_tags_at (unread left.entry)) }
{
    let (tags, rest) = tag_set_of(alloc, left)?;
    let (stamp, rest) = stamp_of(rest)?;
    Ok(((tags, stamp), rest))
}

#[tactic(auto, unfolding(crate::specs::ReadingEffects::stamped_hold_at))]
fn stamped_hold_of(left: Rest<'_>) -> Result<((bool, Stamp), Rest<'_>), RecordFault>
    ensures { Gives (λ x. (x.0, unread x.1)) result (stamped_hold_at (unread left.entry)) }
{
    let (hold, rest) = flag_of(left)?;
    let (stamp, rest) = stamp_of(rest)?;
    Ok(((hold, stamp), rest))
}

#[tactic(auto, unfolding(crate::specs::ReadingEffects::replica_tail_at))]
fn tail_of(alloc: Global, left: Rest<'_>) -> Result<(ReplicaTail, Rest<'_>), RecordFault>
    ensures { Gives (λ x. (x.0, unread x.1)) result (replica_tail_at (unread left.entry)) }
{
    let (n, rest) = u64_of(left)?;
    let ((tags, tags_stamp), rest) = stamped_tags_of(alloc, rest)?;
    let ((hold, hold_stamp), rest) = stamped_hold_of(rest)?;
    let (class, rest) = class_of(alloc, rest)?;
    let (body, rest) = body_of(alloc, BODY_LIMIT, rest)?;
    let tail = ReplicaTail {
        n,
        tags,
        tags_stamp,
        hold,
        hold_stamp,
        class,
        body,
    };
    Ok((tail, rest))
}

#[tactic(auto, unfolding(crate::specs::ReadingEffects::replica_at))]
fn replica(alloc: Global, fields: Rest<'_>) -> Result<(Effect<Bytes>, Rest<'_>), RecordFault>
    ensures { Gives (λ x. (x.0, unread x.1)) result (replica_at (unread fields.entry)) }
{
    let (front, rest) = front_of(alloc, fields)?;
    let (tail, rest) = tail_of(alloc, rest)?;
    let effect = Effect::Replica {
        from: front.from,
        to: front.to,
        key: front.key,
        id: front.id,
        n: tail.n,
        tags: tail.tags,
        tags_stamp: tail.tags_stamp,
        hold: tail.hold,
        hold_stamp: tail.hold_stamp,
        class: tail.class,
        body: tail.body,
    };
    Ok((effect, rest))
}

#[tactic(auto, unfolding(crate::specs::ReadingEffects::marker_copy_at))]
fn marker_copy(alloc: Global, fields: Rest<'_>) -> Result<(Effect<Bytes>, Rest<'_>), RecordFault>
    ensures { Gives (λ x. (x.0, unread x.1)) result (marker_copy_at (unread fields.entry)) }
{
    let (front, rest) = front_of(alloc, fields)?;
    let (n, rest) = u64_of(rest)?;
    let effect = Effect::Marker {
        from: front.from,
        to: front.to,
        key: front.key,
        id: front.id,
        n,
    };
    Ok((effect, rest))
}

#[tactic(auto, unfolding(crate::specs::ReadingEffects::tags_copy_at))]
fn tags_copy(alloc: Global, fields: Rest<'_>) -> Result<(Effect<Bytes>, Rest<'_>), RecordFault>
    ensures { Gives (λ x. (x.0, unread x.1)) result (tags_copy_at (unread fields.entry)) }
{
    let (front, rest) = front_of(alloc, fields)?;
    let ((tags, stamp), rest) = stamped_tags_of(alloc, rest)?;
    let effect = Effect::Tags {
        from: front.from,
        to: front.to,
        key: front.key,
        id: front.id,
        tags,
        stamp,
    };
    Ok((effect, rest))
}

#[tactic(auto, unfolding(crate::specs::ReadingEffects::hold_copy_at))]
fn hold_copy(alloc: Global, fields: Rest<'_>) -> Result<(Effect<Bytes>, Rest<'_>), RecordFault>
    ensures { Gives (λ x. (x.0, unread x.1)) result (hold_copy_at (unread fields.entry)) }
{
    let (front, rest) = front_of(alloc, fields)?;
    let ((hold, stamp), rest) = stamped_hold_of(rest)?;
    let effect = Effect::Hold {
        from: front.from,
        to: front.to,
        key: front.key,
        id: front.id,
        hold,
        stamp,
    };
    Ok((effect, rest))
}

#[tactic(auto, unfolding(crate::specs::ReadingEffects::effect_at, crate::specs::ReadingEffects::kind_fields_at))]
pub(crate) fn effect_of(
    alloc: Global,
    left: Rest<'_>,
) -> Result<(Effect<Bytes>, Rest<'_>), RecordFault>
    ensures { Gives (λ x. (x.0, unread x.1)) result (effect_at (unread left.entry)) }
{
    let (kind, fields) = byte_of(u8::MAX, left)?;
    match kind {
        effect_kinds::REPLICA => replica(alloc, fields),
        effect_kinds::MARKER => marker_copy(alloc, fields),
        effect_kinds::TAGS => tags_copy(alloc, fields),
        effect_kinds::HOLD => hold_copy(alloc, fields),
        _ => Err(left.fault()),
    }
}
