//! Effects, as they are carried to their regions.
ghost use Rattle.std.specs.Prelude.{◌≡◌, [], IsTrue, IfOk, OnOk, unwrap_or};
ghost use Rattle.s3r_names.specs.Bucket.{is_bucket_name};
ghost use Rattle.s3r_names.specs.Key.{is_key};
ghost use Rattle.s3r_names.specs.Class.{is_class_name};
ghost use Rattle.s3r_names.specs.Tags.{is_tag_set};
ghost use Rattle.s3r_record.specs.declared.effect.Effect.{Effect};
ghost use Rattle.s3r_record.specs.Spelling.{IsEffect, EffectMeetsLimits};
ghost use Rattle.s3r_history.specs.Carried.{source_of, target_of, key_of, id_of};
ghost use Rattle.s3r_store.specs.Pending.{body_of};

use s3r_names::{BucketName, Bytes, ClassName, Kept, Key, Stamp, TagSet, VersionId};
use s3r_record::Effect;
use std::alloc::AllocError;

/// What every effect begins with.
#[derive(Drop)]
struct Front {
    from: BucketName,
    to: BucketName,
    key: Key,
    id: VersionId,
}

/// What a version is labelled with.
#[derive(Drop)]
struct Labels {
    tags: TagSet,
    class: ClassName,
}

fn front_by(
    from: &BucketName,
    to: &BucketName,
    key: &Key,
    id: VersionId,
) -> Result<Front, AllocError>
    ensures same { IfOk result (λ front. front ≡ record { from = from.now; to = to.now; key = key.now; id = id }) }
    ensures named { OnOk result (IsTrue (is_bucket_name from.now) × IsTrue (is_bucket_name to.now) × IsTrue (is_key key.now)) }
{
    let (_, _, _) = (from.as_str(), to.as_str(), key.as_str());
    Ok(Front {
        from: from.clone()?,
        to: to.clone()?,
        key: key.clone()?,
        id,
    })
}

fn front_of(effect: &Effect<Kept>) -> Result<Front, AllocError>
    ensures same { IfOk result (λ front. front ≡ record {
      from = source_of effect.now;
      to = target_of effect.now;
      key = key_of effect.now;
      id = id_of effect.now;
    }) }
    ensures named { OnOk result
        (IsTrue (is_bucket_name (source_of effect.now)) × IsTrue (is_bucket_name (target_of effect.now)) × IsTrue (is_key (key_of effect.now))) }
{
    match effect {
        Effect::Replica {
            from,
            to,
            key,
            id,
            ..
        }
        | Effect::Marker {
            from,
            to,
            key,
            id,
            ..
        }
        | Effect::Tags {
            from,
            to,
            key,
            id,
            ..
        }
        | Effect::Hold {
            from,
            to,
            key,
            id,
            ..
        } => front_by(from, to, key, *id),
    }
}

fn tags_of(tags: &TagSet) -> Result<TagSet, AllocError>
    ensures same { IfOk result (λ copy. copy ≡ tags.now) }
    ensures named { OnOk result (IsTrue (is_tag_set tags.now)) }
{
    let _ = tags.as_slice();
    tags.clone()
}

fn labels_of(tags: &TagSet, class: &ClassName) -> Result<Labels, AllocError>
    ensures same { IfOk result (λ labels. labels ≡ record { tags = tags.now; class = class.now }) }
    ensures named { OnOk result (IsTrue (is_tag_set tags.now) × IsTrue (is_class_name class.now)) }
{
    let _ = class.as_bytes();
    Ok(Labels {
        tags: tags_of(tags)?,
        class: class.clone()?,
    })
}

fn marker(front: Front, n: u64) -> Effect<Bytes>
    ensures { result ≡ Effect.Marker front.from front.to front.key front.id n }
{
    Effect::Marker {
        from: front.from,
        to: front.to,
        key: front.key,
        id: front.id,
        n,
    }
}

fn new_tags(front: Front, tags: TagSet, stamp: Stamp) -> Effect<Bytes>
    ensures { result ≡ Effect.Tags front.from front.to front.key front.id tags stamp }
{
    Effect::Tags {
        from: front.from,
        to: front.to,
        key: front.key,
        id: front.id,
        tags,
        stamp,
    }
}

fn new_hold(front: Front, hold: bool, stamp: Stamp) -> Effect<Bytes>
    ensures { result ≡ Effect.Hold front.from front.to front.key front.id hold stamp }
{
    Effect::Hold {
        from: front.from,
        to: front.to,
        key: front.key,
        id: front.id,
        hold,
        stamp,
    }
}

/// An effect with the bytes of its body.
pub(crate) fn carried(effect: &Effect<Kept>, bytes: Bytes) -> Result<Effect<Bytes>, AllocError>
    requires { bytes ≡ body_of effect.now }
    ensures same { IfOk result (λ carried. carried ≡ effect.now) }
    ensures named { OnOk result (EffectMeetsLimits effect.now → IsEffect effect.now) }
{
    let front = front_of(effect)?;
    match effect {
        Effect::Replica {
            n,
            tags,
            tags_stamp,
            hold,
            hold_stamp,
            class,
            ..
        } => {
            let labels = labels_of(tags, class)?;
            Ok(Effect::Replica {
                from: front.from,
                to: front.to,
                key: front.key,
                id: front.id,
                n: *n,
                tags: labels.tags,
                tags_stamp: *tags_stamp,
                hold: *hold,
                hold_stamp: *hold_stamp,
                class: labels.class,
                body: bytes,
            })
        }
        Effect::Marker { n, .. } => Ok(marker(front, *n)),
        Effect::Tags { tags, stamp, .. } => Ok(new_tags(front, tags_of(tags)?, *stamp)),
        Effect::Hold { hold, stamp, .. } => Ok(new_hold(front, *hold, *stamp)),
    }
}

/// A share of an effect's body, where it has one.
pub(crate) fn share_of(effect: &Effect<Kept>) -> Result<Option<Kept>, AllocError>
    ensures { IfOk result (λ body. unwrap_or body [] ≡ body_of effect.now) }
{
    match effect {
        Effect::Replica { body, .. } => Ok(Some(body.clone()?)),
        Effect::Marker { .. } | Effect::Tags { .. } | Effect::Hold { .. } => Ok(None),
    }
}
