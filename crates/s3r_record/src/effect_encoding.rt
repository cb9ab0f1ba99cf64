//! The spelling of an effect.

ghost use Rattle.std.specs.Prelude.{◌≡◌, ◌≤◌, ◌∷◌, ◌++◌, length, IsTrue, OnOk};
ghost use Rattle.s3r_names.specs.Bucket.{is_bucket_name};
ghost use Rattle.s3r_names.specs.Key.{is_key};
ghost use Rattle.s3r_names.specs.Class.{is_class_name};
ghost use Rattle.s3r_names.specs.Tags.{is_tag_set};
ghost use Rattle.s3r_record.specs.Fields.{text, body, flag, tags_bytes, id_bytes, number_bytes, stamp_bytes, effect_bytes};
ghost use Rattle.s3r_record.specs.Spelling.{IsEffect, EffectMeetsLimits};

use crate::effect::Effect;
use crate::effect_kinds;
use crate::writing::{
    write_body, write_class, write_flag, write_id, write_number, write_stamp, write_tags,
    write_text,
};
use s3r_names::{BucketName, Bytes, ClassName, Key, Stamp, TagSet, VersionId};
use std::alloc::AllocError;

/// What every effect begins with.
fn write_front(
    out: &mut Vec<u8>,
    kind: u8,
    from: &BucketName,
    to: &BucketName,
    key: &Key,
    id: VersionId,
) -> Result<(), AllocError>
    ensures spelled { OnOk result
        (out.new.items ≡ out.old.items ++ kind ∷ (text from.now ++ text to.now ++ text key.now ++ id_bytes id)) }
    ensures named { OnOk result
        (IsTrue (is_bucket_name from.now) × IsTrue (is_bucket_name to.now) × IsTrue (is_key key.now)) }
{
    out.push(kind)?;
    write_text(out, from.as_bytes())?;
    write_text(out, to.as_bytes())?;
    write_text(out, key.as_bytes())?;
    write_id(out, id)
}

fn write_stamped_tags(out: &mut Vec<u8>, tags: &TagSet, stamp: Stamp) -> Result<(), AllocError>
    ensures spelled { OnOk result (out.new.items ≡ out.old.items ++ (tags_bytes tags.now ++ stamp_bytes stamp)) }
    ensures named { OnOk result (IsTrue (is_tag_set tags.now)) }
{
    write_tags(out, tags)?;
    write_stamp(out, stamp)
}

fn write_stamped_hold(out: &mut Vec<u8>, hold: bool, stamp: Stamp) -> Result<(), AllocError>
    ensures { OnOk result (out.new.items ≡ out.old.items ++ (flag hold ++ stamp_bytes stamp)) }
{
    write_flag(out, hold)?;
    write_stamp(out, stamp)
}

fn write_labels(
    out: &mut Vec<u8>,
    tags: &TagSet,
    tags_stamp: Stamp,
    hold: bool,
    hold_stamp: Stamp,
) -> Result<(), AllocError>
    ensures spelled { OnOk result
        (out.new.items ≡ out.old.items ++ (tags_bytes tags.now ++ stamp_bytes tags_stamp ++ flag hold ++ stamp_bytes hold_stamp)) }
    ensures named { OnOk result (IsTrue (is_tag_set tags.now)) }
{
    write_stamped_tags(out, tags, tags_stamp)?;
    write_stamped_hold(out, hold, hold_stamp)
}

fn write_contents(out: &mut Vec<u8>, class: &ClassName, bytes: &Bytes) -> Result<(), AllocError>
    requires { length bytes.now ≤ 15582912 }
    ensures spelled { OnOk result (out.new.items ≡ out.old.items ++ (text class.now ++ body bytes.now)) }
    ensures named { OnOk result (IsTrue (is_class_name class.now)) }
{
    write_class(out, class)?;
    write_body(out, bytes.as_slice())
}

pub(crate) fn write_effect(out: &mut Vec<u8>, effect: &Effect<Bytes>) -> Result<(), AllocError>
    requires { EffectMeetsLimits effect.now }
    ensures spelled { OnOk result (out.new.items ≡ out.old.items ++ effect_bytes effect.now) }
    ensures fits { OnOk result (IsEffect effect.now) }
{
    match effect {
        Effect::Replica {
            from,
            to,
            key,
            id,
            n,
            tags,
            tags_stamp,
            hold,
            hold_stamp,
            class,
            body,
        } => {
            write_front(out, effect_kinds::REPLICA, from, to, key, *id)?;
            write_number(out, *n)?;
            write_labels(out, tags, *tags_stamp, *hold, *hold_stamp)?;
            write_contents(out, class, body)
        }
        Effect::Marker {
            from,
            to,
            key,
            id,
            n,
        } => {
            write_front(out, effect_kinds::MARKER, from, to, key, *id)?;
            write_number(out, *n)
        }
        Effect::Tags {
            from,
            to,
            key,
            id,
            tags,
            stamp,
        } => {
            write_front(out, effect_kinds::TAGS, from, to, key, *id)?;
            write_stamped_tags(out, tags, *stamp)
        }
        Effect::Hold {
            from,
            to,
            key,
            id,
            hold,
            stamp,
        } => {
            write_front(out, effect_kinds::HOLD, from, to, key, *id)?;
            write_stamped_hold(out, *hold, *stamp)
        }
    }
}
