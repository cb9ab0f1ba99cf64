//! The spellings of the commands about versions.

ghost use Rattle.std.specs.Prelude.{◌≡◌, ◌≤◌, ◌∷◌, ◌++◌, length, IsTrue, OnOk};
ghost use Rattle.s3r_names.specs.Bucket.{is_bucket_name};
ghost use Rattle.s3r_names.specs.Key.{is_key};
ghost use Rattle.s3r_names.specs.Version.{IsVersionId};
ghost use Rattle.s3r_record.specs.Fields.{text};
ghost use Rattle.s3r_record.specs.Spelling.{spelling, IsCommand};
ghost use Rattle.s3r_record.specs.declared.command.Command.{Command};

use crate::command::Command;
use crate::kinds;
use crate::writing::{write_body, write_class, write_flag, write_id, write_tags, write_text};
use s3r_names::{BucketName, Bytes, ClassName, Key, TagSet, VersionId};
use std::alloc::AllocError;

/// What every command about versions begins with.
fn write_front(
    out: &mut Vec<u8>,
    kind: u8,
    bucket: &BucketName,
    key: &Key,
) -> Result<(), AllocError>
    ensures spelled { OnOk result (out.new.items ≡ out.old.items ++ kind ∷ (text bucket.now ++ text key.now)) }
    ensures named { OnOk result (IsTrue (is_bucket_name bucket.now) × IsTrue (is_key key.now)) }
{
    out.push(kind)?;
    write_text(out, bucket.as_bytes())?;
    write_text(out, key.as_bytes())
}

pub(crate) fn write_put(
    out: &mut Vec<u8>,
    bucket: &BucketName,
    key: &Key,
    tags: &TagSet,
    hold: bool,
    class: &ClassName,
    body: &Bytes,
) -> Result<(), AllocError>
    requires { length body.now ≤ 4194304 }
    ensures spelled { OnOk result
        (out.new.items ≡ out.old.items ++ spelling (Command.Put bucket.now key.now tags.now hold class.now body.now)) }
    ensures fits { OnOk result (IsCommand (Command.Put bucket.now key.now tags.now hold class.now body.now)) }
{
    write_front(out, kinds::PUT, bucket, key)?;
    write_tags(out, tags)?;
    write_flag(out, hold)?;
    write_class(out, class)?;
    write_body(out, body.as_slice())
}

pub(crate) fn write_marker(
    out: &mut Vec<u8>,
    bucket: &BucketName,
    key: &Key,
) -> Result<(), AllocError>
    ensures spelled { OnOk result (out.new.items ≡ out.old.items ++ spelling (Command.Marker bucket.now key.now)) }
    ensures fits { OnOk result (IsCommand (Command.Marker bucket.now key.now)) }
{
    write_front(out, kinds::MARKER, bucket, key)
}

pub(crate) fn write_remove(
    out: &mut Vec<u8>,
    bucket: &BucketName,
    key: &Key,
    id: VersionId,
) -> Result<(), AllocError>
    requires { IsVersionId id }
    ensures spelled { OnOk result (out.new.items ≡ out.old.items ++ spelling (Command.Remove bucket.now key.now id)) }
    ensures fits { OnOk result (IsCommand (Command.Remove bucket.now key.now id)) }
{
    write_front(out, kinds::REMOVE, bucket, key)?;
    write_id(out, id)
}

pub(crate) fn write_set_tags(
    out: &mut Vec<u8>,
    bucket: &BucketName,
    key: &Key,
    id: VersionId,
    tags: &TagSet,
) -> Result<(), AllocError>
    requires { IsVersionId id }
    ensures spelled { OnOk result
        (out.new.items ≡ out.old.items ++ spelling (Command.SetTags bucket.now key.now id tags.now)) }
    ensures fits { OnOk result (IsCommand (Command.SetTags bucket.now key.now id tags.now)) }
{
    write_front(out, kinds::SET_TAGS, bucket, key)?;
    write_id(out, id)?;
    write_tags(out, tags)
}

pub(crate) fn write_set_hold(
    out: &mut Vec<u8>,
    bucket: &BucketName,
    key: &Key,
    id: VersionId,
    hold: bool,
) -> Result<(), AllocError>
    requires { IsVersionId id }
    ensures spelled { OnOk result
        (out.new.items ≡ out.old.items ++ spelling (Command.SetHold bucket.now key.now id hold)) }
    ensures fits { OnOk result (IsCommand (Command.SetHold bucket.now key.now id hold)) }
{
    write_front(out, kinds::SET_HOLD, bucket, key)?;
    write_id(out, id)?;
    write_flag(out, hold)
}
