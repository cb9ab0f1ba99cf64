//! The spellings of the commands about a bucket.

ghost use Rattle.std.specs.Prelude.{◌≡◌, ◌++◌, OnOk};
ghost use Rattle.s3r_record.specs.Spelling.{spelling, IsCommand};
ghost use Rattle.s3r_record.specs.declared.command.Command.{Command};

use crate::command::Command;
use crate::kinds;
use crate::writing::{write_flag, write_text};
use s3r_names::BucketName;
use std::alloc::AllocError;

pub(crate) fn write_create_bucket(
    out: &mut Vec<u8>,
    name: &BucketName,
    locked: bool,
) -> Result<(), AllocError>
    ensures spelled { OnOk result (out.new.items ≡ out.old.items ++ spelling (Command.CreateBucket name.now locked)) }
    ensures fits { OnOk result (IsCommand (Command.CreateBucket name.now locked)) }
{
    out.push(kinds::CREATE_BUCKET)?;
    write_text(out, name.as_bytes())?;
    write_flag(out, locked)
}

pub(crate) fn write_delete_bucket(out: &mut Vec<u8>, name: &BucketName) -> Result<(), AllocError>
    ensures spelled { OnOk result (out.new.items ≡ out.old.items ++ spelling (Command.DeleteBucket name.now)) }
    ensures fits { OnOk result (IsCommand (Command.DeleteBucket name.now)) }
{
    out.push(kinds::DELETE_BUCKET)?;
    write_text(out, name.as_bytes())
}

pub(crate) fn write_set_versioning(
    out: &mut Vec<u8>,
    name: &BucketName,
    enabled: bool,
) -> Result<(), AllocError>
    ensures spelled { OnOk result (out.new.items ≡ out.old.items ++ spelling (Command.SetVersioning name.now enabled)) }
    ensures fits { OnOk result (IsCommand (Command.SetVersioning name.now enabled)) }
{
    out.push(kinds::SET_VERSIONING)?;
    write_text(out, name.as_bytes())?;
    write_flag(out, enabled)
}
