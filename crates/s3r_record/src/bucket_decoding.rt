//! The fields of the commands about a bucket.

ghost use Rattle.s3r_record.specs.Reading.{Gives, unread};
ghost use Rattle.s3r_record.specs.BucketCommands.{create_bucket_at, delete_bucket_at, set_versioning_at};

use crate::command::Command;
use crate::fault::RecordFault;
use crate::fields::{bucket_name_of, flag_of};
use crate::reading::Rest;
use std::alloc::Global;

#[tactic(auto, unfolding(crate::specs::BucketCommands::create_bucket_at))]
pub(crate) fn create_bucket(
    alloc: Global,
    fields: Rest<'_>,
) -> Result<(Command, Rest<'_>), RecordFault>
    ensures { Gives (λ x. (x.0, unread x.1)) result (create_bucket_at (unread fields.entry)) }
{
    let (name, rest) = bucket_name_of(alloc, fields)?;
    let (locked, rest) = flag_of(rest)?;
    Ok((Command::CreateBucket { name, locked }, rest))
}

#[tactic(auto, unfolding(crate::specs::BucketCommands::delete_bucket_at))]
pub(crate) fn delete_bucket(
    alloc: Global,
    fields: Rest<'_>,
) -> Result<(Command, Rest<'_>), RecordFault>
    ensures { Gives (λ x. (x.0, unread x.1)) result (delete_bucket_at (unread fields.entry)) }
{
    let (name, rest) = bucket_name_of(alloc, fields)?;
    Ok((Command::DeleteBucket { name }, rest))
}

#[tactic(auto, unfolding(crate::specs::BucketCommands::set_versioning_at))]
pub(crate) fn set_versioning(
    alloc: Global,
    fields: Rest<'_>,
) -> Result<(Command, Rest<'_>), RecordFault>
    ensures { Gives (λ x. (x.0, unread x.1)) result (set_versioning_at (unread fields.entry)) }
{
    let (name, rest) = bucket_name_of(alloc, fields)?;
    let (enabled, rest) = flag_of(rest)?;
    Ok((Command::SetVersioning { name, enabled }, rest))
}
