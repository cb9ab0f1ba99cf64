//! The fields of the commands about versions.

ghost use Rattle.s3r_record.specs.Reading.{Gives, unread};
ghost use Rattle.s3r_record.specs.VersionCommands.{put_at, marker_at, remove_at, set_tags_at, set_hold_at};

use crate::command::Command;
use crate::fault::RecordFault;
use crate::fields::{body_of, bucket_name_of, class_of, flag_of, key_of};
use crate::id_fields::id_of;
use crate::reading::Rest;
use crate::tag_fields::tag_set_of;
use std::alloc::Global;

/// The most bytes of a Put's body.
const BODY_LIMIT: usize = 4_194_304;

#[tactic(auto, unfolding(crate::specs::VersionCommands::put_at))]
pub(crate) fn put(alloc: Global, fields: Rest<'_>) -> Result<(Command, Rest<'_>), RecordFault>
    ensures { Gives (λ x. (x.0, unread x.1)) result (put_at (unread fields.entry)) }
{
    let (bucket, rest) = bucket_name_of(alloc, fields)?;
    let (key, rest) = key_of(alloc, rest)?;
    let (tags, rest) = tag_set_of(alloc, rest)?;
    let (hold, rest) = flag_of(rest)?;
    let (class, rest) = class_of(alloc, rest)?;
    let (body, rest) = body_of(alloc, BODY_LIMIT, rest)?;
    let command = Command::Put {
        bucket,
        key,
        tags,
        hold,
        class,
        body,
    };
    Ok((command, rest))
}

#[tactic(auto, unfolding(crate::specs::VersionCommands::marker_at))]
pub(crate) fn marker(alloc: Global, fields: Rest<'_>) -> Result<(Command, Rest<'_>), RecordFault>
    ensures { Gives (λ x. (x.0, unread x.1)) result (marker_at (unread fields.entry)) }
{
    let (bucket, rest) = bucket_name_of(alloc, fields)?;
    let (key, rest) = key_of(alloc, rest)?;
    Ok((Command::Marker { bucket, key }, rest))
}

#[tactic(auto, unfolding(crate::specs::VersionCommands::remove_at))]
pub(crate) fn remove(alloc: Global, fields: Rest<'_>) -> Result<(Command, Rest<'_>), RecordFault>
    ensures { Gives (λ x. (x.0, unread x.1)) result (remove_at (unread fields.entry)) }
{
    let (bucket, rest) = bucket_name_of(alloc, fields)?;
    let (key, rest) = key_of(alloc, rest)?;
    let (id, rest) = id_of(rest)?;
    Ok((Command::Remove { bucket, key, id }, rest))
}

#[tactic(auto, unfolding(crate::specs::VersionCommands::set_tags_at))]
pub(crate) fn set_tags(alloc: Global, fields: Rest<'_>) -> Result<(Command, Rest<'_>), RecordFault>
    ensures { Gives (λ x. (x.0, unread x.1)) result (set_tags_at (unread fields.entry)) }
{
    let (bucket, rest) = bucket_name_of(alloc, fields)?;
    let (key, rest) = key_of(alloc, rest)?;
    let (id, rest) = id_of(rest)?;
    let (tags, rest) = tag_set_of(alloc, rest)?;
    let command = Command::SetTags {
        bucket,
        key,
        id,
        tags,
    };
    Ok((command, rest))
}

#[tactic(auto, unfolding(crate::specs::VersionCommands::set_hold_at))]
pub(crate) fn set_hold(alloc: Global, fields: Rest<'_>) -> Result<(Command, Rest<'_>), RecordFault>
    ensures { Gives (λ x. (x.0, unread x.1)) result (set_hold_at (unread fields.entry)) }
{
    let (bucket, rest) = bucket_name_of(alloc, fields)?;
    let (key, rest) = key_of(alloc, rest)?;
    let (id, rest) = id_of(rest)?;
    let (hold, rest) = flag_of(rest)?;
    let command = Command::SetHold {
        bucket,
        key,
        id,
        hold,
    };
    Ok((command, rest))
}
