//! The fields of the commands about a bucket's replication.

ghost use Rattle.s3r_record.specs.Reading.{Gives, unread};
ghost use Rattle.s3r_record.specs.ReplicationCommands.{set_replication_at, drop_replication_at};

use crate::command::Command;
use crate::fault::RecordFault;
use crate::fields::bucket_name_of;
use crate::reading::Rest;
use crate::rule_fields::rules_of;
use std::alloc::Global;

#[tactic(auto, unfolding(crate::specs::ReplicationCommands::set_replication_at))]
pub(crate) fn set_replication(
    alloc: Global,
    fields: Rest<'_>,
) -> Result<(Command, Rest<'_>), RecordFault>
    ensures { Gives (λ x. (x.0, unread x.1)) result (set_replication_at (unread fields.entry)) }
{
    let (name, rest) = bucket_name_of(alloc, fields)?;
    let (config, regions, rest) = rules_of(alloc, rest)?;
    let command = Command::SetReplication {
        name,
        config,
        regions,
    };
    Ok((command, rest))
}

#[tactic(auto, unfolding(crate::specs::ReplicationCommands::drop_replication_at))]
pub(crate) fn drop_replication(
    alloc: Global,
    fields: Rest<'_>,
) -> Result<(Command, Rest<'_>), RecordFault>
    ensures { Gives (λ x. (x.0, unread x.1)) result (drop_replication_at (unread fields.entry)) }
{
    let (name, rest) = bucket_name_of(alloc, fields)?;
    Ok((Command::DropReplication { name }, rest))
}
