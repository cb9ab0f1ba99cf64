//! The fields of the commands about tasks.

ghost use Rattle.s3r_record.specs.Reading.{Gives, unread, place};
ghost use Rattle.s3r_record.specs.TaskCommands.{outcome_of, outcome_at, receive_at, settle_at, attempt_at};

use crate::command::Command;
use crate::effect_decoding::effect_of;
use crate::fault::RecordFault;
use crate::fields::byte_of;
use crate::id_fields::{index_of, region_of};
use crate::reading::Rest;
use s3r_names::{Outcome, Reason};
use std::alloc::Global;

#[tactic(auto, unfolding(crate::specs::TaskCommands::outcome_at, crate::specs::TaskCommands::outcome_of))]
fn outcome_of(left: Rest<'_>) -> Result<(Outcome, Rest<'_>), RecordFault>
    ensures { Gives (λ x. (x.0, unread x.1)) result (outcome_at (unread left.entry)) }
{
    let (byte, rest) = byte_of(u8::MAX, left)?;
    match byte {
        0 => Ok((Outcome::Applied, rest)),
        1 => Ok((Outcome::Refused(Reason::NoSuchDestination), rest)),
        2 => Ok((Outcome::Refused(Reason::DestinationSuspended), rest)),
        3 => Ok((Outcome::Refused(Reason::VersionRemoved), rest)),
        4 => Ok((Outcome::Refused(Reason::NoSuchVersion), rest)),
        5 => Ok((Outcome::Refused(Reason::DestinationNotLocked), rest)),
        _ => Err(left.fault()),
    }
}

#[tactic(auto, unfolding(crate::specs::TaskCommands::receive_at))]
pub(crate) fn receive(alloc: Global, fields: Rest<'_>) -> Result<(Command, Rest<'_>), RecordFault>
    ensures { Gives (λ x. (x.0, unread x.1)) result (receive_at (unread fields.entry)) }
{
    let (from, rest) = region_of(fields)?;
    let (number, rest) = index_of(rest)?;
    let (effect, rest) = effect_of(alloc, rest)?;
    let command = Command::Receive {
        from,
        number,
        effect,
    };
    Ok((command, rest))
}

#[tactic(auto, unfolding(crate::specs::TaskCommands::settle_at))]
pub(crate) fn settle(fields: Rest<'_>) -> Result<(Command, Rest<'_>), RecordFault>
    ensures { Gives (λ x. (x.0, unread x.1)) result (settle_at (unread fields.entry)) }
{
    let (to, rest) = region_of(fields)?;
    let (number, rest) = index_of(rest)?;
    let (outcome, rest) = outcome_of(rest)?;
    let command = Command::Settle {
        to,
        number,
        outcome,
    };
    Ok((command, rest))
}

#[tactic(auto, unfolding(crate::specs::TaskCommands::attempt_at))]
pub(crate) fn attempt(fields: Rest<'_>) -> Result<(Command, Rest<'_>), RecordFault>
    ensures { Gives (λ x. (x.0, unread x.1)) result (attempt_at (unread fields.entry)) }
{
    let (to, rest) = region_of(fields)?;
    let (number, rest) = index_of(rest)?;
    Ok((Command::Attempt { to, number }, rest))
}
