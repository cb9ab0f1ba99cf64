//! The fields of the commands about jobs.

ghost use Rattle.s3r_record.specs.Reading.{Gives, unread};
ghost use Rattle.s3r_record.specs.JobCommands.{create_job_at, move_job_at, set_priority_at, prepare_at, line_at, finish_at};

use crate::command::Command;
use crate::fault::RecordFault;
use crate::id_fields::{id_of, index_of};
use crate::job_fields::{number_within, option_body_of, spec_of, state_of};
use crate::reading::Rest;
use s3r_jobs::MOST_PRIORITY;
use std::alloc::Global;

#[tactic(auto, unfolding(crate::specs::JobCommands::create_job_at))]
pub(crate) fn create_job(
    alloc: Global,
    fields: Rest<'_>,
) -> Result<(Command, Rest<'_>), RecordFault>
    ensures { Gives (λ x. (x.0, unread x.1)) result (create_job_at (unread fields.entry)) }
{
    let (spec, rest) = spec_of(alloc, fields)?;
    match id_of(rest) {
        Ok((manifest, rest)) => Ok((Command::CreateJob { spec, manifest }, rest)),
        Err(fault) => {
            drop(spec);
            Err(fault)
        }
    }
}

#[tactic(auto, unfolding(crate::specs::JobCommands::move_job_at))]
pub(crate) fn move_job(fields: Rest<'_>) -> Result<(Command, Rest<'_>), RecordFault>
    ensures { Gives (λ x. (x.0, unread x.1)) result (move_job_at (unread fields.entry)) }
{
    let (job, rest) = index_of(fields)?;
    let (state, rest) = state_of(rest)?;
    Ok((Command::MoveJob { job, state }, rest))
}

#[tactic(auto, unfolding(crate::specs::JobCommands::set_priority_at))]
pub(crate) fn set_priority(fields: Rest<'_>) -> Result<(Command, Rest<'_>), RecordFault>
    ensures { Gives (λ x. (x.0, unread x.1)) result (set_priority_at (unread fields.entry)) }
{
    let (job, rest) = index_of(fields)?;
    let (priority, rest) = number_within(0, MOST_PRIORITY, rest)?;
    Ok((Command::SetPriority { job, priority }, rest))
}

#[tactic(auto, unfolding(crate::specs::JobCommands::prepare_at))]
pub(crate) fn prepare(fields: Rest<'_>) -> Result<(Command, Rest<'_>), RecordFault>
    ensures { Gives (λ x. (x.0, unread x.1)) result (prepare_at (unread fields.entry)) }
{
    let (job, rest) = index_of(fields)?;
    Ok((Command::Prepare { job }, rest))
}

#[tactic(auto, unfolding(crate::specs::JobCommands::line_at))]
pub(crate) fn line(fields: Rest<'_>) -> Result<(Command, Rest<'_>), RecordFault>
    ensures { Gives (λ x. (x.0, unread x.1)) result (line_at (unread fields.entry)) }
{
    let (job, rest) = index_of(fields)?;
    let (line, rest) = number_within(1, u32::MAX, rest)?;
    Ok((Command::Line { job, line }, rest))
}

#[tactic(auto, unfolding(crate::specs::JobCommands::finish_at))]
pub(crate) fn finish(alloc: Global, fields: Rest<'_>) -> Result<(Command, Rest<'_>), RecordFault>
    ensures { Gives (λ x. (x.0, unread x.1)) result (finish_at (unread fields.entry)) }
{
    let (job, rest) = index_of(fields)?;
    let (body, rest) = option_body_of(alloc, rest)?;
    Ok((Command::Finish { job, body }, rest))
}
