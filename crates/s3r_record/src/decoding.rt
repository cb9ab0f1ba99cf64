//! From the bytes of a spelling to its command.

ghost use Rattle.std.specs.Prelude.{◌≡◌, ◌≤◌, length, IfOk, Ok};
ghost use Rattle.s3r_record.specs.Spelling.{spelling, IsCommand};
ghost use Rattle.s3r_record.specs.Reading.{Gives, unread};
ghost use Rattle.s3r_record.specs.Commands.{fields_at, command_at};
ghost use Rattle.s3r_record.specs.declared.command.Command.{Command};

use crate::bucket_decoding::{create_bucket, delete_bucket, set_versioning};
use crate::command::Command;
use crate::fault::RecordFault;
use crate::job_decoding::{create_job, finish, line, move_job, prepare, set_priority};
use crate::kinds;
use crate::reading::Rest;
use crate::replication_decoding::{drop_replication, set_replication};
use crate::task_decoding::{attempt, receive, settle};
use crate::version_decoding::{marker, put, remove, set_hold, set_tags};
use std::alloc::Global;

#[tactic(auto, unfolding(crate::specs::Commands::fields_at))]
fn fields_of(alloc: Global, kind: u8, fields: Rest<'_>) -> Result<(Command, Rest<'_>), RecordFault>
    ensures { Gives (λ x. (x.0, unread x.1)) result (fields_at kind (unread fields.entry)) }
{
    match kind {
        kinds::CREATE_BUCKET => create_bucket(alloc, fields),
        kinds::DELETE_BUCKET => delete_bucket(alloc, fields),
        kinds::SET_VERSIONING => set_versioning(alloc, fields),
        kinds::SET_REPLICATION => set_replication(alloc, fields),
        kinds::DROP_REPLICATION => drop_replication(alloc, fields),
        kinds::PUT => put(alloc, fields),
        kinds::MARKER => marker(alloc, fields),
        kinds::REMOVE => remove(alloc, fields),
        kinds::SET_TAGS => set_tags(alloc, fields),
        kinds::SET_HOLD => set_hold(alloc, fields),
        kinds::RECEIVE => receive(alloc, fields),
        kinds::SETTLE => settle(fields),
        kinds::ATTEMPT => attempt(fields),
        kinds::CREATE_JOB => create_job(alloc, fields),
        kinds::MOVE_JOB => move_job(fields),
        kinds::SET_PRIORITY => set_priority(fields),
        kinds::PREPARE => prepare(fields),
        kinds::LINE => line(fields),
        kinds::FINISH => finish(alloc, fields),
        _ => Err(RecordFault::NotACommand(0)),
    }
}

#[tactic(auto, unfolding(crate::specs::Commands::command_at))]
fn command_of(alloc: Global, bytes: &[u8]) -> Result<Command, RecordFault>
    ensures { Gives (λ c. c) result (command_at bytes.now) }
{
    match bytes {
        [] => Err(RecordFault::NotACommand(0)),
        [kind, fields @ ..] => {
            let fields = Rest {
                whole: bytes.len(),
                bytes: fields,
            };
            let (command, rest) = fields_of(alloc, *kind, fields)?;
            if !rest.bytes.is_empty() {
                return Err(rest.fault());
            }
            Ok(command)
        }
    }
}

/// The command that the bytes spell, all of the bytes.
pub fn decode(alloc: Global, bytes: &[u8]) -> Result<Command, RecordFault>
    requires { length bytes.now ≤ 16777216 }
    // What is read is spelled so.
    ensures found { IfOk result (λ c. IsCommand c × (bytes.now ≡ spelling c)) }
    // What is spelled so is read, unless memory runs out.
    ensures only { (c : Command) → IsCommand c → bytes.now ≡ spelling c → Gives (λ d. d) result (Ok c) }
    // Which field is wrong first.
    ensures exact { Gives (λ c. c) result (command_at bytes.now) }
{
    command_of(alloc, bytes)
}
