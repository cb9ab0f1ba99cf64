//! From a command to the bytes of its record.

ghost use Rattle.std.specs.Prelude.{◌≡◌, ◌≤◌, ◌<◌, ◌^◌, ◌-◌, ◌++◌, length, drop, OnOk, IfOk};
ghost use Rattle.std.specs.Int.{w32, to_be_bytes};
ghost use Rattle.s3r_record.specs.Spelling.{spelling, IsCommand, MeetsLimits, frame};
ghost use Rattle.s3r_record.specs.declared.command.Command.{Command};

use crate::bucket_encoding::{write_create_bucket, write_delete_bucket, write_set_versioning};
use crate::command::Command;
use crate::effect::Effect;
use crate::job_encoding::{
    write_create_job, write_finish, write_line, write_move_job, write_prepare, write_set_priority,
};
use crate::replication_encoding::{write_drop_replication, write_set_replication};
use crate::task_encoding::{write_attempt, write_receive, write_settle};
use crate::version_encoding::{
    write_marker, write_put, write_remove, write_set_hold, write_set_tags,
};
use s3r_names::Bytes;
use std::alloc::{AllocError, Global};

fn write_command(out: &mut Vec<u8>, command: &Command) -> Result<(), AllocError>
    requires { MeetsLimits command.now }
    ensures spelled { OnOk result (out.new.items ≡ out.old.items ++ spelling command.now) }
    ensures fits { OnOk result (IsCommand command.now) }
{
    match command {
        Command::CreateBucket { name, locked } => write_create_bucket(out, name, *locked),
        Command::DeleteBucket { name } => write_delete_bucket(out, name),
        Command::SetVersioning { name, enabled } => write_set_versioning(out, name, *enabled),
        Command::SetReplication {
            name,
            config,
            regions,
        } => write_set_replication(out, name, config, regions),
        Command::DropReplication { name } => write_drop_replication(out, name),
        Command::Put {
            bucket,
            key,
            tags,
            hold,
            class,
            body,
        } => write_put(out, bucket, key, tags, *hold, class, body),
        Command::Marker { bucket, key } => write_marker(out, bucket, key),
        Command::Remove { bucket, key, id } => write_remove(out, bucket, key, *id),
        Command::SetTags {
            bucket,
            key,
            id,
            tags,
        } => write_set_tags(out, bucket, key, *id, tags),
        Command::SetHold {
            bucket,
            key,
            id,
            hold,
        } => write_set_hold(out, bucket, key, *id, *hold),
        Command::Receive {
            from,
            number,
            effect,
        } => write_receive(out, *from, *number, effect),
        Command::Settle {
            to,
            number,
            outcome,
        } => write_settle(out, *to, *number, *outcome),
        Command::Attempt { to, number } => write_attempt(out, *to, *number),
        Command::CreateJob { spec, manifest } => write_create_job(out, spec, *manifest),
        Command::MoveJob { job, state } => write_move_job(out, *job, *state),
        Command::SetPriority { job, priority } => write_set_priority(out, *job, *priority),
        Command::Prepare { job } => write_prepare(out, *job),
        Command::Line { job, line } => write_line(out, *job, *line),
        Command::Finish { job, body } => write_finish(out, *job, body),
    }
}

/// Room for what is short in every record: its length, its gate, the names of a bucket and a class, an id and flags.
const SHORT_FIELDS: usize = 128;

/// Room for what is short in the record of an effect besides: a second bucket's name, numbers and stamps.
const SHORT_EFFECT_FIELDS: usize = 256;

/// The most bytes of a tag.
const LONGEST_TAG: usize = 1540;

/// More bytes than most rules have.
const USUAL_RULE: usize = 256;

/// More bytes than most specifications of jobs have.
const USUAL_SPEC: usize = 1_024;

/// At least the bytes of the effect's record, so that its buffer never grows.
fn likely_effect_length(effect: &Effect<Bytes>) -> usize {
    match effect {
        Effect::Replica {
            key,
            tags,
            body,
            ..
        } => SHORT_EFFECT_FIELDS
            + key.as_bytes().len()
            + LONGEST_TAG * tags.as_slice().len()
            + body.as_slice().len(),
        Effect::Marker { key, .. } | Effect::Hold { key, .. } => SHORT_EFFECT_FIELDS
            + key.as_bytes().len(),
        Effect::Tags { key, tags, .. } => SHORT_EFFECT_FIELDS
            + key.as_bytes().len()
            + LONGEST_TAG * tags.as_slice().len(),
    }
}

/// At least the bytes of the command's record, but for long rules, so that its buffer seldom grows.
fn likely_length(command: &Command) -> usize {
    match command {
        Command::CreateBucket { .. }
        | Command::DeleteBucket { .. }
        | Command::SetVersioning { .. }
        | Command::DropReplication { .. }
        | Command::Settle { .. }
        | Command::Attempt { .. }
        | Command::MoveJob { .. }
        | Command::SetPriority { .. }
        | Command::Prepare { .. }
        | Command::Line { .. }
        | Command::Finish { body: None, .. } => SHORT_FIELDS,
        Command::Finish {
            body: Some(body),
            ..
        } => SHORT_FIELDS + body.as_slice().len(),
        Command::CreateJob { .. } => USUAL_SPEC,
        Command::SetReplication { config, .. } => SHORT_FIELDS
            + USUAL_RULE * config.as_slice().len(),
        Command::Put {
            key,
            tags,
            body,
            ..
        } => SHORT_FIELDS
            + key.as_bytes().len()
            + LONGEST_TAG * tags.as_slice().len()
            + body.as_slice().len(),
        Command::Marker { key, .. } | Command::Remove { key, .. } | Command::SetHold { key, .. } =>
            SHORT_FIELDS + key.as_bytes().len(),
        Command::SetTags { key, tags, .. } => SHORT_FIELDS
            + key.as_bytes().len()
            + LONGEST_TAG * tags.as_slice().len(),
        Command::Receive { effect, .. } => likely_effect_length(effect),
    }
}

/// Writes over the first four bytes how many stand between them and the last one.
fn write_length(out: &mut [u8])
    requires whole { 5 ≤ length out.old }
    requires short { length out.old < 2 ^ 32 }
    ensures { out.new ≡ to_be_bytes w32 (length out.old - 5) ++ drop 4 out.old }
{
    let length = (out.len() - 5) as u32;
    let (front, _) = out.split_at_mut(4);
    front.copy_from_slice(&length.to_be_bytes());
}

/// What a record holds of the command behind its gate: the length of its spelling, the spelling, and the next
/// record's closed gate. They are written into one buffer, so that a body is copied once.
pub fn encode(alloc: Global, command: &Command) -> Result<Vec<u8>, AllocError>
    requires { MeetsLimits command.now }
    ensures framed { IfOk result (λ v. v.items ≡ frame (spelling command.now)) }
    ensures fits { OnOk result (IsCommand command.now) }
{
    let mut out = Vec::with_capacity(alloc, likely_length(command))?;
    out.extend_from_slice(&[0, 0, 0, 0])?;
    write_command(&mut out, command)?;
    out.push(0)?;
    write_length(&mut out);
    Ok(out)
}
