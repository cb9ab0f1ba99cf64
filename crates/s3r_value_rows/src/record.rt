//! The bytes of commands.

ghost use Rattle.std.specs.Prelude.{◌≤◌, length};

use crate::cells::Cells;
use crate::fault::Fault;
use crate::job::{creation_text, finish_text};
use crate::texts::{id_text, set_text, truth};
use s3r_names::{BucketName, Bytes, ClassName, Key, TagSet, VersionId};
use s3r_record::{Command, Effect, decode, encode, fits_record};
use s3r_rules::Config;
use s3r_rules_json::{print_config, read_config};
use std::alloc::{AllocError, Global};

/// The most bytes of a command.
const LIMIT: usize = 16_777_216;

/// The bytes of the first cell, none where there are too many.
fn spelling(cells: &Cells) -> &[u8]
    ensures { length result.now ≤ 16777216 }
{
    let bytes = cells.bytes(0);
    if bytes.len() > LIMIT {
        return &[];
    }
    bytes
}

fn replication_text(
    alloc: Global,
    name: &BucketName,
    config: &Config,
    regions: &Bytes,
) -> Result<String, AllocError> {
    let name = name.as_str();
    let regions = regions.as_slice().escape_ascii();
    let config = print_config(alloc, config)?;
    format!(in alloc; "SetReplication {name}, {regions}, {config}")
}

/// A command about a bucket.
fn of_bucket(alloc: Global, what: &str, name: &BucketName) -> Result<String, AllocError> {
    let name = name.as_str();
    format!(in alloc; "{what} {name}")
}

fn flag_of_bucket(
    alloc: Global,
    what: &str,
    name: &BucketName,
    flag: bool,
) -> Result<String, AllocError> {
    let name = name.as_str();
    format!(in alloc; "{what} {name}, {flag}")
}

/// A command about a key, and its other fields.
fn of_key(
    alloc: Global,
    what: &str,
    bucket: &BucketName,
    key: &Key,
    fields: &str,
) -> Result<String, AllocError> {
    let bucket = bucket.as_str();
    let key = key.as_str();
    format!(in alloc; "{what} {bucket}, {key}{fields}")
}

fn id_fields(alloc: Global, id: VersionId) -> Result<String, AllocError> {
    let id = id_text(alloc, Some(id))?;
    format!(in alloc; ", {id}")
}

fn hold_fields(alloc: Global, id: VersionId, hold: bool) -> Result<String, AllocError> {
    let id = id_text(alloc, Some(id))?;
    format!(in alloc; ", {id}, {hold}")
}

fn tags_fields(alloc: Global, id: VersionId, tags: &TagSet) -> Result<String, AllocError> {
    let id = id_text(alloc, Some(id))?;
    let tags = set_text(alloc, tags)?;
    format!(in alloc; ", {id}, {tags}")
}

fn put_fields(
    alloc: Global,
    tags: &TagSet,
    hold: bool,
    class: &ClassName,
    body: &Bytes,
) -> Result<String, AllocError> {
    let tags = set_text(alloc, tags)?;
    let class = class.as_str();
    let body = body.as_slice().escape_ascii();
    format!(in alloc; ", {tags}, {hold}, {class}, {body}")
}

/// The fields of a command about a key, behind the key.
fn key_fields(alloc: Global, command: &Command) -> Result<String, AllocError> {
    match command {
        Command::Put {
            tags,
            hold,
            class,
            body,
            ..
        } => put_fields(alloc, tags, *hold, class, body),
        Command::Remove { id, .. } => id_fields(alloc, *id),
        Command::SetTags { id, tags, .. } => tags_fields(alloc, *id, tags),
        Command::SetHold { id, hold, .. } => hold_fields(alloc, *id, *hold),
        _ => String::from_str(alloc, ""),
    }
}

/// What every effect says: its kind, its buckets, its version, and the clock's number that it carries first.
fn effect_fields(
    alloc: Global,
    kind: &str,
    buckets: (&BucketName, &BucketName),
    key: &Key,
    id: VersionId,
    n: u64,
) -> Result<String, AllocError> {
    let from = buckets.0.as_str();
    let to = buckets.1.as_str();
    let key = key.as_str();
    let id = id_text(alloc, Some(id))?;
    format!(in alloc; "{kind} {from}, {to}, {key}, {id}, {n}")
}

fn effect_text(alloc: Global, effect: &Effect<Bytes>) -> Result<String, AllocError> {
    match effect {
        Effect::Replica {
            from,
            to,
            key,
            id,
            n,
            ..
        } => effect_fields(alloc, "Replica", (from, to), key, *id, *n),
        Effect::Marker {
            from,
            to,
            key,
            id,
            n,
        } => effect_fields(alloc, "Marker", (from, to), key, *id, *n),
        Effect::Tags {
            from,
            to,
            key,
            id,
            stamp,
            ..
        } => effect_fields(alloc, "Tags", (from, to), key, *id, stamp.n),
        Effect::Hold {
            from,
            to,
            key,
            id,
            stamp,
            ..
        } => effect_fields(alloc, "Hold", (from, to), key, *id, stamp.n),
    }
}

fn receive_text(
    alloc: Global,
    from: u8,
    number: u64,
    effect: &Effect<Bytes>,
) -> Result<String, AllocError> {
    let effect = effect_text(alloc, effect)?;
    format!(in alloc; "Receive {from}, {number}, {effect}")
}

/// A command's name and its fields in order.
fn command_text(alloc: Global, command: &Command) -> Result<String, AllocError> {
    let fields = key_fields(alloc, command)?;
    let fields = fields.as_str();
    match command {
        Command::CreateBucket { name, locked } => {
            flag_of_bucket(alloc, "CreateBucket", name, *locked)
        }
        Command::DeleteBucket { name } => of_bucket(alloc, "DeleteBucket", name),
        Command::SetVersioning { name, enabled } => {
            flag_of_bucket(alloc, "SetVersioning", name, *enabled)
        }
        Command::SetReplication {
            name,
            config,
            regions,
        } => replication_text(alloc, name, config, regions),
        Command::DropReplication { name } => of_bucket(alloc, "DropReplication", name),
        Command::Put { bucket, key, .. } => of_key(alloc, "Put", bucket, key, fields),
        Command::Marker { bucket, key } => of_key(alloc, "Marker", bucket, key, fields),
        Command::Remove { bucket, key, .. } => of_key(alloc, "Remove", bucket, key, fields),
        Command::SetTags { bucket, key, .. } => of_key(alloc, "SetTags", bucket, key, fields),
        Command::SetHold { bucket, key, .. } => of_key(alloc, "SetHold", bucket, key, fields),
        Command::Receive {
            from,
            number,
            effect,
        } => receive_text(alloc, *from, *number, effect),
        Command::Settle {
            to,
            number,
            outcome,
        } => format!(in alloc; "Settle {to}, {number}, {outcome:?}"),
        Command::Attempt { to, number } => format!(in alloc; "Attempt {to}, {number}"),
        Command::CreateJob { spec, manifest } => creation_text(alloc, spec, *manifest),
        Command::MoveJob { job, state } => format!(in alloc; "MoveJob {job}, {state:?}"),
        Command::SetPriority { job, priority } => {
            format!(in alloc; "SetPriority {job}, {priority}")
        }
        Command::Prepare { job } => format!(in alloc; "Prepare {job}"),
        Command::Line { job, line } => format!(in alloc; "Line {job}, {line}"),
        Command::Finish { job, body } => finish_text(alloc, *job, body),
    }
}

/// The command that bytes are.
pub fn decoded(alloc: Global, cells: &Cells) -> Result<String, Fault> {
    let command = decode(alloc, spelling(cells))?;
    let text = command_text(alloc, &command);
    drop(command);
    Ok(text?)
}

/// What a record holds of the command that bytes are.
#[tactic(auto, using(s3r_record::proofs::Lengths::meets_limits))]
pub fn frame(alloc: Global, cells: &Cells) -> Result<String, Fault> {
    let command = decode(alloc, spelling(cells))?;
    let frame = encode(alloc, &command);
    drop(command);
    Ok(frame?.as_slice().escape_ascii().to_string(alloc)?)
}

/// Whether the command that gives a bucket this configuration is short enough for a record.
pub fn fits(alloc: Global, cells: &Cells) -> Result<String, Fault> {
    let name = BucketName::read(alloc, cells.bytes(0))?;
    let config = read_config(alloc, cells.bytes(1))?;
    let fits = fits_record(alloc, &name, &config);
    drop(config);
    truth(alloc, fits?)
}
