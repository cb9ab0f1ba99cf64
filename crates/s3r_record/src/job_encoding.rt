//! The spellings of the commands about jobs.

ghost use Rattle.std.specs.Prelude.{◌≡◌, ◌≤◌, ◌<◌, ◌^◌, ◌∷◌, ◌++◌, length, Option, IsTrue, OnOk};
ghost use Rattle.std.specs.Int.{w32, to_be_bytes};
ghost use Rattle.s3r_names.specs.Version.{IsVersionId};
ghost use Rattle.s3r_jobs.specs.Rules.{is_token, IsJobSpec, SpecMeetsLimits, IsOperation, OperationMeetsLimits, IsManifest, OptionIdMeetsLimits, IsReport, ReportMeetsLimits, IsPrefix, PrefixMeetsLimits};
ghost use Rattle.s3r_record.specs.Fields.{text, flag, number_bytes, option_text};
ghost use Rattle.s3r_record.specs.JobFields.{option_id, option_body, operation_bytes, manifest_bytes, report_bytes, option_report, spec_bytes, state_byte, is_moved_to};
ghost use Rattle.s3r_record.specs.Spelling.{spelling, IsCommand, IsJobId, BodyMeetsLimits};
ghost use Rattle.s3r_jobs.specs.declared.spec.Operation.{Operation};
ghost use Rattle.s3r_record.specs.declared.command.Command.{Command};

use crate::kinds;
use crate::writing::{write_body, write_flag, write_id, write_number, write_tags, write_text};
use s3r_jobs::{
    JobSpec, JobState, LONGEST_REPORT_PREFIX, LONGEST_TARGET_PREFIX, ManifestSpec, Operation,
    ReportSpec,
};
use s3r_names::{BucketName, Bytes, TagSet, Text, VersionId};
use std::alloc::AllocError;

/// The first byte of an operation.
const COPY: u8 = 1;

const TAGGING: u8 = 2;

const HOLD: u8 = 3;

const REPLICATE: u8 = 4;

fn write_option_id(out: &mut Vec<u8>, id: Option<VersionId>) -> Result<(), AllocError>
    ensures { OnOk result (out.new.items ≡ out.old.items ++ option_id id) }
{
    match id {
        None => write_flag(out, false),
        Some(id) => {
            write_flag(out, true)?;
            write_id(out, id)
        }
    }
}

/// Text is known to be UTF-8 here, as its type says.
fn write_prefix(out: &mut Vec<u8>, most: usize, prefix: &str) -> Result<(), AllocError>
    requires short { length prefix.now ≤ most }
    requires most { most ≤ 1024 }
    ensures spelled { OnOk result (out.new.items ≡ out.old.items ++ text prefix.now) }
    ensures fits { OnOk result (IsPrefix most (Option.Some prefix.now)) }
{
    write_text(out, prefix.as_bytes())
}

fn write_option_prefix(
    out: &mut Vec<u8>,
    most: usize,
    prefix: &Option<Text>,
) -> Result<(), AllocError>
    requires short { PrefixMeetsLimits most prefix.now }
    requires most { most ≤ 1024 }
    ensures spelled { OnOk result (out.new.items ≡ out.old.items ++ option_text prefix.now) }
    ensures fits { OnOk result (IsPrefix most prefix.now) }
{
    match prefix {
        None => write_flag(out, false),
        Some(prefix) => {
            write_flag(out, true)?;
            write_prefix(out, most, prefix.as_str())
        }
    }
}

fn write_copy(
    out: &mut Vec<u8>,
    target: &BucketName,
    prefix: &Option<Text>,
) -> Result<(), AllocError>
    requires { PrefixMeetsLimits 1024 prefix.now }
    ensures spelled { OnOk result (out.new.items ≡ out.old.items ++ operation_bytes (Operation.Copy target.now prefix.now)) }
    ensures fits { OnOk result (IsOperation (Operation.Copy target.now prefix.now)) }
{
    out.push(COPY)?;
    write_text(out, target.as_bytes())?;
    write_option_prefix(out, LONGEST_TARGET_PREFIX, prefix)
}

fn write_tagging(out: &mut Vec<u8>, tags: &TagSet) -> Result<(), AllocError>
    ensures spelled { OnOk result (out.new.items ≡ out.old.items ++ operation_bytes (Operation.Tagging tags.now)) }
    ensures fits { OnOk result (IsOperation (Operation.Tagging tags.now)) }
{
    out.push(TAGGING)?;
    write_tags(out, tags)
}

fn write_operation(out: &mut Vec<u8>, operation: &Operation) -> Result<(), AllocError>
    requires { OperationMeetsLimits operation.now }
    ensures spelled { OnOk result (out.new.items ≡ out.old.items ++ operation_bytes operation.now) }
    ensures fits { OnOk result (IsOperation operation.now) }
{
    match operation {
        Operation::Copy { target, prefix } => write_copy(out, target, prefix),
        Operation::Tagging(tags) => write_tagging(out, tags),
        Operation::Hold(hold) => {
            out.push(HOLD)?;
            write_flag(out, *hold)
        }
        Operation::Replicate => {
            out.push(REPLICATE)?;
            Ok(())
        }
    }
}

fn write_manifest(out: &mut Vec<u8>, manifest: &ManifestSpec) -> Result<(), AllocError>
    requires { OptionIdMeetsLimits manifest.now.version }
    ensures spelled { OnOk result (out.new.items ≡ out.old.items ++ manifest_bytes manifest.now) }
    ensures fits { OnOk result (IsManifest manifest.now) }
{
    write_flag(out, manifest.versions)?;
    write_text(out, manifest.bucket.as_bytes())?;
    write_text(out, manifest.key.as_bytes())?;
    write_option_id(out, manifest.version)
}

fn write_report(out: &mut Vec<u8>, report: &ReportSpec) -> Result<(), AllocError>
    requires { PrefixMeetsLimits 512 report.now.prefix }
    ensures spelled { OnOk result (out.new.items ≡ out.old.items ++ report_bytes report.now) }
    ensures fits { OnOk result (IsReport (Option.Some report.now)) }
{
    write_text(out, report.bucket.as_bytes())?;
    write_option_prefix(out, LONGEST_REPORT_PREFIX, &report.prefix)?;
    write_flag(out, report.all)
}

fn write_option_report(out: &mut Vec<u8>, report: &Option<ReportSpec>) -> Result<(), AllocError>
    requires { ReportMeetsLimits report.now }
    ensures spelled { OnOk result (out.new.items ≡ out.old.items ++ option_report report.now) }
    ensures fits { OnOk result (IsReport report.now) }
{
    match report {
        None => write_flag(out, false),
        Some(report) => {
            write_flag(out, true)?;
            write_report(out, report)
        }
    }
}

/// The fields of a specification before its operation.
fn write_front(out: &mut Vec<u8>, spec: &JobSpec) -> Result<(), AllocError>
    requires { IsTrue (is_token spec.now.token) }
    ensures { OnOk result (out.new.items ≡ out.old.items
        ++ (text spec.now.token ++ to_be_bytes w32 spec.now.priority ++ flag spec.now.confirm)) }
{
    write_text(out, spec.token.as_bytes())?;
    out.extend_from_slice(&spec.priority.to_be_bytes())?;
    write_flag(out, spec.confirm)
}

fn write_spec(out: &mut Vec<u8>, spec: &JobSpec) -> Result<(), AllocError>
    requires { SpecMeetsLimits spec.now }
    ensures spelled { OnOk result (out.new.items ≡ out.old.items ++ spec_bytes spec.now) }
    ensures fits { OnOk result (IsJobSpec spec.now) }
{
    write_front(out, spec)?;
    write_operation(out, &spec.operation)?;
    write_manifest(out, &spec.manifest)?;
    write_option_report(out, &spec.report)
}

pub(crate) fn write_create_job(
    out: &mut Vec<u8>,
    spec: &JobSpec,
    manifest: VersionId,
) -> Result<(), AllocError>
    requires spec { SpecMeetsLimits spec.now }
    requires manifest { IsVersionId manifest }
    ensures spelled { OnOk result (out.new.items ≡ out.old.items ++ spelling (Command.CreateJob spec.now manifest)) }
    ensures fits { OnOk result (IsCommand (Command.CreateJob spec.now manifest)) }
{
    out.push(kinds::CREATE_JOB)?;
    write_spec(out, spec)?;
    write_id(out, manifest)
}

fn state_byte(state: JobState) -> u8
    ensures { result ≡ state_byte state }
{
    match state {
        JobState::Preparing => 1,
        JobState::Ready => 2,
        JobState::Active => 3,
        JobState::Pausing => 4,
        JobState::Paused => 5,
        JobState::Failing => 6,
        JobState::Cancelling => 7,
        JobState::New
        | JobState::Suspended
        | JobState::Complete
        | JobState::Cancelled
        | JobState::Failed => 0,
    }
}

/// What every command about a job begins with.
fn write_job(out: &mut Vec<u8>, kind: u8, job: u64) -> Result<(), AllocError>
    ensures { OnOk result (out.new.items ≡ out.old.items ++ kind ∷ number_bytes job) }
{
    out.push(kind)?;
    write_number(out, job)
}

pub(crate) fn write_move_job(out: &mut Vec<u8>, job: u64, state: JobState) -> Result<(), AllocError>
    requires job { IsJobId job }
    requires moved { IsTrue (is_moved_to state) }
    ensures spelled { OnOk result (out.new.items ≡ out.old.items ++ spelling (Command.MoveJob job state)) }
    ensures fits { OnOk result (IsCommand (Command.MoveJob job state)) }
{
    write_job(out, kinds::MOVE_JOB, job)?;
    out.push(state_byte(state))?;
    Ok(())
}

pub(crate) fn write_set_priority(
    out: &mut Vec<u8>,
    job: u64,
    priority: u32,
) -> Result<(), AllocError>
    requires job { IsJobId job }
    requires few { priority ≤ 2147483647 }
    ensures spelled { OnOk result (out.new.items ≡ out.old.items ++ spelling (Command.SetPriority job priority)) }
    ensures fits { OnOk result (IsCommand (Command.SetPriority job priority)) }
{
    write_job(out, kinds::SET_PRIORITY, job)?;
    out.extend_from_slice(&priority.to_be_bytes())
}

pub(crate) fn write_prepare(out: &mut Vec<u8>, job: u64) -> Result<(), AllocError>
    requires { IsJobId job }
    ensures spelled { OnOk result (out.new.items ≡ out.old.items ++ spelling (Command.Prepare job)) }
    ensures fits { OnOk result (IsCommand (Command.Prepare job)) }
{
    write_job(out, kinds::PREPARE, job)
}

pub(crate) fn write_line(out: &mut Vec<u8>, job: u64, line: u32) -> Result<(), AllocError>
    requires job { IsJobId job }
    requires above { 1 ≤ line }
    ensures spelled { OnOk result (out.new.items ≡ out.old.items ++ spelling (Command.Line job line)) }
    ensures fits { OnOk result (IsCommand (Command.Line job line)) }
{
    write_job(out, kinds::LINE, job)?;
    out.extend_from_slice(&line.to_be_bytes())
}

fn write_option_body(out: &mut Vec<u8>, body: &Option<Bytes>) -> Result<(), AllocError>
    requires { BodyMeetsLimits body.now }
    ensures { OnOk result (out.new.items ≡ out.old.items ++ option_body body.now) }
{
    match body {
        None => write_flag(out, false),
        Some(body) => {
            write_flag(out, true)?;
            write_body(out, body.as_slice())
        }
    }
}

pub(crate) fn write_finish(
    out: &mut Vec<u8>,
    job: u64,
    body: &Option<Bytes>,
) -> Result<(), AllocError>
    requires job { IsJobId job }
    requires short { BodyMeetsLimits body.now }
    ensures spelled { OnOk result (out.new.items ≡ out.old.items ++ spelling (Command.Finish job body.now)) }
    ensures fits { OnOk result (IsCommand (Command.Finish job body.now)) }
{
    write_job(out, kinds::FINISH, job)?;
    write_option_body(out, body)
}
