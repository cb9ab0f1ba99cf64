//! The fields of the commands about jobs, read from the front of what is left.

ghost use Rattle.std.specs.Prelude.{Ok};
ghost use Rattle.std.specs.Int.{w16};
ghost use Rattle.s3r_jobs.specs.Rules.{is_token, is_prefix};
ghost use Rattle.s3r_record.specs.Reading.{Gives, unread, place, tested_at};
ghost use Rattle.s3r_record.specs.ReadingTexts.{passed};
ghost use Rattle.s3r_record.specs.ReadingJobs.{number_within, id_if, option_id_at, prefix_if, option_prefix_at, body_if, option_body_at, copy_at, tagging_at, hold_at, operation_of, operation_at, manifest_at, report_at, report_if, option_report_at, spec_at, state_of, state_at};

use crate::fault::RecordFault;
use crate::fields::{body_of, bucket_name_of, byte_of, flag_of, key_of, text_of, u32_of};
use crate::id_fields::id_of;
use crate::reading::Rest;
use crate::tag_fields::tag_set_of;
use s3r_jobs::{
    JobSpec, JobState, LONGEST_REPORT_PREFIX, LONGEST_TARGET_PREFIX, MOST_PRIORITY, ManifestSpec,
    Operation, ReportSpec, is_token,
};
use s3r_names::{Bytes, Text, VersionId};
use std::alloc::Global;
use std::str;

/// The most bytes of a report.
const LONGEST_REPORT: usize = 15_582_912;

#[tactic(auto, unfolding(crate::specs::ReadingJobs::number_within))]
pub(crate) fn number_within(
    least: u32,
    most: u32,
    left: Rest<'_>,
) -> Result<(u32, Rest<'_>), RecordFault>
    ensures { Gives (λ x. (x.0, unread x.1)) result (number_within least most (unread left.entry)) }
{
    let (number, rest) = u32_of(left)?;
    if least <= number && number <= most {
        Ok((number, rest))
    } else {
        Err(left.fault())
    }
}

#[tactic(auto, using(crate::proofs::JobTexts::token_is, crate::proofs::JobTexts::token_is_not, crate::proofs::JobTexts::no_token))]
fn token_in(alloc: Global, bytes: &[u8]) -> Result<Option<Text>, RecordFault>
    ensures { Gives (λ text. text) result (Ok (passed is_token bytes.now)) }
{
    let Ok(text) = str::from_utf8(bytes) else {
        return Ok(None);
    };
    if !is_token(text) {
        return Ok(None);
    }
    Ok(Some(Text::from_str(alloc, text)?))
}

#[tactic(auto, unfolding(crate::specs::Reading::tested_at))]
fn token_of(alloc: Global, left: Rest<'_>) -> Result<(Text, Rest<'_>), RecordFault>
    ensures { Gives (λ x. (x.0, unread x.1)) result (tested_at w16 is_token (unread left.entry)) }
{
    let (bytes, rest) = text_of(left)?;
    match token_in(alloc, bytes)? {
        Some(token) => Ok((token, rest)),
        None => Err(left.fault()),
    }
}

#[tactic(auto, using(crate::proofs::JobTexts::prefix_is, crate::proofs::JobTexts::prefix_is_not, crate::proofs::JobTexts::no_prefix))]
fn prefix_in(alloc: Global, most: usize, bytes: &[u8]) -> Result<Option<Text>, RecordFault>
    ensures { Gives (λ text. text) result (Ok (passed (is_prefix most) bytes.now)) }
{
    let Ok(text) = str::from_utf8(bytes) else {
        return Ok(None);
    };
    if bytes.len() > most {
        return Ok(None);
    }
    Ok(Some(Text::from_str(alloc, text)?))
}

#[tactic(auto, unfolding(crate::specs::Reading::tested_at))]
fn prefix_of(alloc: Global, most: usize, left: Rest<'_>) -> Result<(Text, Rest<'_>), RecordFault>
    ensures { Gives (λ x. (x.0, unread x.1)) result (tested_at w16 (is_prefix most) (unread left.entry)) }
{
    let (bytes, rest) = text_of(left)?;
    match prefix_in(alloc, most, bytes)? {
        Some(prefix) => Ok((prefix, rest)),
        None => Err(left.fault()),
    }
}

fn prefix_if(
    alloc: Global,
    most: usize,
    given: bool,
    left: Rest<'_>,
) -> Result<(Option<Text>, Rest<'_>), RecordFault>
    ensures { Gives (λ x. (x.0, unread x.1)) result (prefix_if most given (unread left.entry)) }
{
    if !given {
        return Ok((None, left));
    }
    let (prefix, rest) = prefix_of(alloc, most, left)?;
    Ok((Some(prefix), rest))
}

#[tactic(auto, unfolding(crate::specs::ReadingJobs::option_prefix_at))]
fn option_prefix_of(
    alloc: Global,
    most: usize,
    left: Rest<'_>,
) -> Result<(Option<Text>, Rest<'_>), RecordFault>
    ensures { Gives (λ x. (x.0, unread x.1)) result (option_prefix_at most (unread left.entry)) }
{
    let (given, rest) = flag_of(left)?;
    prefix_if(alloc, most, given, rest)
}

fn id_if(given: bool, left: Rest<'_>) -> Result<(Option<VersionId>, Rest<'_>), RecordFault>
    ensures { Gives (λ x. (x.0, unread x.1)) result (id_if given (unread left.entry)) }
{
    if !given {
        return Ok((None, left));
    }
    let (id, rest) = id_of(left)?;
    Ok((Some(id), rest))
}

#[tactic(auto, unfolding(crate::specs::ReadingJobs::option_id_at))]
fn option_id_of(left: Rest<'_>) -> Result<(Option<VersionId>, Rest<'_>), RecordFault>
    ensures { Gives (λ x. (x.0, unread x.1)) result (option_id_at (unread left.entry)) }
{
    let (given, rest) = flag_of(left)?;
    id_if(given, rest)
}

fn body_if(
    alloc: Global,
    given: bool,
    left: Rest<'_>,
) -> Result<(Option<Bytes>, Rest<'_>), RecordFault>
    ensures { Gives (λ x. (x.0, unread x.1)) result (body_if given (unread left.entry)) }
{
    if !given {
        return Ok((None, left));
    }
    let (body, rest) = body_of(alloc, LONGEST_REPORT, left)?;
    Ok((Some(body), rest))
}

#[tactic(auto, unfolding(crate::specs::ReadingJobs::option_body_at))]
pub(crate) fn option_body_of(
    alloc: Global,
    left: Rest<'_>,
) -> Result<(Option<Bytes>, Rest<'_>), RecordFault>
    ensures { Gives (λ x. (x.0, unread x.1)) result (option_body_at (unread left.entry)) }
{
    let (given, rest) = flag_of(left)?;
    body_if(alloc, given, rest)
}

#[tactic(auto, unfolding(crate::specs::ReadingJobs::copy_at))]
fn copy_of(alloc: Global, left: Rest<'_>) -> Result<(Operation, Rest<'_>), RecordFault>
    ensures { Gives (λ x. (x.0, unread x.1)) result (copy_at (unread left.entry)) }
{
    let (target, rest) = bucket_name_of(alloc, left)?;
    let (prefix, rest) = option_prefix_of(alloc, LONGEST_TARGET_PREFIX, rest)?;
    Ok((Operation::Copy { target, prefix }, rest))
}

#[tactic(auto, unfolding(crate::specs::ReadingJobs::tagging_at))]
fn tagging_of(alloc: Global, left: Rest<'_>) -> Result<(Operation, Rest<'_>), RecordFault>
    ensures { Gives (λ x. (x.0, unread x.1)) result (tagging_at (unread left.entry)) }
{
    let (tags, rest) = tag_set_of(alloc, left)?;
    Ok((Operation::Tagging(tags), rest))
}

#[tactic(auto, unfolding(crate::specs::ReadingJobs::hold_at))]
fn hold_of(left: Rest<'_>) -> Result<(Operation, Rest<'_>), RecordFault>
    ensures { Gives (λ x. (x.0, unread x.1)) result (hold_at (unread left.entry)) }
{
    let (hold, rest) = flag_of(left)?;
    Ok((Operation::Hold(hold), rest))
}

#[tactic(auto, unfolding(crate::specs::ReadingJobs::operation_at, crate::specs::ReadingJobs::operation_of))]
fn operation_of(alloc: Global, left: Rest<'_>) -> Result<(Operation, Rest<'_>), RecordFault>
    ensures { Gives (λ x. (x.0, unread x.1)) result (operation_at (unread left.entry)) }
{
    let (byte, rest) = byte_of(u8::MAX, left)?;
    match byte {
        1 => copy_of(alloc, rest),
        2 => tagging_of(alloc, rest),
        3 => hold_of(rest),
        4 => Ok((Operation::Replicate, rest)),
        _ => Err(left.fault()),
    }
}

#[tactic(auto, unfolding(crate::specs::ReadingJobs::manifest_at))]
fn manifest_of(alloc: Global, left: Rest<'_>) -> Result<(ManifestSpec, Rest<'_>), RecordFault>
    ensures { Gives (λ x. (x.0, unread x.1)) result (manifest_at (unread left.entry)) }
{
    let (versions, rest) = flag_of(left)?;
    let (bucket, rest) = bucket_name_of(alloc, rest)?;
    let (key, rest) = key_of(alloc, rest)?;
    let (version, rest) = option_id_of(rest)?;
    let manifest = ManifestSpec {
        versions,
        bucket,
        key,
        version,
    };
    Ok((manifest, rest))
}

#[tactic(auto, unfolding(crate::specs::ReadingJobs::report_at))]
fn report_of(alloc: Global, left: Rest<'_>) -> Result<(ReportSpec, Rest<'_>), RecordFault>
    ensures { Gives (λ x. (x.0, unread x.1)) result (report_at (unread left.entry)) }
{
    let (bucket, rest) = bucket_name_of(alloc, left)?;
    let (prefix, rest) = option_prefix_of(alloc, LONGEST_REPORT_PREFIX, rest)?;
    let (all, rest) = flag_of(rest)?;
    let report = ReportSpec {
        bucket,
        prefix,
        all,
    };
    Ok((report, rest))
}

fn report_if(
    alloc: Global,
    given: bool,
    left: Rest<'_>,
) -> Result<(Option<ReportSpec>, Rest<'_>), RecordFault>
    ensures { Gives (λ x. (x.0, unread x.1)) result (report_if given (unread left.entry)) }
{
    if !given {
        return Ok((None, left));
    }
    let (report, rest) = report_of(alloc, left)?;
    Ok((Some(report), rest))
}

#[tactic(auto, unfolding(crate::specs::ReadingJobs::option_report_at))]
fn option_report_of(
    alloc: Global,
    left: Rest<'_>,
) -> Result<(Option<ReportSpec>, Rest<'_>), RecordFault>
    ensures { Gives (λ x. (x.0, unread x.1)) result (option_report_at (unread left.entry)) }
{
    let (given, rest) = flag_of(left)?;
    report_if(alloc, given, rest)
}

#[tactic(auto, unfolding(crate::specs::ReadingJobs::spec_at))]
pub(crate) fn spec_of(alloc: Global, left: Rest<'_>) -> Result<(JobSpec, Rest<'_>), RecordFault>
    ensures { Gives (λ x. (x.0, unread x.1)) result (spec_at (unread left.entry)) }
{
    let (token, rest) = token_of(alloc, left)?;
    let (priority, rest) = number_within(0, MOST_PRIORITY, rest)?;
    let (confirm, rest) = flag_of(rest)?;
    let (operation, rest) = operation_of(alloc, rest)?;
    let (manifest, rest) = manifest_of(alloc, rest)?;
    let (report, rest) = option_report_of(alloc, rest)?;
    let spec = JobSpec {
        token,
        priority,
        confirm,
        operation,
        manifest,
        report,
    };
    Ok((spec, rest))
}

#[tactic(auto, unfolding(crate::specs::ReadingJobs::state_at, crate::specs::ReadingJobs::state_of))]
pub(crate) fn state_of(left: Rest<'_>) -> Result<(JobState, Rest<'_>), RecordFault>
    ensures { Gives (λ x. (x.0, unread x.1)) result (state_at (unread left.entry)) }
{
    let (byte, rest) = byte_of(u8::MAX, left)?;
    match byte {
        1 => Ok((JobState::Preparing, rest)),
        2 => Ok((JobState::Ready, rest)),
        3 => Ok((JobState::Active, rest)),
        4 => Ok((JobState::Pausing, rest)),
        5 => Ok((JobState::Paused, rest)),
        6 => Ok((JobState::Failing, rest)),
        7 => Ok((JobState::Cancelling, rest)),
        _ => Err(left.fault()),
    }
}
