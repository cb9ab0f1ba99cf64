//! What is asked of jobs and of turns (S3 API Reference, CreateJob, UpdateJobPriority and UpdateJobStatus).

ghost use Rattle.std.specs.Prelude.{◌≡◌};
ghost use Rattle.s3r_routes.specs.Places.{seen};
ghost use Rattle.s3r_api.specs.Problems.{Gives};
ghost use Rattle.s3r_api.specs.Jobs.{job_request, id_or_none, job_at, priority_request, ready_by, status_request, turn_request, work_request};
ghost use Rattle.s3r_routes.specs.Names.{version_named};
ghost use Rattle.s3r_routes.specs.Query.{value};
ghost use Rattle.s3r_routes.specs.declared.words.Word.TheVariants as word;

use crate::numbers::number_asked;
use crate::problem::Problem;
use s3r_desk::Request;
use s3r_http::RawRequest;
use s3r_jobs::MOST_PRIORITY;
use s3r_jobs_json::read_job;
use s3r_names::VersionId;
use s3r_routes::{Query, Target, Word, version_named};
use std::alloc::Global;

/// A new job, which the body describes. MalformedJson also where it is to copy, to replicate or to report, which jobs
/// don't do yet.
pub fn job_request(alloc: Global, raw: &RawRequest) -> Result<Request, Problem>
    ensures { Gives result (job_request raw.now) }
{
    let spec = read_job(alloc, raw.body.as_slice())?;
    Ok(Request::CreateJob { spec })
}

fn id_or_none(text: &[u8]) -> Option<VersionId>
    ensures { result ≡ id_or_none (version_named text.now) }
{
    match version_named(text) {
        Ok(id) => Some(id),
        Err(_) => None,
    }
}

/// The job of a path. None where what is written isn't of an id's form, or no job is named.
pub fn job_at(place: &Target) -> Option<VersionId>
    ensures { result ≡ job_at (seen place.now) }
{
    match place {
        Target::Job(id) | Target::JobPriority(id) | Target::JobStatus(id) => id_or_none(id),
        Target::Bucket(_)
        | Target::Object(_, _)
        | Target::Jobs
        | Target::Copy
        | Target::JobTurn
        | Target::Work
        | Target::Check => None,
    }
}

/// Another priority of a job.
pub fn priority_request(id: Option<VersionId>, words: &Query) -> Result<Request, Problem>
    ensures { result ≡ priority_request id words.now }
{
    let priority = number_asked(words, Word::Priority, MOST_PRIORITY)?;
    Ok(Request::SetJobPriority { id, priority })
}

/// Whether a job is to be Ready. InvalidQuery where the word says neither that nor Cancelled.
fn ready_asked(words: &Query) -> Result<bool, Problem>
    ensures { result ≡ ready_by (value word.RequestedJobStatus words.now) }
{
    match words.value(Word::RequestedJobStatus) {
        Some("Ready") => Ok(true),
        Some("Cancelled") => Ok(false),
        _ => Err(Problem::InvalidQuery),
    }
}

/// A job that is confirmed, or cancelled.
pub fn status_request(id: Option<VersionId>, words: &Query) -> Result<Request, Problem>
    ensures { result ≡ status_request id words.now }
{
    let ready = ready_asked(words)?;
    Ok(Request::SetJobStatus { id, ready })
}

/// A turn of a region's jobs. Whether there is such a region is the desk's question.
pub fn turn_request(words: &Query) -> Result<Request, Problem>
    ensures { result ≡ turn_request words.now }
{
    let region = number_asked(words, Word::Region, u32::MAX)?;
    Ok(Request::JobTurn { region })
}

/// The most rounds of work of one request.
const MOST_ROUNDS: u32 = 100_000;

/// Rounds of turns of the copier and of jobs.
pub fn work_request(words: &Query) -> Result<Request, Problem>
    ensures { result ≡ work_request words.now }
{
    let rounds = number_asked(words, Word::Rounds, MOST_ROUNDS)?;
    Ok(Request::Work { rounds })
}
