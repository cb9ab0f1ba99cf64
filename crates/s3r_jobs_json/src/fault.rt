//! Why a body asks for no job.

ghost use Rattle.std.specs.Prelude.{◌≡◌};
ghost use Rattle.s3r_jobs_json.specs.declared.fault.JobFault.TheVariants.{OutOfMemory};

use s3r_rules::Kind;
use std::alloc::{AllocError, AllocFailed};
use thiserror::Error;

/// Why a body asks for no job, in the order in which it is looked for.
#[derive(Clone, Copy, Debug, Error)]
pub enum JobFault {
    /// No JSON, or JSON of another form.
    #[error("not the JSON of a job")]
    MalformedJson,
    /// The tags that it is to set are no set.
    #[error("not a tag set")]
    InvalidTag,
    /// A member's length or number is out of its range.
    #[error("a member of the job is out of its range")]
    InvalidRequest(Kind),
    /// Its manifest isn't an object's ARN.
    #[error("not the ARN of an object")]
    InvalidArn,
    /// Its manifest's version isn't the id of one.
    #[error("not the id of a version")]
    InvalidVersionId,
    #[error("out of memory")]
    OutOfMemory,
}

impl From<AllocError> for JobFault {
    ghost from_gives = { λ _ fault. fault ≡ OutOfMemory };

    fn from(_error: AllocError) -> JobFault {
        JobFault::OutOfMemory
    }
}
