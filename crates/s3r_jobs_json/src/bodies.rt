//! A job's body, read.

ghost use Rattle.std.specs.Prelude.{IfOk};
ghost use Rattle.serde_json.specs.View.{view};
ghost use Rattle.s3r_json.specs.Bodies.{body_value};
ghost use Rattle.s3r_jobs.specs.Rules.{IsJobSpec, SpecMeetsLimits};
ghost use Rattle.s3r_jobs_json.specs.Faults.{Gives, GivesBy, or_malformed};
ghost use Rattle.s3r_jobs_json.specs.Reading.{job_body};

use crate::fault::JobFault;
use crate::form::draft_of;
use crate::limits::spec_from;
use s3r_jobs::JobSpec;
use s3r_json::{BodyFault, read_value};
use serde_json::Value;
use std::alloc::Global;

fn value_of(alloc: Global, body: &[u8]) -> Result<Value, JobFault>
    ensures { GivesBy view result (or_malformed (body_value body.now)) }
{
    match read_value(alloc, body) {
        Ok(value) => Ok(value),
        Err(BodyFault::OutOfMemory) => Err(JobFault::OutOfMemory),
        Err(_) => Err(JobFault::MalformedJson),
    }
}

/// The job that a body asks for. MalformedJson where it isn't of a job's form, else InvalidTag where the tags that it is
/// to set are no set, else InvalidRequest with Token and then with Priority, else InvalidArn where its manifest isn't an
/// object's ARN, else InvalidVersionId.
pub fn read_job(alloc: Global, body: &[u8]) -> Result<JobSpec, JobFault>
    ensures job { Gives result (job_body body.now) }
    ensures rules { IfOk result IsJobSpec }
    ensures limits { IfOk result SpecMeetsLimits }
{
    let value = value_of(alloc, body)?;
    let draft = draft_of(alloc, &value)?;
    spec_from(alloc, &draft)
}
