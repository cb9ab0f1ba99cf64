//! What requests about jobs come to.
ghost use Rattle.std.specs.Prelude.{◌≡◌, ◌<◌, ◌≤◌, ℕ, IsTrue, length};
ghost use Rattle.s3r_jobs.specs.Facts.{JobFacts};
ghost use Rattle.s3r_jobs.specs.Jobs.{token_job};
ghost use Rattle.s3r_jobs.specs.Rules.{IsJobSpec};
ghost use Rattle.s3r_record.specs.JobFields.{is_moved_to};
ghost use Rattle.s3r_region.specs.After.{seen};
ghost use Rattle.s3r_desk.specs.Steps as steps;
ghost use Rattle.s3r_desk.specs.Steps.{IsNamed, FitsIn, location, at_location, unless_refused, over_manifest, new_job, job_again, unless_made, job_creation, at_job, prioritized, state_asked, moved};
ghost use Rattle.s3r_desk.specs.Lookups.{views_of, jobs_of, seen_location, planned_job};

use crate::Answer;
use crate::bucket_location::BucketLocation;
use crate::finding::location_of;
use crate::object::object_at;
use crate::planning::{Plan, Reply, refuses};
use s3r_history::Refusal;
use s3r_jobs::{JobSpec, JobState};
use s3r_names::VersionId;
use s3r_record::Command;
use s3r_region::State;
use s3r_rules::Kind;
use s3r_store::Store;

/// What a request for a new job comes to.
#[derive(Clone, Copy)]
pub enum NewJob {
    /// A region is to create it, over this version of its manifest.
    Over { region: usize, manifest: VersionId },
    /// Its token made it before.
    There(VersionId),
    Refused(Refusal),
}

// Why a region that keeps this can't have the job, whatever its manifest is.
fn not_taken(state: &State, spec: &JobSpec) -> Option<Refusal>
    ensures { (h : steps.BucketLocation) → new_job (seen state.now) spec.now h ≡ unless_refused (over_manifest spec.now h) result }
{
    if state.lacks_report(&spec.report) {
        let kind = Kind::Report;
        return Some(Refusal::InvalidRequest { rule: 0, kind });
    }
    if state.lacks_target(&spec.operation) {
        let kind = Kind::Target;
        return Some(Refusal::InvalidRequest { rule: 0, kind });
    }
    None
}

// The job is created over the version that is its manifest.
fn over_manifest(location: BucketLocation<'_>, spec: &JobSpec) -> NewJob
    requires { IsJobSpec spec.now }
    ensures planned { planned_job spec.now result ≡ over_manifest spec.now (seen_location location.entry) }
    ensures fits { (n : ℕ) → location.entry.region < n → FitsIn n (planned_job spec.now result) }
{
    match object_at(location, &spec.manifest.key, spec.manifest.version) {
        Ok(row) => NewJob::Over {
            region: location.region,
            manifest: row.id,
        },
        Err(why) => NewJob::Refused(why),
    }
}

// The job that the token made, by its id and as it was created, is asked for again, or another one is.
fn job_again(region: usize, index: u64, made: &JobSpec, spec: &JobSpec) -> NewJob
    requires { region ≤ 7 }
    ensures planned { (job : JobFacts) → index ≡ job.id → made.now ≡ job.spec → planned_job spec.now result ≡ job_again region spec.now job }
    ensures fits { (n : ℕ) → FitsIn n (planned_job spec.now result) }
{
    let id = VersionId {
        region: region as u8,
        index,
    };
    if made.same(spec) {
        NewJob::There(id)
    } else {
        NewJob::Refused(Refusal::Idempotency { id })
    }
}

// What the request comes to in the region that has the manifest's bucket, and keeps this.
fn new_job(state: &State, location: BucketLocation<'_>, spec: &JobSpec) -> NewJob
    requires region { location.region ≤ 7 }
    requires fits { IsJobSpec spec.now }
    ensures planned { planned_job spec.now result ≡ unless_made (new_job (seen state.now) spec.now (seen_location location.entry))
        location.entry.region spec.now (token_job spec.now.token state.now.jobs.jobs) }
    ensures fits { (n : ℕ) → location.entry.region < n → FitsIn n (planned_job spec.now result) }
{
    if let Some((index, made)) = state.jobs().token(spec.token.as_str()) {
        return job_again(location.region, index, made, spec);
    }
    match not_taken(state, spec) {
        Some(why) => NewJob::Refused(why),
        None => over_manifest(location, spec),
    }
}

// So it is among all regions.
fn job_asked(stores: &[Store], spec: &JobSpec) -> NewJob
    requires few { length stores.now ≤ 8 }
    requires fits { IsJobSpec spec.now }
    ensures planned { planned_job spec.now result ≡ at_location (job_creation (views_of stores.now) (jobs_of stores.now) spec.now)
        (location (length stores.now) (views_of stores.now) spec.now.manifest.bucket) }
    ensures fits { FitsIn (length stores.now) (planned_job spec.now result) }
{
    let Some(location) = location_of(stores, &spec.manifest.bucket) else {
        return NewJob::Refused(Refusal::NoSuchBucket);
    };
    let Some(state) = stores[location.region].state() else {
        unreachable!();
    };
    new_job(state, location, spec)
}

/// A new job in the region of its manifest's bucket, unless its token made one there, or it can't run.
pub(crate) fn create_job(stores: &[Store], spec: JobSpec) -> Plan
    requires few { length stores.now ≤ 8 }
    requires fits { IsJobSpec spec }
    ensures planned { result ≡ at_location (job_creation (views_of stores.now) (jobs_of stores.now) spec)
        (location (length stores.now) (views_of stores.now) spec.manifest.bucket) }
    ensures fits { FitsIn (length stores.now) result }
{
    match job_asked(stores, &spec) {
        NewJob::Over { region, manifest } => Plan::Commits {
            region,
            command: Command::CreateJob { spec, manifest },
            reply: Reply::Created,
        },
        NewJob::There(id) => {
            drop(spec);
            Plan::Shows(Answer::JobMade(id))
        }
        NewJob::Refused(why) => {
            drop(spec);
            refuses(why)
        }
    }
}

/// A job of one of so many regions has this priority from now on.
pub(crate) fn set_job_priority(regions: usize, id: Option<VersionId>, priority: u32) -> Plan
    requires fits { IsNamed id × (priority ≤ 2147483647) }
    ensures planned { result ≡ at_job regions (prioritized priority) id }
    ensures fits { FitsIn regions result }
{
    match id {
        Some(id) if (id.region as usize) < regions => Plan::Commits {
            region: id.region as usize,
            command: Command::SetPriority {
                job: id.index,
                priority,
            },
            reply: Reply::Is(Answer::JobSet { id, priority }),
        },
        Some(_) | None => refuses(Refusal::NoSuchJob),
    }
}

// The state that a client asks for.
fn state_asked(ready: bool) -> JobState
    ensures asked { result ≡ state_asked ready }
    ensures moved { IsTrue (is_moved_to result) }
{
    if ready {
        JobState::Ready
    } else {
        JobState::Cancelling
    }
}

/// A job of one of so many regions is confirmed, or cancelled.
pub(crate) fn set_job_status(regions: usize, id: Option<VersionId>, ready: bool) -> Plan
    requires fits { IsNamed id }
    ensures planned { result ≡ at_job regions (moved (state_asked ready)) id }
    ensures fits { FitsIn regions result }
{
    let state = state_asked(ready);
    match id {
        Some(id) if (id.region as usize) < regions => Plan::Commits {
            region: id.region as usize,
            command: Command::MoveJob {
                job: id.index,
                state,
            },
            reply: Reply::Is(Answer::JobMoved { id, state }),
        },
        Some(_) | None => refuses(Refusal::NoSuchJob),
    }
}
