//! Which commands about jobs may come next.

ghost use Rattle.std.specs.Prelude.{◌≡◌, ◌<◌};
ghost use Rattle.s3r_jobs.specs.Any.{facts};
ghost use Rattle.s3r_jobs.specs.Jobs.{find_job};
ghost use Rattle.s3r_jobs.specs.Lines.{may_start};
ghost use Rattle.s3r_jobs.specs.States.{is_active, is_preparing, is_stopping, has_ended};
ghost use Rattle.s3r_history.specs.Accepts.{first_of_causes, in_bucket, in_job, of_job, of_move, of_priority, of_preparing, of_line, of_finish, lacks_report, lacks_target, has_move, leaves_one, wanted_by};
ghost use Rattle.s3r_region.specs.After.{seen};
ghost use Rattle.s3r_region.specs.View.{seen_view};
ghost use Rattle.s3r_region.specs.Denies.{Accepts, GivesJob};

use crate::{Deny, State};
use s3r_history::Refusal;
use s3r_jobs::{AnyJob, JobSpec, JobState, MOST_UNENDED, Operation, ReportSpec, Wanted};
use s3r_names::{Bytes, VersionId};
use s3r_rules::Kind;

/// The refusal of a job that can't do what is wanted.
fn refused(job: &AnyJob, wanted: Wanted) -> Deny
    ensures { result ≡ Deny.Refused (Refusal.JobStatus (facts job.now).state wanted) }
{
    Deny::Refused(Refusal::JobStatus {
        from: job.state(),
        wanted,
    })
}

/// Whether a job may get another priority.
pub(crate) fn may_set_priority(job: &AnyJob) -> Result<(), Deny>
    ensures { Accepts (first_of_causes (of_priority (facts job.now))) result }
{
    match job.state() {
        JobState::Complete | JobState::Cancelled | JobState::Failed => {
            Err(refused(job, Wanted::Priority))
        }
        JobState::New
        | JobState::Preparing
        | JobState::Suspended
        | JobState::Ready
        | JobState::Active
        | JobState::Pausing
        | JobState::Paused
        | JobState::Cancelling
        | JobState::Failing => Ok(()),
    }
}

/// Whether a job's manifest may be read.
pub(crate) fn may_prepare(job: &AnyJob) -> Result<(), Deny>
    ensures { Accepts (first_of_causes (of_preparing (facts job.now))) result }
{
    if is_preparing(job.state()) {
        Ok(())
    } else {
        Err(refused(job, Wanted::Prepare))
    }
}

fn is_preparing(state: JobState) -> bool
    ensures { result ≡ is_preparing state }
{
    match state {
        JobState::Preparing => true,
        JobState::New
        | JobState::Suspended
        | JobState::Ready
        | JobState::Active
        | JobState::Pausing
        | JobState::Paused
        | JobState::Cancelling
        | JobState::Failing
        | JobState::Complete
        | JobState::Cancelled
        | JobState::Failed => false,
    }
}

fn is_active(state: JobState) -> bool
    ensures { result ≡ is_active state }
{
    match state {
        JobState::Active => true,
        JobState::New
        | JobState::Preparing
        | JobState::Suspended
        | JobState::Ready
        | JobState::Pausing
        | JobState::Paused
        | JobState::Cancelling
        | JobState::Failing
        | JobState::Complete
        | JobState::Cancelled
        | JobState::Failed => false,
    }
}

fn is_stopping(state: JobState) -> bool
    ensures { result ≡ is_stopping state }
{
    match state {
        JobState::Cancelling | JobState::Failing => true,
        JobState::New
        | JobState::Preparing
        | JobState::Suspended
        | JobState::Ready
        | JobState::Active
        | JobState::Pausing
        | JobState::Paused
        | JobState::Complete
        | JobState::Cancelled
        | JobState::Failed => false,
    }
}

/// Whether the job may begin its next line.
fn may_start(job: &AnyJob) -> bool
    ensures { result ≡ may_start (facts job.now) }
{
    is_active(job.state())
        && job.is_free()
        && job.results().len() < job.lines().len()
        && !job.is_over()
}

/// Whether a job may do this line, counted from 1.
pub(crate) fn may_do_line(job: &AnyJob, line: u32) -> Result<(), Deny>
    ensures { Accepts (first_of_causes (of_line line (facts job.now))) result }
{
    if may_start(job) && line as usize == job.results().len() + 1 {
        Ok(())
    } else {
        Err(refused(job, Wanted::Line))
    }
}

/// Whether a job may end with this report.
pub(crate) fn may_finish(job: &AnyJob, body: &Option<Bytes>) -> Result<(), Deny>
    ensures { Accepts (first_of_causes (of_finish body.now (facts job.now))) result }
{
    if (job.is_done() || is_stopping(job.state())) && body.is_none() {
        Ok(())
    } else {
        Err(refused(job, Wanted::Finish))
    }
}

/// Whether a command may move the job to this state.
fn has_move(job: &AnyJob, to: JobState) -> bool
    ensures { result ≡ has_move (facts job.now) to }
{
    match job.state() {
        JobState::New => to == JobState::Preparing || to == JobState::Cancelling,
        JobState::Preparing => to == JobState::Cancelling,
        JobState::Suspended => to == JobState::Ready || to == JobState::Cancelling,
        JobState::Ready => to == JobState::Active || to == JobState::Cancelling,
        JobState::Active => {
            to == JobState::Pausing
                || to == JobState::Cancelling
                || (to == JobState::Failing && job.is_over())
        }
        JobState::Pausing => to == JobState::Paused || to == JobState::Cancelling,
        JobState::Paused => to == JobState::Active || to == JobState::Cancelling,
        JobState::Cancelling
        | JobState::Failing
        | JobState::Complete
        | JobState::Cancelled
        | JobState::Failed => false,
    }
}

/// What is wanted of a job that is to move to this state.
fn wanted_by(to: JobState) -> Wanted
    ensures { result ≡ wanted_by to }
{
    match to {
        JobState::Cancelling => Wanted::State(JobState::Cancelled),
        JobState::New
        | JobState::Preparing
        | JobState::Suspended
        | JobState::Ready
        | JobState::Active
        | JobState::Pausing
        | JobState::Paused
        | JobState::Failing
        | JobState::Complete
        | JobState::Cancelled
        | JobState::Failed => Wanted::State(to),
    }
}

impl State {
    /// The job of this id, or the refusal of one that isn't there.
    pub(crate) fn job(&self, id: u64) -> Result<&AnyJob, Deny>
        ensures { GivesJob (find_job id self.now.jobs.jobs) result }
    {
        match self.jobs().find(id) {
            Some(job) => Ok(job),
            None => Err(Deny::Refused(Refusal::NoSuchJob)),
        }
    }

    /// Whether no other job is in the way of one that moves to this state.
    fn leaves_one(&self, to: JobState) -> bool
        ensures { result ≡ leaves_one self.now.jobs.jobs to }
    {
        !(is_active(to) && self.jobs().running().is_some())
    }

    /// Whether a job may move to this state.
    pub(crate) fn may_move_job(&self, id: u64, to: JobState) -> Result<(), Deny>
        ensures { Accepts (first_of_causes (in_job (of_move self.now.jobs.jobs to) (find_job id self.now.jobs.jobs))) result }
    {
        let job = self.job(id)?;
        if has_move(job, to) && self.leaves_one(to) {
            Ok(())
        } else {
            Err(refused(job, wanted_by(to)))
        }
    }

    /// Whether a job's report has no bucket that takes it.
    pub fn lacks_report(&self, report: &Option<ReportSpec>) -> bool
        ensures { result ≡ lacks_report (seen_view self.now) report.now }
    {
        match report {
            Some(report) => match self.bucket(&report.bucket) {
                Some(bucket) => !bucket.enabled,
                None => true,
            },
            None => false,
        }
    }

    /// Whether an operation's target isn't there.
    pub fn lacks_target(&self, operation: &Operation) -> bool
        ensures { result ≡ lacks_target (seen_view self.now) operation.now }
    {
        match operation {
            Operation::Copy { target, .. } => self.bucket(target).is_none(),
            Operation::Tagging(_) | Operation::Hold(_) | Operation::Replicate => false,
        }
    }

    /// Whether a job may be created over this version of its manifest.
    pub(crate) fn may_create_job(&self, spec: &JobSpec, manifest: VersionId) -> Result<(), Deny>
        ensures { Accepts (first_of_causes (in_bucket (of_job (seen_view self.now) spec.now manifest) (seen self.now spec.now.manifest.bucket))) result }
    {
        let bucket = self.there(&spec.manifest.bucket)?;
        if let Some((job, _)) = self.jobs().token(spec.token.as_str()) {
            let id = VersionId {
                region: self.region(),
                index: job,
            };
            return Err(Deny::Refused(Refusal::Idempotency { id }));
        }
        if self.lacks_report(&spec.report) {
            let kind = Kind::Report;
            return Err(Deny::Refused(Refusal::InvalidRequest { rule: 0, kind }));
        }
        if self.lacks_target(&spec.operation) {
            let kind = Kind::Target;
            return Err(Deny::Refused(Refusal::InvalidRequest { rule: 0, kind }));
        }
        match bucket.rows.find(&spec.manifest.key, manifest) {
            Some(row) if row.marker => Err(Deny::Refused(Refusal::MethodNotAllowed)),
            Some(_) if self.jobs().unended() as usize >= MOST_UNENDED => {
                Err(Deny::Refused(Refusal::TooManyJobs))
            }
            Some(_) => Ok(()),
            None => Err(Deny::Refused(Refusal::NoSuchVersion)),
        }
    }
}
