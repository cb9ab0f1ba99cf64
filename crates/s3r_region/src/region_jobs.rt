//! The jobs of a region, each with the version of its manifest.

ghost use Rattle.std.specs.Prelude.{◌≡◌, ◌∷◌, ◌+◌, ℕ, List, [], OnOk, Option, Some, option_map, find, length};
ghost use Rattle.s3r_jobs.specs.declared.result.LineResult.{LineResult};
ghost use Rattle.s3r_record.specs.declared.command.Command.{Command};
ghost use Rattle.s3r_history.specs.Words.{History};
ghost use Rattle.s3r_history.specs.Deeds.{deed, deeds};
ghost use Rattle.s3r_region.specs.KeptJobs.{IsAfter, is_of};
ghost use Rattle.s3r_region.specs.Waiting.{IsAccepted};

use crate::job_steps::{finished, moved, read, went_on};
use s3r_jobs::{FailureReason, Job, JobSpec, JobState, Jobs, LineResult};
use s3r_lines::Lines;
use s3r_names::VersionId;
use std::alloc::{AllocError, Global};
use std::marker::Model;

/// The version of a job's manifest.
#[derive(Clone, Copy)]
pub(crate) struct Manifest {
    /// The job's id.
    pub(crate) job: u64,
    pub(crate) version: VersionId,
}

/// The jobs of a region, each with the version of its manifest.
#[derive(Drop)]
pub(crate) struct RegionJobs {
    jobs: Jobs,
    manifests: Vec<Manifest>,
}

impl Model for RegionJobs {
    ghost use Rattle.s3r_region.specs.KeptJobs.{KeptJobs};

    ghost Value = { KeptJobs };

    ghost view = { λ kept. record { jobs = kept.jobs; manifests = kept.manifests.items } };
}

impl RegionJobs {
    /// Those after no command.
    pub(crate) fn new(alloc: Global) -> RegionJobs
        ensures { (r : ℕ) → IsAfter r result [] }
    {
        RegionJobs {
            jobs: Jobs::new(alloc),
            manifests: Vec::new(alloc),
        }
    }

    pub(crate) fn jobs(&self) -> &Jobs
        ensures { result.now ≡ self.now.jobs }
    {
        &self.jobs
    }

    /// The version of a job's manifest, where the job is there.
    pub(crate) fn manifest(&self, job: u64) -> Option<VersionId>
        ensures { result ≡ option_map (λ manifest. manifest.version) (find (is_of job) self.now.manifests) }
    {
        match self.manifests.iter().find(|manifest| manifest.job == job) {
            Some(manifest) => Some(manifest.version),
            None => None,
        }
    }

    /// A job is created by the command of this index. After an error they are given up.
    pub(crate) fn create(
        &mut self,
        alloc: Global,
        id: u64,
        spec: JobSpec,
        version: VersionId,
    ) -> Result<(), AllocError>
        ensures { OnOk result ((r : ℕ) (h : History) → id ≡ length h + 1 → IsAfter r self.old h
            → IsAfter r self.new (Command.CreateJob spec version ∷ h)) }
    {
        self.manifests.push(Manifest { job: id, version })?;
        let Ok(()) = self.jobs.add(Job::make(alloc, id, spec)) else {
            return Err(AllocError);
        };
        Ok(())
    }

    /// A job moves to a state.
    pub(crate) fn move_to(&mut self, id: u64, to: JobState)
        ensures { (n r : ℕ) (h : History) → IsAccepted n r h (Command.MoveJob id to) → IsAfter r self.old h
            → IsAfter r self.new (Command.MoveJob id to ∷ h) }
    {
        if let Some(job) = self.jobs.take_out(id) {
            self.jobs.give_back(moved(job, to));
        }
    }

    /// A job's priority is this from now on.
    pub(crate) fn set_priority(&mut self, id: u64, priority: u32)
        ensures { (n r : ℕ) (h : History) → IsAccepted n r h (Command.SetPriority id priority) → IsAfter r self.old h
            → IsAfter r self.new (Command.SetPriority id priority ∷ h) }
    {
        if let Some(mut job) = self.jobs.take_out(id) {
            let _ = job.set_priority(priority);
            self.jobs.give_back(job);
        }
    }

    /// A job's manifest was read. After an error they are given up.
    pub(crate) fn prepare(
        &mut self,
        alloc: Global,
        id: u64,
        lines: Result<Lines, FailureReason>,
    ) -> Result<(), AllocError>
        ensures { OnOk result ((n r : ℕ) (h : History) → IsAccepted n r h (Command.Prepare id)
            → (deed r h (deeds r h) (Command.Prepare id)).read ≡ Some lines → IsAfter r self.old h → IsAfter r self.new (Command.Prepare id ∷ h)) }
    {
        if let Some(job) = self.jobs.take_out(id) {
            let job = read(alloc, job, lines)?;
            self.jobs.give_back(job);
        }
        Ok(())
    }

    /// A job did its next line, which came to this, or waits.
    pub(crate) fn go_on(&mut self, id: u64, result_of: Option<LineResult>)
        ensures { (n r line : ℕ) (h : History) → IsAccepted n r h (Command.Line id line)
            → (deed r h (deeds r h) (Command.Line id line)).result ≡ result_of → IsAfter r self.old h → IsAfter r self.new (Command.Line id line ∷ h) }
    {
        if let Some(job) = self.jobs.take_out(id) {
            self.jobs.give_back(went_on(job, result_of));
        }
    }

    /// A job ends.
    pub(crate) fn finish(&mut self, id: u64)
        ensures { (n r : ℕ) (h : History) (body : Option (List ℕ)) → IsAccepted n r h (Command.Finish id body) → IsAfter r self.old h
            → IsAfter r self.new (Command.Finish id body ∷ h) }
    {
        if let Some(job) = self.jobs.take_out(id) {
            self.jobs.give_back(finished(job));
        }
    }
}
