//! What commands about jobs do to a state.

ghost use Rattle.std.specs.Prelude.{◌≡◌, ◌+◌, ◌<◌, ◌≤◌, ◌^◌, IfOk, OnOk, Option, List, ℕ, Some};
ghost use Rattle.s3r_manifest.specs.Lines.{manifest};
ghost use Rattle.s3r_record.specs.declared.command.Command.{Command};
ghost use Rattle.s3r_history.specs.Words.{History};
ghost use Rattle.s3r_history.specs.Deeds.{deed, deeds};
ghost use Rattle.s3r_history.specs.JobLines.{as_read, result_by};
ghost use Rattle.s3r_region.specs.After.{IsAfter};
ghost use Rattle.s3r_region.specs.Applies.{Applies};
ghost use Rattle.s3r_region.specs.Changes.{next_stamp};
ghost use Rattle.s3r_region.specs.JobLine.{as_outcome, after_line};
ghost use Rattle.s3r_region.specs.Waiting.{IsAccepted};

use crate::State;
use crate::job_line::{LineOutcome, LineWrite};
use s3r_jobs::{FailureReason, JobSpec, JobState, LineResult};
use s3r_lines::Lines;
use s3r_manifest::ManifestFault;
use s3r_names::VersionId;
use std::alloc::{AllocError, Global};

/// The lines of a manifest, or why it has none. The error is want of memory.
fn lines_of(
    alloc: Global,
    versions: bool,
    text: &[u8],
) -> Result<Result<Lines, FailureReason>, AllocError>
    ensures { IfOk result (λ lines. lines ≡ as_read (manifest versions text.now)) }
{
    match s3r_manifest::read(alloc, versions, text) {
        Ok(lines) => Ok(Ok(lines)),
        Err(ManifestFault::OutOfMemory) => Err(AllocError),
        Err(ManifestFault::ManifestTooLong) => Ok(Err(FailureReason::TooLong)),
        Err(ManifestFault::TooManyLines) => Ok(Err(FailureReason::TooManyLines)),
        Err(ManifestFault::BadLine(number, kind)) => {
            Ok(Err(FailureReason::BadLine { number, kind }))
        }
    }
}

impl State {
    /// The lines of a job's manifest as it stands, or why it has none. The error is want of memory.
    fn read_manifest(
        &self,
        alloc: Global,
        job: u64,
    ) -> Result<Result<Lines, FailureReason>, AllocError>
        ensures { IfOk result (λ lines. (h : History) → IsAfter self.now h → IsAccepted self.now.regions self.now.region h (Command.Prepare job)
            → (deed self.now.region h (deeds self.now.region h) (Command.Prepare job)).read ≡ Some lines) }
    {
        let Some(found) = self.jobs().find(job) else {
            return Ok(Err(FailureReason::Gone));
        };
        let Some(version) = self.manifest(job) else {
            return Ok(Err(FailureReason::Gone));
        };
        let asked = &found.spec().manifest;
        let Some(bucket) = self.bucket(&asked.bucket) else {
            return Ok(Err(FailureReason::Gone));
        };
        match bucket.rows.find(&asked.key, version) {
            Some(row) => lines_of(alloc, asked.versions, row.body.as_slice()),
            None => Ok(Err(FailureReason::Gone)),
        }
    }

    /// A job is created. After an error the state is given up.
    pub(crate) fn create_job(
        &mut self,
        alloc: Global,
        spec: JobSpec,
        manifest: VersionId,
    ) -> Result<(), AllocError>
        requires { self.old.commands + 1 < 2 ^ 64 }
        ensures { OnOk result (Applies (Command.CreateJob spec manifest) self.old self.new) }
    {
        self.add_job(alloc, spec, manifest)
    }

    /// A job's manifest is read. After an error the state is given up.
    pub(crate) fn prepare(&mut self, alloc: Global, job: u64) -> Result<(), AllocError>
        requires { self.old.commands + 1 < 2 ^ 64 }
        ensures { OnOk result (Applies (Command.Prepare job) self.old self.new) }
    {
        let lines = self.read_manifest(alloc, job)?;
        self.prepare_job(alloc, job, lines)
    }

    /// Does what a line comes to, and gives its result. After an error the state is given up.
    fn write_line(
        &mut self,
        alloc: Global,
        outcome: LineOutcome,
    ) -> Result<Option<LineResult>, AllocError>
        requires { self.old.commands + 1 < 2 ^ 64 }
        ensures written { OnOk result (self.new ≡ after_line outcome self.old) }
        ensures above { self.old.clock ≤ (next_stamp self.old).n }
        ensures result { IfOk result (λ came. came ≡ result_by (as_outcome outcome)) }
    {
        match outcome {
            Some(
                Ok(
                    LineWrite::Tags {
                        bucket,
                        key,
                        id,
                        tags,
                    },
                ),
            ) => {
                self.set_tags(alloc, &bucket, key, id, tags)?;
                Ok(Some(LineResult::Succeeded))
            }
            Some(
                Ok(
                    LineWrite::Hold {
                        bucket,
                        key,
                        id,
                        hold,
                    },
                ),
            ) => {
                self.set_hold(alloc, &bucket, key, id, hold)?;
                Ok(Some(LineResult::Succeeded))
            }
            Some(Err(code)) => {
                self.pass();
                Ok(Some(LineResult::Failed(code)))
            }
            None => {
                self.pass();
                Ok(None)
            }
        }
    }

    /// A line of a job is done, or begun. After an error the state is given up.
    pub(crate) fn do_line(&mut self, alloc: Global, job: u64, line: u32) -> Result<(), AllocError>
        requires few { self.old.commands + 1 < 2 ^ 64 }
        requires line { 1 ≤ line }
        ensures { OnOk result (Applies (Command.Line job line) self.old self.new) }
    {
        let outcome = self.outcome_of_line(job, line)?;
        let came = self.write_line(alloc, outcome)?;
        self.go_on(job, came);
        Ok(())
    }
}
