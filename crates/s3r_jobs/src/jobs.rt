//! The jobs of a region.

ghost use Rattle.std.specs.Prelude.{◌≡◌, ◌≤◌, ◌<◌, ◌↔◌, [], IsErrOf, OnOk, OnErr, length, map, option_copied, option_map, is_some, IfSome, ◌++◌, ◌∷◌};
ghost use Rattle.s3r_jobs.specs.Any.{facts};
ghost use Rattle.s3r_jobs.specs.Jobs.{AreApart, find_job, taken, given_back, token_job, reports_to};
ghost use Rattle.s3r_jobs.specs.Turn.{running};

use crate::any::AnyJob;
use crate::fault::JobsFault;
use crate::job::Job;
use crate::spec::JobSpec;
use crate::stage::New;
use crate::{lookup, places, turn};
use s3r_names::BucketName;
use std::alloc::Global;
use std::marker::Model;

/// The most jobs that haven't ended.
pub const MOST_UNENDED: usize = 16;

/// More jobs than the commands of a volume create.
const MOST: usize = 4_294_967_295;

/// The jobs of a region. Those that have ended stand apart from the others, so that a turn looks at few of them,
/// however many there were. Either are in the order in which they were created. Both have room for those that are out.
#[derive(Drop)]
pub struct Jobs {
    live: Vec<AnyJob>,
    ended: Vec<AnyJob>,
    /// How many were taken out of their place.
    out: usize,
}

impl Model for Jobs {
    ghost use Rattle.std.specs.Prelude.{◌+◌, length, vec_capacity, map};
    ghost use Rattle.s3r_jobs.specs.Jobs.{JobsFacts, HasPlaces, AreApart};
    ghost use Rattle.s3r_jobs.specs.Any.{facts};

    ghost Value = { JobsFacts };

    ghost view = { λ jobs. record {
      live = map facts jobs.live.items;
      ended = map facts jobs.ended.items;
      out = jobs.out;
    } };

    ghost invariant = { λ jobs. HasPlaces (length jobs.live.items + length jobs.ended.items + jobs.out)
        (vec_capacity jobs.live) (vec_capacity jobs.ended)
        × AreApart (map facts jobs.live.items) (map facts jobs.ended.items) };
}

impl Jobs {
    /// No jobs.
    pub fn new(alloc: Global) -> Jobs
        ensures { result ≡ record { live = []; ended = []; out = 0 } }
    {
        Jobs {
            live: Vec::new(alloc),
            ended: Vec::new(alloc),
            out: 0,
        }
    }

    pub(crate) fn live(&self) -> &[AnyJob]
        ensures { map facts result.now ≡ self.now.live }
    {
        &self.live
    }

    /// How many of those in their place haven't ended: as many as stand apart from those that have.
    pub fn unended(&self) -> u32
        ensures counted { result ≡ length self.now.live }
        ensures apart { AreApart self.now.live self.now.ended }
    {
        self.live.len() as u32
    }

    /// The lowest id of those that are Active or Pausing.
    pub fn running(&self) -> Option<u64>
        ensures { result ≡ running self.now.live }
    {
        turn::running(&self.live)
    }

    /// The job of that id, where it is in its place.
    pub fn find(&self, id: u64) -> Option<&AnyJob>
        ensures { option_map facts (option_copied result) ≡ find_job id self.now }
    {
        match places::find(id, &self.live) {
            Some(job) => Some(job),
            None => places::find(id, &self.ended),
        }
    }

    /// The id of the job that was made with a token, where it is in its place, and its specification as it was created.
    pub fn token(&self, token: &str) -> Option<(u64, &JobSpec)>
        ensures there { is_some result ≡ is_some (token_job token.now self.now) }
        ensures job { IfSome result (λ made. IfSome (token_job token.now self.now)
            (λ job. (made.0 ≡ job.id) × (made.1.now ≡ job.spec))) }
    {
        let job = match lookup::find_token(token, &self.live) {
            Some(job) => job,
            None => lookup::find_token(token, &self.ended)?,
        };
        Some((job.id(), job.spec()))
    }

    /// Whether a job that hasn't ended reports to this bucket.
    pub fn reports_to(&self, bucket: &BucketName) -> bool
        ensures { result ≡ reports_to bucket.now self.now.live }
    {
        lookup::reports_to(&self.live, bucket)
    }

    /// The job is in its place. It is refused exactly where 16 of those in their place haven't ended. A refused one is
    /// dropped, and all else is as it was.
    pub fn add(&mut self, job: Job<New>) -> Result<(), JobsFault>
        ensures ok { OnOk result (self.new ≡ record self.old { live = self.old.live ++ job ∷ [] }) }
        ensures err { OnErr result (self.new ≡ self.old) }
        ensures many { IsErrOf result JobsFault.TooManyJobs ↔ (16 ≤ length self.old.live) }
    {
        if self.live.len() >= MOST_UNENDED {
            return Err(JobsFault::TooManyJobs);
        }
        let all = self.live.len() + self.ended.len() + self.out;
        if all >= MOST {
            return Err(JobsFault::OutOfMemory);
        }
        let live = self.live.reserve(all + 1 - self.live.len());
        let ended = self.ended.reserve(all + 1 - self.ended.len());
        if live.is_err() || ended.is_err() {
            return Err(JobsFault::OutOfMemory);
        }
        let _is_new = job.state();
        self.live.push_reserved(AnyJob::New(job));
        Ok(())
    }

    /// The job of that id, whose place stays free. None exactly where none of that id is in its place.
    pub fn take_out(&mut self, id: u64) -> Option<AnyJob>
        ensures job { option_map facts result ≡ find_job id self.old }
        ensures rest { self.new ≡ taken id self.old }
    {
        if let Some(job) = places::take(&mut self.live, id) {
            self.out += 1;
            return Some(job);
        }
        let job = places::take(&mut self.ended, id)?;
        self.out += 1;
        Some(job)
    }

    /// A job that was taken out is in its place: before the first one that has a greater id.
    pub fn give_back(&mut self, job: AnyJob)
        requires { 0 < self.old.out }
        ensures { self.new ≡ given_back (facts job) self.old }
    {
        if job.has_ended() {
            places::put(&mut self.ended, job);
            self.out -= 1;
            return;
        }
        places::put(&mut self.live, job);
        self.out -= 1;
    }
}
