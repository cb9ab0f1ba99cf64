//! What a region keeps.

ghost use Rattle.std.specs.Prelude.{◌≡◌, ◌+◌, ◌<◌, ◌≤◌, ◌^◌, ℕ, List, Option, Some, IsTrue, IfOk, IfSome, [], ◌∷◌, ◌++◌, OnOk, option_copied, option_map, find};
ghost use Rattle.s3r_record.specs.Spelling.{IsTask, EffectMeetsLimits};
ghost use Rattle.s3r_record.specs.declared.command.Command.{Command};
ghost use Rattle.s3r_history.specs.Words.{History};
ghost use Rattle.s3r_history.specs.Deeds.{deed, deeds, judge};
ghost use Rattle.s3r_history.specs.Judging.{judged};
ghost use Rattle.s3r_history.specs.Carried.{target_of};
ghost use Rattle.s3r_region.specs.Applies.{Applies};
ghost use Rattle.s3r_region.specs.KeptJobs.{is_of};
ghost use Rattle.s3r_region.specs.KeptJobs as jobs;
ghost use Rattle.s3r_region.specs.Waiting.{IsAccepted};

use crate::Bucket;
use crate::bucket::{bucket_named, change_bucket, change_if_applied, remove_bucket};
use crate::change::Change;
use crate::judging::judged;
use crate::parts::{carried_n, target_of};
use crate::queues::Queues;
use crate::receiving::change_by;
use crate::region_jobs::RegionJobs;
use s3r_history::{Prescribed, Refusal, Sent};
use s3r_jobs::{FailureReason, JobSpec, JobState, Jobs, LineResult};
use s3r_lines::Lines;
use s3r_names::{BucketName, Bytes, Outcome, Reason, Stamp, VersionId};
use s3r_queue::{Inbox, Outbox};
use s3r_record::Effect;
use std::alloc::{AllocError, Global};
use std::marker::Model;

/// Why a command isn't accepted.
#[derive(Clone, Copy, Debug, PartialEq, Eq)]
pub enum Deny {
    /// The region's history refuses it.
    Refused(Refusal),
    OutOfMemory,
}

/// What a region keeps: its buckets, its tasks to others, what it received from them, and its jobs.
#[derive(Drop)]
pub struct State {
    region: u8,
    commands: u64,
    clock: u64,
    buckets: Vec<Bucket>,
    queues: Queues,
    jobs: RegionJobs,
}

impl Model for State {
    ghost use Rattle.std.specs.Prelude.{◌≤◌, IsTrue};
    ghost use Rattle.s3r_region.specs.Contents.{Contents, are_given};

    ghost Value = { Contents };

    ghost view = { λ state. record {
      region = state.region;
      regions = state.queues.regions;
      commands = state.commands;
      clock = state.clock;
      buckets = state.buckets.items;
      outbox = state.queues.outbox;
      inbox = state.queues.inbox;
      jobs = state.jobs;
    } };

    ghost invariant = { λ state. (state.region ≤ 7) × IsTrue (are_given state.region state.commands state.buckets.items) };
}

impl State {
    ghost use Rattle.std.specs.Prelude.{length};
    ghost use Rattle.s3r_queue.specs.Queues.{to_region};
    ghost use Rattle.s3r_queue.specs.Tasks.{first_of, answered_of};
    ghost use Rattle.s3r_region.specs.Contents.{is_named, have_ids};
    ghost use Rattle.s3r_region.specs.After.{IsAfter, seen_bucket, seen};
    ghost use Rattle.s3r_region.specs.Changes.{next_stamp, with_change, without_first, new_bucket, IsNext};

    /// The state of this region, one of so many, after no command. The error is want of memory.
    pub fn new(alloc: Global, region: u8, regions: u32) -> Result<State, AllocError>
        requires region { region ≤ 7 }
        requires some { 1 ≤ regions }
        ensures after { IfOk result (λ state. IsAfter state []) }
        ensures region { IfOk result (λ state. state.region ≡ region) }
        ensures regions { IfOk result (λ state. state.regions ≡ regions) }
    {
        Ok(State {
            region,
            commands: 0,
            clock: 0,
            buckets: Vec::new(alloc),
            queues: Queues::new(alloc, regions)?,
            jobs: RegionJobs::new(alloc),
        })
    }

    pub fn region(&self) -> u8
        ensures { result ≡ self.now.region }
    {
        self.region
    }

    /// How many regions there are.
    pub fn regions(&self) -> u32
        ensures { result ≡ self.now.regions }
    {
        self.queues.regions()
    }

    /// How many commands the history has.
    pub fn commands(&self) -> u64
        ensures { result ≡ self.now.commands }
    {
        self.commands
    }

    /// How many buckets there are.
    pub(crate) fn count(&self) -> usize
        ensures { result ≡ length self.now.buckets }
    {
        self.buckets.len()
    }

    /// The bucket of this name.
    pub fn bucket(&self, name: &BucketName) -> Option<&Bucket>
        ensures found { option_copied result ≡ seen_bucket self.now name.now }
        ensures ids { IfSome result (λ bucket. IsTrue (have_ids bucket.now.rows.rows)) }
    {
        bucket_named(&self.buckets, name)
    }

    /// The tasks to each region: what was prescribed, by which command, and what became of it.
    pub fn outbox(&self) -> &Outbox<Prescribed>
        ensures { result.now ≡ self.now.outbox }
    {
        self.queues.outbox()
    }

    /// How many tasks there are to a region, the greatest number of one that came to something, and how many are no longer
    /// pending; none of each where the region isn't there.
    pub fn counts(&self, to: u32) -> (u64, u64, u64)
        ensures sent { result.0 ≡ length (to_region self.now.outbox to) }
        ensures answered { result.1 ≡ answered_of (to_region self.now.outbox to) }
        ensures settled { result.2 + 1 ≡ first_of (to_region self.now.outbox to) }
    {
        self.queues.counts(to)
    }

    /// What was received last from each region.
    pub fn inbox(&self) -> &Inbox
        ensures { result.now ≡ self.now.inbox }
    {
        self.queues.inbox()
    }

    /// What an effect would come to here.
    pub fn judge(&self, effect: &Effect<Bytes>) -> Outcome
        ensures after { (h : History) → IsAfter self.now h → result ≡ judge self.now.region h effect.now }
        ensures judged { result ≡ judged self.now.region self.now.commands effect.now (seen self.now (target_of effect.now)) }
    {
        match self.bucket(target_of(effect)) {
            Some(bucket) => judged(bucket, self.region, self.commands, effect),
            None => Outcome::Refused(Reason::NoSuchDestination),
        }
    }

    /// The stamp of the next command, where it writes.
    pub(crate) fn next_stamp(&self) -> Stamp
        requires { self.now.commands + 1 < 2 ^ 64 }
        ensures stamp { result ≡ next_stamp self.now }
        ensures region { result.region ≤ 7 }
        ensures above { self.now.clock ≤ result.n }
    {
        Stamp {
            n: self.clock.saturating_add(1),
            region: self.region,
            index: self.commands + 1,
        }
    }

    /// The number of the clock.
    pub(crate) fn clock(&self) -> u64
        ensures { result ≡ self.now.clock }
    {
        self.clock
    }

    /// A new bucket. After an error the state is given up.
    pub(crate) fn create(
        &mut self,
        alloc: Global,
        name: BucketName,
        locked: bool,
    ) -> Result<(), AllocError>
        requires { self.old.commands + 1 < 2 ^ 64 }
        ensures { OnOk result (Applies (Command.CreateBucket name locked) self.old self.new) }
    {
        self.buckets.push(Bucket::new(alloc, name, locked))?;
        self.commands += 1;
        Ok(())
    }

    /// The bucket is taken out.
    pub(crate) fn delete(&mut self, name: &BucketName)
        requires { self.old.commands + 1 < 2 ^ 64 }
        ensures { Applies (Command.DeleteBucket name.now) self.old self.new }
    {
        remove_bucket(&mut self.buckets, name);
        self.commands += 1;
    }

    /// Makes a command's change in the bucket of this name, under this number of the clock, and puts what it sends behind
    /// the tasks. After an error the state is given up.
    pub(crate) fn change(
        &mut self,
        name: &BucketName,
        change: Change,
        n: u64,
        sends: Vec<Sent>,
    ) -> Result<(), AllocError>
        requires few { self.old.commands + 1 < 2 ^ 64 }
        requires next { IsNext self.old change }
        ensures { OnOk result (self.new ≡ with_change self.old name.now change n sends.items) }
    {
        self.queues.send(self.commands + 1, sends)?;
        change_bucket(&mut self.buckets, name, change)?;
        self.commands += 1;
        self.clock = n;
        Ok(())
    }

    /// An effect of a region is received: it comes to what `judge` says, and changes its bucket where it is applied. After
    /// an error the state is given up.
    pub(crate) fn receive(
        &mut self,
        alloc: Global,
        from: u8,
        number: u64,
        effect: Effect<Bytes>,
    ) -> Result<(), AllocError>
        requires few { self.old.commands + 1 < 2 ^ 64 }
        requires task { IsTask from number }
        requires short { EffectMeetsLimits effect }
        ensures { OnOk result (Applies (Command.Receive from number effect) self.old self.new) }
    {
        let n = carried_n(&effect);
        let outcome = self.judge(&effect);
        let (name, change) = change_by(alloc, self.commands + 1, from, effect)?;
        change_if_applied(&mut self.buckets, &name, change, outcome)?;
        self.queues.receive(from, number, outcome);
        self.commands += 1;
        self.clock = n.max(self.clock);
        Ok(())
    }

    /// The first pending task to a region came to this there.
    pub(crate) fn settle(&mut self, to: u8, number: u64, outcome: Outcome)
        requires few { self.old.commands + 1 < 2 ^ 64 }
        requires task { IsTask to number }
        ensures { Applies (Command.Settle to number outcome) self.old self.new }
    {
        self.queues.settle(to, number, outcome);
        self.commands += 1;
    }

    /// One attempt more was made for the first pending task to a region.
    pub(crate) fn attempt(&mut self, to: u8, number: u64)
        requires few { self.old.commands + 1 < 2 ^ 64 }
        requires task { IsTask to number }
        ensures { Applies (Command.Attempt to number) self.old self.new }
    {
        self.queues.attempt(to, number);
        self.commands += 1;
    }

    /// The jobs.
    pub fn jobs(&self) -> &Jobs
        ensures { result.now ≡ self.now.jobs.jobs }
    {
        self.jobs.jobs()
    }

    /// The version of a job's manifest.
    pub(crate) fn manifest(&self, job: u64) -> Option<VersionId>
        ensures { result ≡ option_map (λ manifest. manifest.version) (find (is_of job) self.now.jobs.manifests) }
    {
        self.jobs.manifest(job)
    }

    /// A job is created. After an error the state is given up.
    pub(crate) fn add_job(
        &mut self,
        alloc: Global,
        spec: JobSpec,
        manifest: VersionId,
    ) -> Result<(), AllocError>
        requires { self.old.commands + 1 < 2 ^ 64 }
        ensures { OnOk result (Applies (Command.CreateJob spec manifest) self.old self.new) }
    {
        self.jobs.create(alloc, self.commands + 1, spec, manifest)?;
        self.commands += 1;
        Ok(())
    }

    /// A job moves to a state.
    pub(crate) fn move_job(&mut self, job: u64, to: JobState)
        requires { self.old.commands + 1 < 2 ^ 64 }
        ensures { Applies (Command.MoveJob job to) self.old self.new }
    {
        self.jobs.move_to(job, to);
        self.commands += 1;
    }

    /// A job's priority is this from now on.
    pub(crate) fn set_priority(&mut self, job: u64, priority: u32)
        requires { self.old.commands + 1 < 2 ^ 64 }
        ensures { Applies (Command.SetPriority job priority) self.old self.new }
    {
        self.jobs.set_priority(job, priority);
        self.commands += 1;
    }

    /// A job's manifest was read. After an error the state is given up.
    pub(crate) fn prepare_job(
        &mut self,
        alloc: Global,
        job: u64,
        lines: Result<Lines, FailureReason>,
    ) -> Result<(), AllocError>
        requires few { self.old.commands + 1 < 2 ^ 64 }
        requires read { (h : History) → IsAfter self.old h → IsAccepted self.old.regions self.old.region h (Command.Prepare job)
            → (deed self.old.region h (deeds self.old.region h) (Command.Prepare job)).read ≡ Some lines }
        ensures { OnOk result (Applies (Command.Prepare job) self.old self.new) }
    {
        self.jobs.prepare(alloc, job, lines)?;
        self.commands += 1;
        Ok(())
    }

    /// A command is counted that did nothing.
    pub(crate) fn pass(&mut self)
        requires { self.old.commands + 1 < 2 ^ 64 }
        ensures passed { self.new ≡ record self.old { commands = self.old.commands + 1 } }
        ensures above { self.old.clock ≤ (next_stamp self.old).n }
    {
        self.commands += 1;
    }

    /// The job of a line that was done goes on: the line came to this, or waits.
    pub(crate) fn go_on(&mut self, job: u64, came: Option<LineResult>)
        ensures kept { self.new ≡ record self.old { jobs = self.new.jobs } }
        ensures after { (n r line : ℕ) (h : History) → IsAccepted n r h (Command.Line job line)
            → (deed r h (deeds r h) (Command.Line job line)).result ≡ came → jobs.IsAfter r self.old.jobs h
            → jobs.IsAfter r self.new.jobs (Command.Line job line ∷ h) }
    {
        self.jobs.go_on(job, came);
    }

    /// A job ends.
    pub(crate) fn finish(&mut self, job: u64)
        requires { self.old.commands + 1 < 2 ^ 64 }
        ensures { (body : Option (List ℕ)) → Applies (Command.Finish job body) self.old self.new }
    {
        self.jobs.finish(job);
        self.commands += 1;
    }
}
