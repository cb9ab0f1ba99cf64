//! One turn of a region's jobs.
ghost use Rattle.std.specs.Prelude.{◌≡◌, ◌≤◌, ◌<◌, None, IsTrue, IsSome, IfErr, IfSome, length, option_copied, option_map};
ghost use Rattle.s3r_world.specs.Outside.{KeepsShape, NoneFalls};
ghost use Rattle.s3r_jobs.specs.Any.{facts};
ghost use Rattle.s3r_history.specs.Words.{History};
ghost use Rattle.s3r_history.specs.Accepts.{refusal};
ghost use Rattle.s3r_record.specs.Spelling.{IsCommand};
ghost use Rattle.s3r_batches.specs.Turns.{step_after, command_of};
ghost use Rattle.s3r_store.specs.Knows.{IsStoreAfter};
ghost use Rattle.s3r_desk.specs.Events.{Events};
ghost use Rattle.s3r_desk.specs.Steps.{job_id};
ghost use Rattle.s3r_desk.specs.Copying.{IsNoDamage};
ghost use Rattle.s3r_desk.specs.JobTurns.{state_or_new, state_after, came_to};
ghost use Rattle.s3r_desk.specs.Keeping.{Keeps, AreNumbered, AreTied};
ghost use Rattle.s3r_desk.specs.Damage.{IsDamage};
ghost use Rattle.s3r_desk.specs.Responds.{AsRead, HasCause};
ghost use Rattle.s3r_desk.specs.Happened.{Happened, JobsStep, MakesStep, StepsOrIdles, IsReadAt, IsAcceptedAt};

use crate::own_commit::commit_own;
use crate::touching::touch_region;
use crate::{DeskFault, JobOutcome};
use s3r_batches::steps_are_accepted;
use s3r_jobs::{AnyJob, JobState, NextStep, next_job};
use s3r_names::VersionId;
use s3r_record::Command;
use s3r_store::Store;
use s3r_world::World;
use std::alloc::Global;

// The command that makes a step. No job has a report yet.
fn command_of(step: NextStep) -> Command
    ensures { result ≡ command_of step }
{
    match step {
        NextStep::Finish(job) => Command::Finish { job, body: None },
        NextStep::Prepare(job) => Command::Prepare { job },
        NextStep::Move(job, state) => Command::MoveJob { job, state },
        NextStep::Line(job, line) => Command::Line { job, line },
    }
}

// The next step among the jobs of a region that was read.
fn next_step(store: &Store) -> Option<NextStep>
    requires { IsSome store.now.held }
    ensures step { (h : History) → IsStoreAfter store.now h → step_after store.now.v h ≡ result }
    ensures accepted { IfSome result (λ step. (h : History) → IsStoreAfter store.now h
        → refusal store.now.regions store.now.v h (command_of step) ≡ None) }
    ensures fits { IfSome result (λ step. IsCommand (command_of step)) }
{
    let Some(state) = store.state() else {
        unreachable!();
    };
    steps_are_accepted();
    // (there are fewer than 2^64 commands)
    let _commands = state.commands();
    next_job(state.jobs())
}

// The state of a job of a region, New where it isn't there.
fn state_in(store: &Store, job: u64) -> JobState
    requires { IsSome store.now.held }
    ensures { (h : History) → IsStoreAfter store.now h → result ≡ state_after store.now.v h job }
{
    let Some(state) = store.state() else {
        unreachable!();
    };
    state_or_new(state.jobs().find(job))
}

fn state_or_new(job: Option<&AnyJob>) -> JobState
    ensures { result ≡ state_or_new (option_map facts (option_copied job.entry)) }
{
    match job {
        Some(job) => job.state(),
        None => JobState::New,
    }
}

// The id of the job that the command of this index created.
fn job_id(region: u32, index: u64) -> VersionId
    requires { region ≤ 7 }
    ensures { result ≡ job_id region index }
{
    VersionId {
        region: region as u8,
        index,
    }
}

// What a step of this region came to, by its state behind it.
fn came_to(store: &Store, region: u32, step: NextStep) -> JobOutcome
    requires read { IsSome store.now.held }
    requires region { region ≤ 7 }
    ensures { (h : History) → IsStoreAfter store.now h → result ≡ came_to region (state_after store.now.v h) step }
{
    match step {
        NextStep::Finish(index) => JobOutcome::Ended {
            job: job_id(region, index),
            state: state_in(store, index),
        },
        NextStep::Prepare(index) => JobOutcome::Moved {
            job: job_id(region, index),
            state: state_in(store, index),
        },
        NextStep::Move(index, state) => JobOutcome::Moved {
            job: job_id(region, index),
            state,
        },
        NextStep::Line(index, line) => JobOutcome::Lined {
            job: job_id(region, index),
            line,
        },
    }
}

// Makes a step that its region accepts.
fn make_step<W: World>(
    alloc: Global,
    world: &mut W,
    stores: &mut Vec<Store>,
    region: u32,
    step: NextStep,
) -> Result<JobOutcome, DeskFault>
    requires region { region < length stores.old.items }
    requires volumes { length stores.old.items ≤ (W.shape world.old).volumes }
    requires few { length stores.old.items ≤ 8 }
    requires numbered { AreNumbered stores.old.items }
    requires tied { IsTrue W.tells → AreTied stores.old.items (W.outside world.old) }
    requires read { IsReadAt stores.old.items region }
    requires fits { IsCommand (command_of step) }
    requires accepted { IsAcceptedAt stores.old.items region (command_of step) }
    ensures told { IsTrue W.tells → (before : Events) → Keeps before stores.old.items (W.outside world.old)
        → Happened (MakesStep (length stores.old.items) (W.shape world.old).room region step before result) before stores.old.items stores.new.items
        (W.outside world.old) (W.outside world.new) }
    ensures count { length stores.new.items ≡ length stores.old.items }
    ensures numbered { AreNumbered stores.new.items }
    ensures tied { IsTrue W.tells → AreTied stores.new.items (W.outside world.new) }
    ensures undamaged { IfErr result IsNoDamage }
    ensures cause { HasCause (length stores.old.items) result (W.faults world.old) (W.faults world.new) }
    ensures counts { NoneFalls (W.faults world.old) (W.faults world.new) }
    ensures goes { W.goes world.old world.new }
    ensures shape { KeepsShape (W.shape world.old) (W.shape world.new) }
{
    match commit_own(alloc, world, stores, region as usize, command_of(step)) {
        Ok(()) => Ok(came_to(&stores[region as usize], region, step)),
        Err(fault) => Err(fault),
    }
}

// Makes the next step among the jobs of a region that was read, where one of them has one.
fn step_or_idle<W: World>(
    alloc: Global,
    world: &mut W,
    stores: &mut Vec<Store>,
    region: u32,
) -> Result<JobOutcome, DeskFault>
    requires region { region < length stores.old.items }
    requires volumes { length stores.old.items ≤ (W.shape world.old).volumes }
    requires few { length stores.old.items ≤ 8 }
    requires numbered { AreNumbered stores.old.items }
    requires tied { IsTrue W.tells → AreTied stores.old.items (W.outside world.old) }
    requires read { IsReadAt stores.old.items region }
    ensures told { IsTrue W.tells → (before : Events) → Keeps before stores.old.items (W.outside world.old)
        → Happened (StepsOrIdles (length stores.old.items) (W.shape world.old).room region before result) before stores.old.items stores.new.items
        (W.outside world.old) (W.outside world.new) }
    ensures count { length stores.new.items ≡ length stores.old.items }
    ensures numbered { AreNumbered stores.new.items }
    ensures tied { IsTrue W.tells → AreTied stores.new.items (W.outside world.new) }
    ensures undamaged { IfErr result IsNoDamage }
    ensures cause { HasCause (length stores.old.items) result (W.faults world.old) (W.faults world.new) }
    ensures counts { NoneFalls (W.faults world.old) (W.faults world.new) }
    ensures goes { W.goes world.old world.new }
    ensures shape { KeepsShape (W.shape world.old) (W.shape world.new) }
{
    match next_step(&stores[region as usize]) {
        Some(step) => make_step(alloc, world, stores, region, step),
        None => Ok(JobOutcome::Idle),
    }
}

/// One turn of a region's jobs: the region is touched, and the next step among its jobs is made.
///
/// `Full` leaves all as it was. After `Volume` the region is unread, and the step wasn't begun or is in doubt; so it may be
/// after `OutOfMemory`. `Damaged` is told by the touch, and no step is made then.
pub fn job_turn<W: World>(
    alloc: Global,
    world: &mut W,
    stores: &mut Vec<Store>,
    region: u32,
) -> Result<JobOutcome, DeskFault>
    requires region { region < length stores.old.items }
    requires volumes { length stores.old.items ≤ (W.shape world.old).volumes }
    requires few { length stores.old.items ≤ 8 }
    requires numbered { AreNumbered stores.old.items }
    requires tied { IsTrue W.tells → AreTied stores.old.items (W.outside world.old) }
    ensures told { IsTrue W.tells → (before : Events) → Keeps before stores.old.items (W.outside world.old)
        → Happened (JobsStep (AsRead (length stores.old.items) (W.outside world.old)) (length stores.old.items) (W.shape world.old).room region before
        result (W.faults world.old) (W.faults world.new)) before stores.old.items stores.new.items (W.outside world.old) (W.outside world.new) }
    ensures damage { IsTrue W.tells → IsDamage (length stores.old.items) (W.outside world.old).as_read result }
    ensures count { length stores.new.items ≡ length stores.old.items }
    ensures numbered { AreNumbered stores.new.items }
    ensures tied { IsTrue W.tells → AreTied stores.new.items (W.outside world.new) }
    ensures cause { HasCause (length stores.old.items) result (W.faults world.old) (W.faults world.new) }
    ensures counts { NoneFalls (W.faults world.old) (W.faults world.new) }
    ensures goes { W.goes world.old world.new }
    ensures shape { KeepsShape (W.shape world.old) (W.shape world.new) }
{
    match touch_region(alloc, world, stores, region as usize) {
        Ok(()) => step_or_idle(alloc, world, stores, region),
        Err(fault) => Err(fault),
    }
}
