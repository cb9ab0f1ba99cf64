//! A request as a turn: a step over all regions, a turn of the copier between two, or one of the jobs of a region.
ghost use Rattle.std.specs.Prelude.{◌≡◌, ◌≤◌, ◌<◌, IsTrue, length};
ghost use Rattle.s3r_world.specs.Outside.{KeepsShape, NoneFalls};
ghost use Rattle.s3r_desk.specs.Events.{Events};
ghost use Rattle.s3r_desk.specs.Steps.{IsRequest};
ghost use Rattle.s3r_desk.specs.Keeping.{Keeps, AreNumbered, AreTied};
ghost use Rattle.s3r_desk.specs.Damage.{IsDamage};
ghost use Rattle.s3r_desk.specs.Responds.{AsRead, Responds, HasCause, turn_of};
ghost use Rattle.s3r_desk.specs.declared.turning.Turn.{Turn};
ghost use Rattle.s3r_desk.specs.Happened.{Happened, CopiesBetween, StepsJobs};

use crate::answering::answer;
use crate::copying::copy_turn;
use crate::job_turn::job_turn;
use crate::touching::touch_all;
use crate::{Answer, DeskFault, Request};
use s3r_history::Refusal;
use s3r_store::Store;
use s3r_world::World;
use std::alloc::Global;

/// How a request takes its turn.
#[derive(Clone, Copy, Debug, PartialEq, Eq)]
pub enum Turn {
    /// A step over all regions.
    Step,
    /// A turn of the copier from one region to another.
    Copy { from: u32, to: u32 },
    /// A turn of a region's jobs.
    Jobs { region: u32 },
    /// Rounds of turns of the copier and of jobs.
    Work { rounds: u32 },
}

/// The turn that the request takes.
pub fn turn_of(request: &Request) -> Turn
    ensures { result ≡ turn_of request.now }
{
    match request {
        Request::Copy { from, to } => Turn::Copy {
            from: *from,
            to: *to,
        },
        Request::JobTurn { region } => Turn::Jobs { region: *region },
        Request::Work { rounds } => Turn::Work { rounds: *rounds },
        Request::CreateBucket { .. }
        | Request::HeadBucket { .. }
        | Request::DeleteBucket { .. }
        | Request::PutVersioning { .. }
        | Request::GetVersioning { .. }
        | Request::PutReplication { .. }
        | Request::GetReplication { .. }
        | Request::DeleteReplication { .. }
        | Request::ListVersions { .. }
        | Request::PutObject { .. }
        | Request::GetObject { .. }
        | Request::DeleteObject { .. }
        | Request::PutTags { .. }
        | Request::GetTags { .. }
        | Request::PutHold { .. }
        | Request::GetHold { .. }
        | Request::CreateJob { .. }
        | Request::SetJobPriority { .. }
        | Request::SetJobStatus { .. } => Turn::Step,
    }
}

/// Touches all regions in order, compares all pairs, and makes the request's step.
pub fn step_over_all<W: World>(
    alloc: Global,
    world: &mut W,
    stores: &mut Vec<Store>,
    request: Request,
) -> Result<Answer, DeskFault>
    requires volumes { length stores.old.items ≤ (W.shape world.old).volumes }
    requires few { length stores.old.items ≤ 8 }
    requires numbered { AreNumbered stores.old.items }
    requires tied { IsTrue W.tells → AreTied stores.old.items (W.outside world.old) }
    requires fits { IsRequest request }
    requires step { turn_of request ≡ Turn.Step }
    ensures told { IsTrue W.tells → (before : Events) → Keeps before stores.old.items (W.outside world.old)
        → Responds before request result (W.shape world.old).room stores.old.items stores.new.items (W.outside world.old) (W.outside world.new)
        (W.faults world.old) (W.faults world.new) }
    ensures count { length stores.new.items ≡ length stores.old.items }
    ensures numbered { AreNumbered stores.new.items }
    ensures cause { HasCause (length stores.old.items) result (W.faults world.old) (W.faults world.new) }
    ensures counts { NoneFalls (W.faults world.old) (W.faults world.new) }
    ensures goes { W.goes world.old world.new }
    ensures shape { KeepsShape (W.shape world.old) (W.shape world.new) }
{
    match touch_all(alloc, world, stores) {
        Ok(()) => answer(alloc, world, stores, request),
        Err(fault) => {
            drop(request);
            Err(fault)
        }
    }
}

/// Makes a turn of the copier, where both regions are there.
pub fn copy_between<W: World>(
    alloc: Global,
    world: &mut W,
    stores: &mut Vec<Store>,
    from: u32,
    to: u32,
) -> Result<Answer, DeskFault>
    requires volumes { length stores.old.items ≤ (W.shape world.old).volumes }
    requires few { length stores.old.items ≤ 8 }
    requires numbered { AreNumbered stores.old.items }
    requires tied { IsTrue W.tells → AreTied stores.old.items (W.outside world.old) }
    ensures told { IsTrue W.tells → (before : Events) → Keeps before stores.old.items (W.outside world.old)
        → Happened (CopiesBetween (AsRead (length stores.old.items) (W.outside world.old)) (length stores.old.items) (W.shape world.old).room
        from to before result (W.faults world.old) (W.faults world.new)) before stores.old.items stores.new.items
        (W.outside world.old) (W.outside world.new) }
    ensures damage { IsTrue W.tells → IsDamage (length stores.old.items) (W.outside world.old).as_read result }
    ensures count { length stores.new.items ≡ length stores.old.items }
    ensures numbered { AreNumbered stores.new.items }
    ensures cause { HasCause (length stores.old.items) result (W.faults world.old) (W.faults world.new) }
    ensures counts { NoneFalls (W.faults world.old) (W.faults world.new) }
    ensures goes { W.goes world.old world.new }
    ensures shape { KeepsShape (W.shape world.old) (W.shape world.new) }
{
    if !((from as usize) < stores.len() && (to as usize) < stores.len()) {
        return Ok(Answer::Refused(Refusal::InvalidArgument));
    }
    match copy_turn(alloc, world, stores, from, to) {
        Ok(outcome) => Ok(Answer::Copied(outcome)),
        Err(fault) => Err(fault),
    }
}

/// Makes a turn of a region's jobs, where the region is there.
pub fn jobs_of<W: World>(
    alloc: Global,
    world: &mut W,
    stores: &mut Vec<Store>,
    region: u32,
) -> Result<Answer, DeskFault>
    requires volumes { length stores.old.items ≤ (W.shape world.old).volumes }
    requires few { length stores.old.items ≤ 8 }
    requires numbered { AreNumbered stores.old.items }
    requires tied { IsTrue W.tells → AreTied stores.old.items (W.outside world.old) }
    ensures told { IsTrue W.tells → (before : Events) → Keeps before stores.old.items (W.outside world.old)
        → Happened (StepsJobs (AsRead (length stores.old.items) (W.outside world.old)) (length stores.old.items) (W.shape world.old).room
        region before result (W.faults world.old) (W.faults world.new)) before stores.old.items stores.new.items
        (W.outside world.old) (W.outside world.new) }
    ensures damage { IsTrue W.tells → IsDamage (length stores.old.items) (W.outside world.old).as_read result }
    ensures count { length stores.new.items ≡ length stores.old.items }
    ensures numbered { AreNumbered stores.new.items }
    ensures cause { HasCause (length stores.old.items) result (W.faults world.old) (W.faults world.new) }
    ensures counts { NoneFalls (W.faults world.old) (W.faults world.new) }
    ensures goes { W.goes world.old world.new }
    ensures shape { KeepsShape (W.shape world.old) (W.shape world.new) }
{
    if !((region as usize) < stores.len()) {
        return Ok(Answer::Refused(Refusal::InvalidArgument));
    }
    match job_turn(alloc, world, stores, region) {
        Ok(outcome) => Ok(Answer::JobStep(outcome)),
        Err(fault) => Err(fault),
    }
}
