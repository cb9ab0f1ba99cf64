//! Requests, answered by the histories of all regions.
ghost use Rattle.std.specs.Prelude.{◌≡◌, ◌≤◌, ◌<◌, ℕ, IsTrue, IfOk, IfErr, length};
ghost use Rattle.s3r_world.specs.Outside.{KeepsShape, NoneFalls};
ghost use Rattle.s3r_record.specs.Spelling.{IsCommand};
ghost use Rattle.s3r_desk.specs.Events.{Events, history_at};
ghost use Rattle.s3r_desk.specs.Steps.{IsRequest, reply_at, step};
ghost use Rattle.s3r_desk.specs.Keeping.{Keeps, AreNumbered, AreTied, AreRead};
ghost use Rattle.s3r_desk.specs.Responds.{Came, Answers, Makes, HasCause};

use crate::committing::{Committed, commit};
use crate::comparing::disagreement;
use crate::planning::{Plan, Reply, plan_of};
use crate::{Answer, DeskFault, ObjectMetadata, Request};
use s3r_names::{Kept, VersionId};
use s3r_record::Command;
use s3r_store::Store;
use s3r_world::World;
use std::alloc::Global;

// The answer to a commit of this index.
fn reply_at(region: usize, index: u64, reply: Reply) -> Answer
    requires { region ≤ 7 }
    ensures { result ≡ reply_at region index reply }
{
    let id = VersionId {
        region: region as u8,
        index,
    };
    match reply {
        Reply::Is(answer) => answer,
        Reply::Written => Answer::Written(id),
        Reply::Marked => Answer::Gone {
            id: Some(id),
            marker: true,
        },
        Reply::Created => Answer::JobMade(id),
    }
}

// Commits a command to a region, and answers it.
fn make<W: World>(
    alloc: Global,
    world: &mut W,
    stores: &mut Vec<Store>,
    region: usize,
    command: Command,
    reply: Reply,
) -> Result<Answer, DeskFault>
    requires region { region < length stores.old.items }
    requires volumes { length stores.old.items ≤ (W.shape world.old).volumes }
    requires few { length stores.old.items ≤ 8 }
    requires numbered { AreNumbered stores.old.items }
    requires tied { IsTrue W.tells → AreTied stores.old.items (W.outside world.old) }
    requires read { AreRead stores.old.items }
    requires fits { IsCommand command }
    ensures told { IsTrue W.tells → (before : Events) → Keeps before stores.old.items (W.outside world.old)
        → Makes before region command reply result (W.shape world.old).room stores.old.items stores.new.items (W.outside world.old) (W.outside world.new) }
    ensures count { length stores.new.items ≡ length stores.old.items }
    ensures numbered { AreNumbered stores.new.items }
    ensures cause { HasCause (length stores.old.items) result (W.faults world.old) (W.faults world.new) }
    ensures counts { NoneFalls (W.faults world.old) (W.faults world.new) }
    ensures goes { W.goes world.old world.new }
    ensures shape { KeepsShape (W.shape world.old) (W.shape world.new) }
{
    match commit(alloc, world, stores, region, command) {
        Ok(Committed::At(index)) => Ok(reply_at(region, index, reply)),
        Ok(Committed::Refused(refusal)) => {
            drop(reply);
            Ok(Answer::Refused(refusal))
        }
        Err(fault) => {
            drop(reply);
            Err(fault)
        }
    }
}

// Fetches the body of a version, and shows both.
fn fetch<W: World>(
    alloc: Global,
    world: &mut W,
    stores: &mut Vec<Store>,
    region: usize,
    object: ObjectMetadata,
    body: Kept,
) -> Result<Answer, DeskFault>
    requires { region < length stores.old.items }
    ensures answer { IfOk result (λ reply. reply ≡ Answer.Object object body) }
    ensures fault { IfErr result (λ fault. fault ≡ DeskFault.OutOfMemory) }
    ensures stores { stores.new.items ≡ stores.old.items }
    ensures world { world.new ≡ world.old }
{
    match stores[region].body(alloc, world, &body) {
        Ok(body) => Ok(Answer::Object { object, body }),
        Err(_) => Err(DeskFault::OutOfMemory),
    }
}

// Makes a request's step, once all regions are read and agree.
fn make_step<W: World>(
    alloc: Global,
    world: &mut W,
    stores: &mut Vec<Store>,
    request: Request,
) -> Result<Answer, DeskFault>
    requires volumes { length stores.old.items ≤ (W.shape world.old).volumes }
    requires few { length stores.old.items ≤ 8 }
    requires numbered { AreNumbered stores.old.items }
    requires tied { IsTrue W.tells → AreTied stores.old.items (W.outside world.old) }
    requires read { AreRead stores.old.items }
    requires fits { IsRequest request }
    ensures told { IsTrue W.tells → (before : Events) → Keeps before stores.old.items (W.outside world.old)
        → Came before (step (length stores.old.items) (history_at before) request) result (W.shape world.old).room stores.old.items
        stores.new.items (W.outside world.old) (W.outside world.new) }
    ensures count { length stores.new.items ≡ length stores.old.items }
    ensures numbered { AreNumbered stores.new.items }
    ensures cause { HasCause (length stores.old.items) result (W.faults world.old) (W.faults world.new) }
    ensures counts { NoneFalls (W.faults world.old) (W.faults world.new) }
    ensures goes { W.goes world.old world.new }
    ensures shape { KeepsShape (W.shape world.old) (W.shape world.new) }
{
    match plan_of(alloc, stores, request)? {
        Plan::Shows(answer) => Ok(answer),
        Plan::Fetches {
            region,
            object,
            body,
        } => fetch(alloc, world, stores, region, object, body),
        Plan::Commits {
            region,
            command,
            reply,
        } => make(alloc, world, stores, region, command, reply),
    }
}

/// Compares all pairs of regions, once all are read, and then makes a request's step and answers it. A refusal leaves all as
/// it was.
///
/// `Disagree` and `Full` leave all as it was. After `Volume` the commit to that region is in doubt, and the region unread.
/// After `OutOfMemory` all is as it was, or the request's commit is in doubt.
pub fn answer<W: World>(
    alloc: Global,
    world: &mut W,
    stores: &mut Vec<Store>,
    request: Request,
) -> Result<Answer, DeskFault>
    requires volumes { length stores.old.items ≤ (W.shape world.old).volumes }
    requires few { length stores.old.items ≤ 8 }
    requires numbered { AreNumbered stores.old.items }
    requires tied { IsTrue W.tells → AreTied stores.old.items (W.outside world.old) }
    requires read { AreRead stores.old.items }
    requires fits { IsRequest request }
    ensures told { IsTrue W.tells → (before : Events) → Keeps before stores.old.items (W.outside world.old)
        → Answers before request result (W.shape world.old).room stores.old.items stores.new.items (W.outside world.old) (W.outside world.new) }
    ensures count { length stores.new.items ≡ length stores.old.items }
    ensures numbered { AreNumbered stores.new.items }
    ensures cause { HasCause (length stores.old.items) result (W.faults world.old) (W.faults world.new) }
    ensures counts { NoneFalls (W.faults world.old) (W.faults world.new) }
    ensures goes { W.goes world.old world.new }
    ensures shape { KeepsShape (W.shape world.old) (W.shape world.new) }
{
    match disagreement(stores) {
        None => make_step(alloc, world, stores, request),
        Some(fault) => {
            drop(request);
            Err(fault)
        }
    }
}
