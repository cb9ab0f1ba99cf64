//! One command, committed to its region.
ghost use Rattle.std.specs.Prelude.{◌≡◌, ◌≢◌, ◌≤◌, ◌<◌, ℕ, Some, Err, IsTrue, length, IfErr};
ghost use Rattle.s3r_world.specs.Outside.{KeepsShape, NoneFalls};
ghost use Rattle.s3r_record.specs.Spelling.{IsCommand};
ghost use Rattle.s3r_history.specs.Words.{History};
ghost use Rattle.s3r_desk.specs.Events.{Events, known};
ghost use Rattle.s3r_desk.specs.Copying.{IsNoDamage};
ghost use Rattle.s3r_desk.specs.Keeping.{Keeps, AreNumbered, AreTied};
ghost use Rattle.s3r_desk.specs.Responds.{CommitsOne, HasCause};
ghost use Rattle.s3r_desk.specs.Happened.{IsReadAt, AreLeftBut};
ghost use Rattle.s3r_desk.specs.Committing.{told_as, IsRefusedAt, GoesOnWhere};

use crate::DeskFault;
use s3r_history::Refusal;
use s3r_record::Command;
use s3r_store::{Store, StoreFault};
use s3r_world::World;
use std::alloc::Global;

/// What a commit came to.
#[derive(Clone, Copy, Debug, PartialEq, Eq)]
pub enum Committed {
    /// The command has this index in its region's history.
    At(u64),
    /// The history doesn't accept it.
    Refused(Refusal),
}

// How a store's answer to a commit is told.
fn told_as(answer: Result<u64, StoreFault>) -> Result<Committed, DeskFault>
    requires { (v offset : ℕ) → answer ≢ Err (StoreFault.Damaged v offset) }
    ensures { result ≡ told_as answer }
{
    match answer {
        Ok(index) => Ok(Committed::At(index)),
        Err(StoreFault::Refused(refusal)) => Ok(Committed::Refused(refusal)),
        Err(StoreFault::Full(v)) => Err(DeskFault::Full(v)),
        Err(StoreFault::Volume(v)) => Err(DeskFault::Volume(v)),
        Err(StoreFault::OutOfMemory) => Err(DeskFault::OutOfMemory),
        Err(StoreFault::Damaged { .. }) => unreachable!(),
    }
}

/// Commits a command to a region, unless its history refuses it. A refusal leaves all as it was.
///
/// `Full` leaves all as it was. After `Volume` and `OutOfMemory` the command is in doubt, and the region unread.
pub fn commit<W: World>(
    alloc: Global,
    world: &mut W,
    stores: &mut Vec<Store>,
    region: usize,
    command: Command,
) -> Result<Committed, DeskFault>
    requires region { region < length stores.old.items }
    requires volumes { length stores.old.items ≤ (W.shape world.old).volumes }
    requires few { length stores.old.items ≤ 8 }
    requires numbered { AreNumbered stores.old.items }
    requires tied { IsTrue W.tells → AreTied stores.old.items (W.outside world.old) }
    requires read { IsReadAt stores.old.items region }
    requires fits { IsCommand command }
    ensures told { IsTrue W.tells → (before : Events) (h : History) → Keeps before stores.old.items (W.outside world.old)
        → known before region ≡ Some h → CommitsOne before (length stores.old.items) region h command
        ((W.shape world.old).room region) result stores.new.items (W.outside world.old) (W.outside world.new) }
    ensures refused { IsRefusedAt stores.old.items region command result }
    ensures goes_on { GoesOnWhere stores.old.items stores.new.items region command result }
    ensures others { AreLeftBut region stores.old.items stores.new.items }
    ensures count { length stores.new.items ≡ length stores.old.items }
    ensures numbered { AreNumbered stores.new.items }
    ensures tied { IsTrue W.tells → AreTied stores.new.items (W.outside world.new) }
    ensures undamaged { IfErr result IsNoDamage }
    ensures cause { HasCause (length stores.old.items) result (W.faults world.old) (W.faults world.new) }
    ensures counts { NoneFalls (W.faults world.old) (W.faults world.new) }
    ensures goes { W.goes world.old world.new }
    ensures shape { KeepsShape (W.shape world.old) (W.shape world.new) }
{
    told_as(stores[region].commit(alloc, world, command))
}
