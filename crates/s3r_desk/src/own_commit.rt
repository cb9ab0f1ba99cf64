//! Commands of the desk's own.
ghost use Rattle.std.specs.Prelude.{◌≡◌, ◌≤◌, ◌<◌, ℕ, IsTrue, IsOk, OnOk, length, slice_get, IfErr};
ghost use Rattle.s3r_world.specs.Outside.{KeepsShape, NoneFalls};
ghost use Rattle.s3r_record.specs.Spelling.{IsCommand};
ghost use Rattle.s3r_desk.specs.Events.{Events};
ghost use Rattle.s3r_desk.specs.Copying.{IsNoDamage};
ghost use Rattle.s3r_desk.specs.Keeping.{Keeps, AreNumbered, AreTied};
ghost use Rattle.s3r_desk.specs.Responds.{HasCause};
ghost use Rattle.s3r_desk.specs.Happened.{Happened, IsCommit, IsReadAt, IsAcceptedAt, GoesOnAt, AreLeftBut};

use crate::DeskFault;
use crate::committing::{Committed, commit};
use s3r_record::Command;
use s3r_store::Store;
use s3r_world::World;
use std::alloc::Global;

/// Commits a command that its region accepts.
///
/// `Full` leaves all as it was. After `Volume` and `OutOfMemory` the command is in doubt, and the region unread.

pub fn commit_own<W: World>(
    alloc: Global,
    world: &mut W,
    stores: &mut Vec<Store>,
    region: usize,
    command: Command,
) -> Result<(), DeskFault>
    requires region { region < length stores.old.items }
    requires volumes { length stores.old.items ≤ (W.shape world.old).volumes }
    requires few { length stores.old.items ≤ 8 }
    requires numbered { AreNumbered stores.old.items }
    requires tied { IsTrue W.tells → AreTied stores.old.items (W.outside world.old) }
    requires read { IsReadAt stores.old.items region }
    requires fits { IsCommand command }
    requires accepted { IsAcceptedAt stores.old.items region command }
    ensures told { IsTrue W.tells → (before : Events) → Keeps before stores.old.items (W.outside world.old)
        → Happened (IsCommit (W.shape world.old).room before region command result) before stores.old.items stores.new.items
        (W.outside world.old) (W.outside world.new) }
    ensures goes_on { OnOk result (GoesOnAt stores.old.items stores.new.items region command) }
    ensures others { AreLeftBut region stores.old.items stores.new.items }
    ensures count { length stores.new.items ≡ length stores.old.items }
    ensures numbered { AreNumbered stores.new.items }
    ensures tied { IsTrue W.tells → AreTied stores.new.items (W.outside world.new) }
    ensures undamaged { IfErr result IsNoDamage }
    ensures cause { HasCause (length stores.old.items) result (W.faults world.old) (W.faults world.new) }
    ensures counts { NoneFalls (W.faults world.old) (W.faults world.new) }
    ensures goes { W.goes world.old world.new }
    ensures shape { KeepsShape (W.shape world.old) (W.shape world.new) }
{
    match commit(alloc, world, stores, region, command) {
        Ok(Committed::At(_)) => Ok(()),
        Ok(Committed::Refused(_)) => unreachable!(),
        Err(fault) => Err(fault),
    }
}
