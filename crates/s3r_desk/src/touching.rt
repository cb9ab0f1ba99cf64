//! Regions, read where they aren't read yet.
ghost use Rattle.std.specs.Prelude.{◌≡◌, ◌≤◌, ◌<◌, ℕ, ◌+◌, IsTrue, IsSome, IsOk, OnOk, OnErr, None, length};
ghost use Rattle.s3r_world.specs.Outside.{KeepsShape, NoneFalls, Looks};
ghost use Rattle.s3r_history.specs.Words.{History};
ghost use Rattle.s3r_store.specs.Knows.{Ties, Holds};
ghost use Rattle.s3r_desk.specs.Events.{Events};
ghost use Rattle.s3r_desk.specs.Keeping.{Keeps, AreNumbered, AreTied, AreRead};
ghost use Rattle.s3r_desk.specs.Damage.{IsDamage};
ghost use Rattle.s3r_desk.specs.Responds.{Touches, AsRead, FailsAt, HasCause};
ghost use Rattle.s3r_desk.specs.Happened.{Happened, IsTouch, IsReadAt, StoreHas, AreLeftBut};

use crate::DeskFault;
use s3r_store::{Store, StoreFault};
use s3r_world::World;
use std::alloc::Global;

// Reads one region, where that isn't done yet.
fn touch_one<W: World>(alloc: Global, world: &mut W, store: &mut Store) -> Result<(), DeskFault>
    requires volume { store.old.v < (W.shape world.old).volumes }
    requires region { store.old.v ≤ 7 }
    requires some { 1 ≤ store.old.regions }
    requires tied { IsTrue W.tells → Ties store.old (W.outside world.old) }
    ensures told { IsTrue W.tells → Looks (W.outside world.old) (W.outside world.new) }
    ensures holds { IsTrue W.tells → OnOk result ((h : History) × Holds store.new h (W.outside world.new)) }
    ensures read { OnOk result (IsSome store.new.held) }
    ensures read_before { IsSome store.old.held → (store.new ≡ store.old) × (world.new ≡ world.old) × IsOk result }
    ensures unread { OnErr result (store.new.held ≡ None) }
    ensures v { store.new.v ≡ store.old.v }
    ensures regions { store.new.regions ≡ store.old.regions }
    ensures fails { OnErr result (FailsAt store.old.v result) }
    ensures damage { IsTrue W.tells → IsDamage store.old.regions (W.outside world.old).as_read result }
    ensures cause { HasCause (store.old.v + 1) result (W.faults world.old) (W.faults world.new) }
    ensures counts { NoneFalls (W.faults world.old) (W.faults world.new) }
    ensures goes { W.goes world.old world.new }
    ensures shape { KeepsShape (W.shape world.old) (W.shape world.new) }
{
    match store.touch(alloc, world) {
        Ok(()) => Ok(()),
        Err(StoreFault::Volume(v)) => Err(DeskFault::Volume(v)),
        Err(StoreFault::Damaged { v, offset }) => Err(DeskFault::Damaged { v, offset }),
        Err(StoreFault::OutOfMemory) => Err(DeskFault::OutOfMemory),
        Err(StoreFault::Refused(_)) => unreachable!(),
        Err(StoreFault::Full(_)) => unreachable!(),
    }
}

/// Reads a region, where that isn't done yet. Its volume stays as it is.
///
/// `Volume` tells a call that failed, `Damaged` that the volume stands for no lawful history, and `OutOfMemory` want of
/// memory. After each the region is unread.
pub fn touch_region<W: World>(
    alloc: Global,
    world: &mut W,
    stores: &mut Vec<Store>,
    region: usize,
) -> Result<(), DeskFault>
    requires region { region < length stores.old.items }
    requires volumes { length stores.old.items ≤ (W.shape world.old).volumes }
    requires few { length stores.old.items ≤ 8 }
    requires numbered { AreNumbered stores.old.items }
    requires tied { IsTrue W.tells → AreTied stores.old.items (W.outside world.old) }
    ensures told { IsTrue W.tells → (before : Events) → Keeps before stores.old.items (W.outside world.old)
        → Happened (IsTouch (AsRead (length stores.old.items) (W.outside world.old)) before region result) before stores.old.items
        stores.new.items (W.outside world.old) (W.outside world.new) }
    ensures looks { IsTrue W.tells → (W.outside world.new).as_read ≡ (W.outside world.old).as_read }
    ensures tied { IsTrue W.tells → AreTied stores.new.items (W.outside world.new) }
    ensures read { OnOk result (IsReadAt stores.new.items region) }
    ensures unread { OnErr result (StoreHas (λ store. store.held ≡ None) stores.new.items region) }
    ensures others { AreLeftBut region stores.old.items stores.new.items }
    ensures count { length stores.new.items ≡ length stores.old.items }
    ensures numbered { AreNumbered stores.new.items }
    ensures fails { OnErr result (FailsAt region result) }
    ensures damage { IsTrue W.tells → IsDamage (length stores.old.items) (W.outside world.old).as_read result }
    ensures cause { HasCause (length stores.old.items) result (W.faults world.old) (W.faults world.new) }
    ensures counts { NoneFalls (W.faults world.old) (W.faults world.new) }
    ensures goes { W.goes world.old world.new }
    ensures shape { KeepsShape (W.shape world.old) (W.shape world.new) }
{
    touch_one(alloc, world, &mut stores[region])
}

/// Reads each region in order that isn't read yet, up to the first fault. Volumes stay as they are.
///
/// `Volume` tells a call that failed, `Damaged` where a volume stands for no lawful history, and `OutOfMemory` want of
/// memory. The region of a fault stays unread.
pub fn touch_all<W: World>(
    alloc: Global,
    world: &mut W,
    stores: &mut Vec<Store>,
) -> Result<(), DeskFault>
    requires volumes { length stores.old.items ≤ (W.shape world.old).volumes }
    requires few { length stores.old.items ≤ 8 }
    requires numbered { AreNumbered stores.old.items }
    requires tied { IsTrue W.tells → AreTied stores.old.items (W.outside world.old) }
    ensures told { IsTrue W.tells → (before : Events) → Keeps before stores.old.items (W.outside world.old)
        → Touches before result stores.old.items stores.new.items (W.outside world.old) (W.outside world.new) }
    ensures tied { IsTrue W.tells → AreTied stores.new.items (W.outside world.new) }
    ensures read { OnOk result (AreRead stores.new.items) }
    ensures count { length stores.new.items ≡ length stores.old.items }
    ensures numbered { AreNumbered stores.new.items }
    ensures damage { IsTrue W.tells → IsDamage (length stores.old.items) (W.outside world.old).as_read result }
    ensures cause { HasCause (length stores.old.items) result (W.faults world.old) (W.faults world.new) }
    ensures counts { NoneFalls (W.faults world.old) (W.faults world.new) }
    ensures goes { W.goes world.old world.new }
    ensures shape { KeepsShape (W.shape world.old) (W.shape world.new) }
{
    for r in 0..stores.len() {
        touch_one(alloc, world, &mut stores[r])?;
    }
    Ok(())
}
