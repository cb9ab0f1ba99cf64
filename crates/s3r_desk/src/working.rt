//! Rounds of work: turns made one after another, up to the first fault.
ghost use Rattle.std.specs.Prelude.{◌≡◌, ◌≤◌, ◌<◌, ◌+◌, IsTrue, IfOk, length};
ghost use Rattle.std.specs.List.{AllByRecursion};
ghost use Rattle.s3r_world.specs.Outside.{KeepsShape, NoneFalls};
ghost use Rattle.s3r_desk.specs.Events.{Events};
ghost use Rattle.s3r_desk.specs.Damage.{IsDamage};
ghost use Rattle.s3r_desk.specs.Keeping.{Keeps, AreNumbered, AreTied};
ghost use Rattle.s3r_desk.specs.Responds.{HasCause};
ghost use Rattle.s3r_desk.specs.Rounds.{IsThere, total};
ghost use Rattle.s3r_desk.specs.Worked.{MakesTurn, MakesTurns, Worked};
ghost use Rattle.s3r_desk.specs.Happened.{Happened};

use crate::copying::copy_turn;
use crate::job_turn::job_turn;
use crate::worker_turn::{TurnOutcome, WorkerTurn, round};
use crate::{DeskFault, WorkSummary};
use s3r_store::Store;
use s3r_world::World;
use std::alloc::Global;

// Makes one turn of a round.
fn make_turn<W: World>(
    alloc: Global,
    world: &mut W,
    stores: &mut Vec<Store>,
    turn: WorkerTurn,
) -> Result<TurnOutcome, DeskFault>
    requires there { IsThere (length stores.old.items) turn }
    requires volumes { length stores.old.items ≤ (W.shape world.old).volumes }
    requires few { length stores.old.items ≤ 8 }
    requires numbered { AreNumbered stores.old.items }
    requires tied { IsTrue W.tells → AreTied stores.old.items (W.outside world.old) }
    ensures told { IsTrue W.tells → (before : Events) → Keeps before stores.old.items (W.outside world.old)
        → Happened (MakesTurn turn (length stores.old.items) (W.shape world.old).room (W.outside world.old).as_read before result
        (W.faults world.old) (W.faults world.new)) before stores.old.items stores.new.items (W.outside world.old) (W.outside world.new) }
    ensures damage { IsTrue W.tells → IsDamage (length stores.old.items) (W.outside world.old).as_read result }
    ensures count { length stores.new.items ≡ length stores.old.items }
    ensures numbered { AreNumbered stores.new.items }
    ensures tied { IsTrue W.tells → AreTied stores.new.items (W.outside world.new) }
    ensures cause { HasCause (length stores.old.items) result (W.faults world.old) (W.faults world.new) }
    ensures counts { NoneFalls (W.faults world.old) (W.faults world.new) }
    ensures goes { W.goes world.old world.new }
    ensures shape { KeepsShape (W.shape world.old) (W.shape world.new) }
{
    match turn {
        WorkerTurn::Copy { from, to } => match copy_turn(alloc, world, stores, from, to) {
            Ok(outcome) => Ok(TurnOutcome::Copied(outcome)),
            Err(fault) => Err(fault),
        },
        WorkerTurn::Jobs { region } => match job_turn(alloc, world, stores, region) {
            Ok(outcome) => Ok(TurnOutcome::Stepped(outcome)),
            Err(fault) => Err(fault),
        },
    }
}

// Makes the turns in order up to the first fault, and notes what each came to.
fn make_turns<W: World>(
    alloc: Global,
    world: &mut W,
    stores: &mut Vec<Store>,
    turns: &[WorkerTurn],
    summary: WorkSummary,
) -> Result<WorkSummary, DeskFault>
    requires there { AllByRecursion (IsThere (length stores.old.items)) turns.now }
    requires fits { total summary + length turns.now < 18446744073709551616 }
    requires volumes { length stores.old.items ≤ (W.shape world.old).volumes }
    requires few { length stores.old.items ≤ 8 }
    requires numbered { AreNumbered stores.old.items }
    requires tied { IsTrue W.tells → AreTied stores.old.items (W.outside world.old) }
    ensures told { IsTrue W.tells → (before : Events) → Keeps before stores.old.items (W.outside world.old)
        → Happened (MakesTurns turns.now (length stores.old.items) (W.shape world.old).room (W.outside world.old).as_read before summary result
        (W.faults world.old) (W.faults world.new)) before stores.old.items stores.new.items (W.outside world.old) (W.outside world.new) }
    ensures total { IfOk result (λ later. total later ≤ total summary + length turns.now) }
    ensures count { length stores.new.items ≡ length stores.old.items }
    ensures numbered { AreNumbered stores.new.items }
    ensures tied { IsTrue W.tells → AreTied stores.new.items (W.outside world.new) }
    ensures cause { HasCause (length stores.old.items) result (W.faults world.old) (W.faults world.new) }
    ensures counts { NoneFalls (W.faults world.old) (W.faults world.new) }
    ensures goes { W.goes world.old world.new }
    ensures shape { KeepsShape (W.shape world.old) (W.shape world.new) }
{
    match turns {
        [] => Ok(summary),
        [turn, rest @ ..] => match make_turn(alloc, world, stores, *turn) {
            Ok(outcome) => make_turns(alloc, world, stores, rest, summary.noted(outcome)),
            Err(fault) => Err(fault),
        },
    }
}

/// So many rounds of work: in each one turn of the copier for each pair of regions in rising order, a region with itself among
/// them, and then one turn of each region's jobs. The first fault ends them.
///
/// After a fault its turn is as `copy_turn` and `job_turn` say, and the turns before it are made. `OutOfMemory` may come before
/// the first turn too.
pub fn work<W: World>(
    alloc: Global,
    world: &mut W,
    stores: &mut Vec<Store>,
    rounds: u32,
) -> Result<WorkSummary, DeskFault>
    requires volumes { length stores.old.items ≤ (W.shape world.old).volumes }
    requires few { length stores.old.items ≤ 8 }
    requires numbered { AreNumbered stores.old.items }
    requires tied { IsTrue W.tells → AreTied stores.old.items (W.outside world.old) }
    ensures told { IsTrue W.tells → (before : Events) → Keeps before stores.old.items (W.outside world.old)
        → Happened (Worked (length stores.old.items) (W.shape world.old).room (W.outside world.old).as_read rounds before result
        (W.faults world.old) (W.faults world.new)) before stores.old.items stores.new.items (W.outside world.old) (W.outside world.new) }
    ensures count { length stores.new.items ≡ length stores.old.items }
    ensures numbered { AreNumbered stores.new.items }
    ensures cause { HasCause (length stores.old.items) result (W.faults world.old) (W.faults world.new) }
    ensures counts { NoneFalls (W.faults world.old) (W.faults world.new) }
    ensures goes { W.goes world.old world.new }
    ensures shape { KeepsShape (W.shape world.old) (W.shape world.new) }
{
    let turns = round(alloc, stores.len() as u32)?;
    let mut summary = WorkSummary::new();
    for _ in 0..rounds {
        summary = make_turns(alloc, world, stores, turns.as_slice(), summary)?;
    }
    Ok(WorkSummary {
        rounds: u64::from(rounds),
        ..summary
    })
}
