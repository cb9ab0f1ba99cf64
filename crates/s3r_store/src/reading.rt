//! A volume, read from its first record on.
ghost use Rattle.std.specs.Prelude.{◌≡◌, ◌+◌, ◌≤◌, ◌<◌, ◌^◌, IsTrue, IfErr, IfOk, unwrap_or, length};
ghost use Rattle.s3r_world.specs.Outside.{KeepsShape, NoneFalls, Looks};
ghost use Rattle.s3r_history.specs.Words.{History};
ghost use Rattle.s3r_store.specs.Knows.{IsKnown};
ghost use Rattle.s3r_store.specs.Loaded.{IsLoaded};
ghost use Rattle.s3r_store.specs.Reads.{TakesIn, IsDamage, HasCause};

use crate::{LoadedRegion, StoreFault};
use s3r_journal::{Scanned, Window, scan_in};
use s3r_record::{RecordFault, decode};
use s3r_region::{Deny, State};
use s3r_world::World;
use std::alloc::Global;

// The place of the first record.
const FIRST: u64 = 16;

// Takes in the command of the record at this place: `Damaged` is where the record begins, and is told of bytes that
// spell no command and of a command that the history refuses. After a fault the state is given up.
fn take_in(
    alloc: Global,
    state: &mut State,
    v: u32,
    offset: u64,
    spelling: &[u8],
) -> Result<(), StoreFault>
    requires few { state.old.commands + 1 < 2 ^ 64 }
    requires short { length spelling.now ≤ 16777216 }
    ensures told { TakesIn v offset spelling.now result state.old state.new }
{
    let command = match decode(alloc, spelling) {
        Ok(command) => command,
        Err(RecordFault::NotACommand(_)) => return Err(StoreFault::Damaged { v, offset }),
        Err(RecordFault::OutOfMemory) => return Err(StoreFault::OutOfMemory),
    };
    match state.accepts(&command) {
        Ok(()) => {
            state.apply(alloc, command)?;
            Ok(())
        }
        Err(deny) => {
            drop(command);
            match deny {
                Deny::Refused(_) => Err(StoreFault::Damaged { v, offset }),
                Deny::OutOfMemory => Err(StoreFault::OutOfMemory),
            }
        }
    }
}

/// Reads a region's volume: the state after the history for which it stands, and where that ends.
///
/// `Volume` tells a call that failed, `Damaged` where it stands for no lawful history, and `OutOfMemory` want of memory.
/// The volume stays as it is.
pub fn read_volume<W: World>(
    alloc: Global,
    world: &mut W,
    v: u32,
    regions: u32,
) -> Result<LoadedRegion, StoreFault>
    requires volume { v < (W.shape world.old).volumes }
    requires region { v ≤ 7 }
    requires some { 1 ≤ regions }
    ensures told { IsTrue W.tells → Looks (W.outside world.old) (W.outside world.new) }
    ensures known { IsTrue W.tells → IfOk result (λ held. IsKnown regions v held (W.outside world.new)) }
    ensures lawful { IfOk result (IsLoaded regions v) }
    ensures few { IfOk result (λ held. held.state.commands + 16 ≤ unwrap_or held.end 16) }
    ensures damage { IsTrue W.tells → IfErr result (IsDamage regions v ((W.outside world.old).as_read.volume v)) }
    ensures cause { IfErr result (λ e. HasCause v e (W.faults world.old) (W.faults world.new)) }
    ensures counts { NoneFalls (W.faults world.old) (W.faults world.new) }
    ensures goes { W.goes world.old world.new }
    ensures shape { KeepsShape (W.shape world.old) (W.shape world.new) }
{
    let mut window = Window::open(alloc, world, v)?;
    let mut state = State::new(alloc, v as u8, regions)?;
    let mut from = FIRST;
    'records: loop {
        match scan_in(world, alloc, v, v as u8, from, &mut window)? {
            Scanned::Empty => {
                return Ok(LoadedRegion {
                    state: State::new(alloc, v as u8, regions)?,
                    end: None,
                });
            }
            Scanned::End(at) => return Ok(LoadedRegion {
                state,
                end: Some(at),
            }),
            Scanned::Record { bytes, next } => {
                take_in(alloc, &mut state, v, from, &bytes)?;
                from = next;
            }
        }
    }
}
