//! The turns of a round of work.
ghost use Rattle.std.specs.Prelude.{◌≡◌, ◌++◌, IfOk};
ghost use Rattle.s3r_desk.specs.Rounds.{copies_from, copies_below, round};

use crate::{CopyOutcome, JobOutcome};
use std::alloc::{AllocError, Global};

/// A turn of a round.
#[derive(Clone, Copy, Debug, PartialEq, Eq)]
pub enum WorkerTurn {
    /// A turn of the copier from one region to another.
    Copy { from: u32, to: u32 },
    /// A turn of a region's jobs.
    Jobs { region: u32 },
}

/// What it came to.
#[derive(Clone, Copy, Debug, PartialEq, Eq)]
pub enum TurnOutcome {
    Copied(CopyOutcome),
    Stepped(JobOutcome),
}

// Puts behind the turns a turn of the copier from this region to each.
fn add_copies(turns: &mut Vec<WorkerTurn>, from: u32, regions: u32) -> Result<(), AllocError>
    ensures { IfOk result (λ done. turns.new.items ≡ turns.old.items ++ copies_from from regions) }
{
    for to in 0..regions {
        turns.push(WorkerTurn::Copy { from, to })?;
    }
    Ok(())
}

fn all_copies(alloc: Global, regions: u32) -> Result<Vec<WorkerTurn>, AllocError>
    ensures { IfOk result (λ turns. turns.items ≡ copies_below regions regions) }
{
    let mut turns = Vec::new(alloc);
    for from in 0..regions {
        add_copies(&mut turns, from, regions)?;
    }
    Ok(turns)
}

/// The turns of a round over so many regions: one of the copier for each pair in rising order, a region with itself among
/// them, and then one of each region's jobs.
pub fn round(alloc: Global, regions: u32) -> Result<Vec<WorkerTurn>, AllocError>
    ensures { IfOk result (λ turns. turns.items ≡ round regions) }
{
    let mut turns = all_copies(alloc, regions)?;
    for region in 0..regions {
        turns.push(WorkerTurn::Jobs { region })?;
    }
    Ok(turns)
}
