//! All regions.
ghost use Rattle.std.specs.Prelude.{◌≡◌, ◌≤◌, ℕ, IfOk, length};
ghost use Rattle.s3r_desk.specs.Keeping.{AreNumbered};

use crate::turning::{Turn, copy_between, jobs_of, step_over_all, turn_of};
use crate::working::work;
use crate::{Answer, DeskFault, Request};
use s3r_store::Store;
use s3r_world::World;
use std::alloc::{AllocError, Global};

/// All regions, and what is known of them.
#[derive(Drop)]
pub struct Desk {
    /// A store for each region, in order.
    pub stores: Vec<Store>,
}

impl Desk {
    ghost use Rattle.std.specs.Prelude.{IsTrue};
    ghost use Rattle.s3r_world.specs.Outside.{Outside, KeepsShape, NoneFalls};
    ghost use Rattle.s3r_desk.specs.Events.{Events};
    ghost use Rattle.s3r_desk.specs.Steps.{IsRequest};
    ghost use Rattle.s3r_desk.specs.Keeping.{Keeps, AreTied, IsFresh};
    ghost use Rattle.s3r_desk.specs.Responds.{Responds, HasCause};

    /// So many regions, none of them read yet. The error is want of memory.
    pub fn new(alloc: Global, regions: u32) -> Result<Desk, AllocError>
        ensures count { IfOk result (λ desk. length desk.stores.items ≡ regions) }
        ensures numbered { IfOk result (λ desk. AreNumbered desk.stores.items) }
        ensures fresh { IfOk result (λ desk. IsFresh desk.stores.items) }
    {
        let mut stores = Vec::new(alloc);
        for v in 0..regions {
            stores.push(Store::new(v, regions))?;
        }
        Ok(Desk { stores })
    }

    /// Makes the request's turn: a turn of the copier touches its two regions alone, and one of a region's jobs that region;
    /// every other request touches all regions in order, compares all pairs, and makes its step: its commits in order, and
    /// its answer.
    ///
    /// `Damaged` is told by a touch, and no step is made then. `Full` tells a step that was not made. After `Volume` no
    /// step was made, or the commit to that volume is in doubt; so it may be after `OutOfMemory`. A region in doubt is
    /// unread, and the next request's touch finds what its volume has.
    pub fn respond<W: World>(
        &mut self,
        alloc: Global,
        world: &mut W,
        request: Request,
    ) -> Result<Answer, DeskFault>
        requires volumes { length self.old.stores.items ≤ (W.shape world.old).volumes }
        requires few { length self.old.stores.items ≤ 8 }
        requires numbered { AreNumbered self.old.stores.items }
        requires tied { IsTrue W.tells → AreTied self.old.stores.items (W.outside world.old) }
        requires fits { IsRequest request }
        ensures told { IsTrue W.tells → (before : Events) → Keeps before self.old.stores.items (W.outside world.old)
            → Responds before request result (W.shape world.old).room self.old.stores.items self.new.stores.items (W.outside world.old) (W.outside world.new)
            (W.faults world.old) (W.faults world.new) }
        ensures count { length self.new.stores.items ≡ length self.old.stores.items }
        ensures numbered { AreNumbered self.new.stores.items }
        ensures cause { HasCause (length self.old.stores.items) result (W.faults world.old) (W.faults world.new) }
        ensures counts { NoneFalls (W.faults world.old) (W.faults world.new) }
        ensures goes { W.goes world.old world.new }
        ensures shape { KeepsShape (W.shape world.old) (W.shape world.new) }
    {
        match turn_of(&request) {
            Turn::Step => step_over_all(alloc, world, &mut self.stores, request),
            Turn::Copy { from, to } => {
                drop(request);
                copy_between(alloc, world, &mut self.stores, from, to)
            }
            Turn::Jobs { region } => {
                drop(request);
                jobs_of(alloc, world, &mut self.stores, region)
            }
            Turn::Work { rounds } => {
                drop(request);
                match work(alloc, world, &mut self.stores, rounds) {
                    Ok(summary) => Ok(Answer::Worked(summary)),
                    Err(fault) => Err(fault),
                }
            }
        }
    }
}
