//! The first pending task of a region.
ghost use Rattle.std.specs.Prelude.{◌≡◌, ◌≤◌, ◌<◌, ◌^◌, ℕ, [], IsSome, IfOk, IfErr, IfSome, option_map, unwrap_or};
ghost use Rattle.s3r_queue.specs.Tasks.{first_of};
ghost use Rattle.s3r_queue.specs.Queues.{to_region};
ghost use Rattle.s3r_record.specs.Spelling.{IsCommand, IsEffect, EffectMeetsLimits};
ghost use Rattle.s3r_record.specs.declared.command.Command.{Command};
ghost use Rattle.s3r_history.specs.Words.{History};
ghost use Rattle.s3r_history.specs.Deeds.{deeds};
ghost use Rattle.s3r_history.specs.Due.{first_due};
ghost use Rattle.s3r_store.specs.Knows.{IsStoreAfter};
ghost use Rattle.s3r_store.specs.Pending.{first_task, seen_due, body_in, MayEnd};

use crate::carrying::{carried, share_of};
use crate::{Store, StoreFault};
use s3r_history::{Due, Prescribed};
use s3r_names::{Bytes, Kept};
use s3r_queue::Task;
use s3r_region::State;
use s3r_world::World;
use std::alloc::{AllocError, Global};

/// A history has fewer than 2^64 commands.
fn are_counted(state: &State)
    ensures { state.now.commands < 2 ^ 64 }
{
    let _commands = state.commands();
}

/// The first pending task to a region, and its number.
fn first_task(state: &State, to: u32) -> Option<(u64, &Task<Prescribed>)>
    ensures task { option_map (λ found. found.1.now) result ≡ first_task state.now to }
    ensures number { IfSome result (λ found. found.0 ≡ first_of (to_region state.now.outbox to)) }
    ensures few { IfSome result (λ found. found.1.now.attempts ≤ 7) }
{
    let (_, _, settled) = state.counts(to);
    match state.outbox().tasks(to).get(settled as usize) {
        Some(task) => Some((settled + 1, task)),
        None => None,
    }
}

/// A share of the body of the first pending task to a region, where that has one.
fn first_share(state: &State, to: u32) -> Result<Option<Kept>, AllocError>
    ensures { IfOk result (λ body. unwrap_or body [] ≡ body_in (first_task state.now to)) }
{
    match first_task(state, to) {
        Some((_, task)) => share_of(&task.effect.effect),
        None => Ok(None),
    }
}

/// The first pending task to a region, whose body has these bytes.
fn due_with(state: &State, to: u32, bytes: Bytes) -> Result<Option<Due>, AllocError>
    requires { bytes ≡ body_in (first_task state.now to) }
    ensures due { IfOk result (λ due. due ≡ seen_due state.now to) }
    ensures named { IfOk result (λ due. IfSome due (λ due. EffectMeetsLimits due.effect → IsEffect due.effect)) }
    ensures small { IfOk result (λ due. IfSome due (λ due. due.number < 2 ^ 64)) }
    ensures few { IfOk result (λ due. IfSome due (λ due. due.attempts ≤ 7)) }
{
    match first_task(state, to) {
        Some((number, task)) => {
            let effect = carried(&task.effect.effect, bytes)?;
            Ok(Some(Due {
                number,
                attempts: task.attempts,
                effect,
            }))
        }
        None => Ok(None),
    }
}

impl Store {
    /// The bytes of a body, none where there is no body. All stays as it was.
    fn bytes_of<W: World>(
        &mut self,
        alloc: Global,
        world: &mut W,
        body: &Option<Kept>,
    ) -> Result<Bytes, StoreFault>
        ensures bytes { IfOk result (λ bytes. bytes ≡ unwrap_or body.now []) }
        ensures fault { IfErr result (λ fault. fault ≡ StoreFault.OutOfMemory) }
        ensures world { world.new ≡ world.old }
        ensures store { self.new ≡ self.old }
    {
        match body {
            Some(kept) => self.body(alloc, world, kept),
            None => Ok(Bytes::from_vec(Vec::new(alloc))),
        }
    }

    /// The first pending task to a region, with its body's bytes. None where none is pending. All stays as it was.
    pub fn first_due<W: World>(
        &mut self,
        alloc: Global,
        world: &mut W,
        to: u32,
    ) -> Result<Option<Due>, StoreFault>
        requires read { IsSome self.old.held }
        requires region { self.old.v ≤ 7 }
        ensures due { IfOk result (λ due. (h : History) → IsStoreAfter self.old h → due ≡ first_due h (deeds self.old.v h) to) }
        ensures fits { IfOk result (λ due. IfSome due (λ due. IsCommand (Command.Receive self.old.v due.number due.effect))) }
        ensures ends { IfOk result (λ due. IfSome due (λ due. (h : History) → IsStoreAfter self.old h
            → MayEnd self.old.regions self.old.v h to due.number)) }
        ensures few { IfOk result (λ due. IfSome due (λ due. due.attempts ≤ 7)) }
        ensures fault { IfErr result (λ fault. fault ≡ StoreFault.OutOfMemory) }
        ensures world { world.new ≡ world.old }
        ensures store { self.new ≡ self.old }
    {
        let Some(state) = self.state() else {
            unreachable!();
        };
        let body = first_share(state, to)?;
        let bytes = self.bytes_of(alloc, world, &body)?;
        let Some(state) = self.state() else {
            unreachable!();
        };
        are_counted(state);
        Ok(due_with(state, to, bytes)?)
    }
}
