//! The tasks of a region to others.

ghost use Rattle.std.specs.Prelude.{if◌then◌else◌, ◌≡◌, ◌<◌, ◌≤◌, ◌+◌, [], ◌∷◌, ◌++◌, Some, IfOk, OnOk, OnErr, false, IfSome, IfNone, length, find, replicate, slice_set, option_map};
ghost use Rattle.std.specs.List.{list_any};
ghost use Rattle.s3r_queue.specs.Tasks.{waits, first_of, settled_of, answered_of, new_task, with_outcome, one_attempt_more, on_first, numbered};
ghost use Rattle.s3r_queue.specs.Queues.{to_region, IsFirst};
ghost use Rattle.s3r_queue.specs.Entries.{entry_of, entry_behind};

use crate::queue::Queue;
use crate::{Task, TaskState};
use s3r_names::Outcome;
use std::alloc::{AllocError, Global};
use std::marker::Model;

/// The tasks of a region to each region, seen as a list of lists.
#[derive(Drop)]
pub struct Outbox<E> {
    queues: Vec<Queue<E>>,
}

impl<E> Model for Outbox<E> {
    ghost use Rattle.std.specs.Prelude.{List};
    ghost use Rattle.s3r_queue.specs.declared.task.Task.{Task};

    ghost Value = { List (List (Task E)) };

    ghost view = { λ outbox. outbox.queues.items };
}

/// The first pending task to a region, in the hands of who carries it there. It can't be dropped: `settle`, `attempt` or
/// `put_back` takes it, so none is forgotten.
pub struct Claim {
    to: u32,
    number: u64,
}

impl Model for Claim {
    ghost use Rattle.s3r_queue.specs.Queues.{Claimed};

    ghost Value = { Claimed };

    ghost view = { λ claim. record { to = claim.to; number = claim.number } };
}

impl Claim {
    pub fn number(&self) -> u64
        ensures { result ≡ self.now.number }
    {
        self.number
    }
}

impl<E> Outbox<E> {
    /// Claims the first pending task to a region.
    pub fn claim(&mut self, to: u32) -> Option<Claim>
        requires { to < length self.old }
        ensures found { IfSome result (λ claim. IsFirst self.old claim × (claim.to ≡ to)) }
        ensures none { IfNone result (list_any waits (to_region self.old to) ≡ false) }
        ensures same { self.new ≡ self.old }
    {
        let number = self.queues[to as usize].first()?;
        Some(Claim { to, number })
    }

    /// The effect of the claimed task.
    pub fn task(&self, claim: &Claim) -> &E
        requires there { claim.now.to < length self.now }
        requires first { IsFirst self.now claim.now }
        ensures { option_map (λ task. task.effect) (find waits (to_region self.now claim.now.to)) ≡ Some result.now }
    {
        &self.queues[claim.to as usize].first_task().effect
    }

    /// Notes what the claimed task came to.
    pub fn settle(&mut self, claim: Claim, outcome: Outcome)
        requires there { claim.to < length self.old }
        requires first { IsFirst self.old claim }
        ensures { self.new ≡ slice_set self.old claim.to (on_first (with_outcome outcome) (to_region self.old claim.to)) }
    {
        let Claim { to, number: _ } = claim;
        self.queues[to as usize].settle(outcome);
    }

    /// Counts one attempt more for the claimed task, and says how many there were. At the eighth it is given up.
    pub fn attempt(&mut self, claim: Claim) -> u32
        requires there { claim.to < length self.old }
        requires first { IsFirst self.old claim }
        ensures changed { self.new ≡ slice_set self.old claim.to (on_first one_attempt_more (to_region self.old claim.to)) }
        ensures so_far { option_map (λ task. task.attempts + 1) (find waits (to_region self.old claim.to)) ≡ Some result }
        ensures most { result ≤ 8 }
    {
        let Claim { to, number: _ } = claim;
        self.queues[to as usize].attempt()
    }

    /// Leaves the claimed task as it is.
    pub fn put_back(&mut self, claim: Claim)
        ensures { self.new ≡ self.old }
    {
        let Claim { to: _, number: _ } = claim;
    }

    /// How many tasks there are to a region, the greatest number of one that came to something, and how many are no longer
    /// pending. These are the first ones, so the number behind the last is that of the first pending one.
    pub fn counts(&self, to: u32) -> (u64, u64, u64)
        requires { to < length self.now }
        ensures sent { result.0 ≡ length (to_region self.now to) }
        ensures answered { result.1 ≡ answered_of (to_region self.now to) }
        ensures settled { result.2 ≡ settled_of (to_region self.now to) }
        ensures first { first_of (to_region self.now to) ≡ result.2 + 1 }
    {
        self.queues[to as usize].counts()
    }

    /// A task by its number, with its state and its attempts.
    pub fn entry(&self, to: u32, number: u64) -> Option<(&E, TaskState, u32)>
        requires { to < length self.now }
        ensures { option_map entry_behind result ≡ option_map entry_of (numbered number (to_region self.now to)) }
    {
        let task = self.queues[to as usize].numbered(number)?;
        Some((&task.effect, task.state(), task.attempts))
    }

    /// All tasks to a region, the first first; none where the region isn't there.
    pub fn tasks(&self, to: u32) -> &[Task<E>]
        ensures { result.now ≡ to_region self.now to }
    {
        match self.queues.get(to as usize) {
            Some(queue) => queue.tasks(),
            None => &[],
        }
    }

    /// The number of the first pending task to a region; none where none is pending.
    pub fn first(&self, to: u32) -> Option<u64>
        ensures { result ≡ (if list_any waits (to_region self.now to) then Some (first_of (to_region self.now to)) else None) }
    {
        match self.queues.get(to as usize) {
            Some(queue) => queue.first(),
            None => None,
        }
    }
}

impl<E: Drop> Outbox<E> {
    /// No tasks to any of so many regions.
    pub fn new(alloc: Global, regions: u32) -> Result<Outbox<E>, AllocError>
        ensures { IfOk result (λ queues. queues ≡ replicate regions []) }
    {
        let mut queues = Vec::new(alloc);
        for _ in 0..regions {
            queues.push(Queue::new(alloc))?;
        }
        Ok(Outbox { queues })
    }

    /// Puts a task behind the others to its region, and says its number.
    pub fn push(&mut self, to: u32, task: E) -> Result<u64, AllocError>
        requires { to < length self.old }
        ensures number { IfOk result (λ number. number ≡ length (to_region self.old to) + 1) }
        ensures ok { OnOk result (self.new ≡ slice_set self.old to (to_region self.old to ++ new_task task ∷ [])) }
        ensures err { OnErr result (self.new ≡ self.old) }
    {
        self.queues[to as usize].push(task)
    }
}
