//! The tasks to one region.

ghost use Rattle.std.specs.Prelude.{◌≡◌, ◌<◌, ◌≤◌, ◌+◌, [], ◌∷◌, ◌++◌, true, Some, IfOk, OnOk, OnErr, None, length, find, option_map, if◌then◌else◌};
ghost use Rattle.std.specs.List.{list_any};
ghost use Rattle.s3r_queue.specs.Tasks.{waits, first_of, settled_of, answered_of, new_task, with_outcome, one_attempt_more, on_first, numbered};

use crate::task::{MOST_ATTEMPTS, Task, come_to, try_again};
use s3r_names::Outcome;
use std::alloc::{AllocError, Global};
use std::marker::Model;

/// The tasks to one region, the first first. Those that are no longer pending stand before the others, so two numbers
/// tell where the first pending one is and save each call a walk.
#[derive(Drop)]
pub(crate) struct Queue<E> {
    tasks: Vec<Task<E>>,
    /// How many are no longer pending.
    settled: usize,
    /// The number of the last one that came to something. It is 0 where none did.
    answered: u64,
}

impl<E> Model for Queue<E> {
    ghost use Rattle.std.specs.Prelude.{◌≡◌, true, List};
    ghost use Rattle.s3r_queue.specs.declared.task.Task.{Task};
    ghost use Rattle.s3r_queue.specs.Tasks.{are_in_turn, settled_of, answered_of};

    ghost Value = { List (Task E) };

    ghost view = { λ queue. queue.tasks.items };

    ghost invariant = { λ queue. (are_in_turn queue.tasks.items ≡ true)
        × (queue.settled ≡ settled_of queue.tasks.items)
        × (queue.answered ≡ answered_of queue.tasks.items) };
}

impl<E> Queue<E> {
    /// No tasks.
    pub(crate) fn new(alloc: Global) -> Queue<E>
        ensures { result ≡ [] }
    {
        Queue {
            tasks: Vec::new(alloc),
            settled: 0,
            answered: 0,
        }
    }

    /// The number of the first pending task.
    pub(crate) fn first(&self) -> Option<u64>
        ensures { result ≡ (if list_any waits self.now then Some (first_of self.now) else None) }
    {
        if self.settled < self.tasks.len() {
            Some(self.settled as u64 + 1)
        } else {
            None
        }
    }

    /// The first pending task.
    pub(crate) fn first_task(&self) -> &Task<E>
        requires { list_any waits self.now ≡ true }
        ensures { find waits self.now ≡ Some result.now }
    {
        &self.tasks[self.settled]
    }

    /// How many tasks there are, the greatest number of one that came to something, and how many are no longer pending.
    pub(crate) fn counts(&self) -> (u64, u64, u64)
        ensures sent { result.0 ≡ length self.now }
        ensures answered { result.1 ≡ answered_of self.now }
        ensures settled { result.2 ≡ settled_of self.now }
        ensures first { first_of self.now ≡ result.2 + 1 }
    {
        (self.tasks.len() as u64, self.answered, self.settled as u64)
    }

    /// The task of this number.
    pub(crate) fn numbered(&self, number: u64) -> Option<&Task<E>>
        ensures { option_map (λ task. task.now) result ≡ numbered number self.now }
    {
        match number.checked_sub(1) {
            Some(place) => self.tasks.get(place as usize),
            None => None,
        }
    }

    /// All tasks, the first first.
    pub(crate) fn tasks(&self) -> &[Task<E>]
        ensures { result.now ≡ self.now }
    {
        self.tasks.as_slice()
    }

    /// Notes what the first pending task came to.
    pub(crate) fn settle(&mut self, outcome: Outcome)
        requires { list_any waits self.old ≡ true }
        ensures { self.new ≡ on_first (with_outcome outcome) self.old }
    {
        come_to(&mut self.tasks[self.settled], outcome);
        self.settled += 1;
        self.answered = self.settled as u64;
    }

    /// Counts one attempt more for the first pending task, and says how many there were.
    pub(crate) fn attempt(&mut self) -> u32
        requires { list_any waits self.old ≡ true }
        ensures changed { self.new ≡ on_first one_attempt_more self.old }
        ensures so_far { option_map (λ task. task.attempts + 1) (find waits self.old) ≡ Some result }
        ensures most { result ≤ 8 }
    {
        let attempts = try_again(&mut self.tasks[self.settled]);
        if attempts >= MOST_ATTEMPTS {
            self.settled += 1;
        }
        attempts
    }
}

impl<E: Drop> Queue<E> {
    /// Puts a task behind the others, and says its number.
    pub(crate) fn push(&mut self, effect: E) -> Result<u64, AllocError>
        ensures number { IfOk result (λ number. number ≡ length self.old + 1) }
        ensures ok { OnOk result (self.new ≡ self.old ++ new_task effect ∷ []) }
        ensures err { OnErr result (self.new ≡ self.old) }
    {
        self.tasks.push(Task {
            effect,
            outcome: None,
            attempts: 0,
        })?;
        Ok(self.tasks.len() as u64)
    }
}
