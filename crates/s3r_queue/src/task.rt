//! A task of a queue.

ghost use Rattle.std.specs.Prelude.{◌≡◌, ◌+◌, ◌≤◌, true};
ghost use Rattle.s3r_queue.specs.Tasks.{state_of, state_by, waits, with_outcome, one_attempt_more};

use s3r_names::{Outcome, Reason};

/// A task is given up after so many attempts.
pub const MOST_ATTEMPTS: u32 = 8;

/// An effect that is to be carried to a region, and what became of it.
#[derive(Drop)]
pub struct Task<E> {
    pub effect: E,
    /// What it came to there. It is None as long as that isn't known here.
    pub outcome: Option<Outcome>,
    /// How often the region couldn't be written to.
    pub attempts: u32,
}

#[derive(Clone, Copy)]
pub enum TaskState {
    Pending,
    Completed,
    Failed(Reason),
    /// It was given up.
    Exhausted,
}

/// The state of a task with this outcome, after so many attempts.
pub(crate) fn state_by(outcome: Option<Outcome>, attempts: u32) -> TaskState
    ensures { result ≡ state_by outcome attempts }
{
    match outcome {
        Some(Outcome::Applied) => TaskState::Completed,
        Some(Outcome::Refused(reason)) => TaskState::Failed(reason),
        None => {
            if attempts < MOST_ATTEMPTS {
                TaskState::Pending
            } else {
                TaskState::Exhausted
            }
        }
    }
}

impl<E> Task<E> {
    /// The state follows from the outcome and the attempts, so it is kept nowhere.
    pub fn state(&self) -> TaskState
        ensures { result ≡ state_of self.now }
    {
        state_by(self.outcome, self.attempts)
    }
}

/// Notes what the task came to.
pub(crate) fn come_to<E>(task: &mut Task<E>, outcome: Outcome)
    ensures { task.new ≡ with_outcome outcome task.old }
{
    task.outcome = Some(outcome);
}

/// Counts one attempt more for a pending task, and says how many there were.
pub(crate) fn try_again<E>(task: &mut Task<E>) -> u32
    requires { waits task.old ≡ true }
    ensures changed { task.new ≡ one_attempt_more task.old }
    ensures so_far { result ≡ task.old.attempts + 1 }
    ensures most { result ≤ 8 }
{
    task.attempts += 1;
    task.attempts
}
