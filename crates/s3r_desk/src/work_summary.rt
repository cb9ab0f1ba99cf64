//! What rounds of work come to.
ghost use Rattle.std.specs.Prelude.{◌≡◌, ◌<◌, ◌≤◌, ◌+◌, []};
ghost use Rattle.s3r_desk.specs.Rounds.{summary, noted, total};

use crate::worker_turn::TurnOutcome;
use crate::{CopyOutcome, JobOutcome};
use s3r_names::Outcome;

/// How many turns of so many rounds came to what. An idle turn isn't counted.
#[derive(Clone, Copy, Debug, PartialEq, Eq)]
pub struct WorkSummary {
    /// Tasks that were applied at their receivers.
    pub applied: u64,
    /// Jobs that ended.
    pub ended: u64,
    /// Tasks that were given up.
    pub gave_up: u64,
    /// Lines of jobs that were done.
    pub lines: u64,
    /// Moves of jobs, manifests that were read among them.
    pub moves: u64,
    /// Tasks that were refused at their receivers.
    pub refused: u64,
    /// Attempts that were noted, save those at which a task was given up.
    pub retried: u64,
    /// The rounds.
    pub rounds: u64,
}

impl WorkSummary {
    /// Nothing was done yet.
    pub(crate) fn new() -> WorkSummary
        ensures { result ≡ summary 0 [] }
    {
        WorkSummary {
            applied: 0,
            ended: 0,
            gave_up: 0,
            lines: 0,
            moves: 0,
            refused: 0,
            retried: 0,
            rounds: 0,
        }
    }

    /// One turn more came to this.
    pub(crate) fn noted(mut self, outcome: TurnOutcome) -> WorkSummary
        requires { total self + 1 < 18446744073709551616 }
        ensures noted { result ≡ noted self outcome }
        ensures total { total result ≤ total self + 1 }
    {
        match outcome {
            TurnOutcome::Copied(CopyOutcome::Idle) | TurnOutcome::Stepped(JobOutcome::Idle) => {}
            TurnOutcome::Copied(
                CopyOutcome::Settled {
                    outcome: Outcome::Applied,
                    ..
                },
            ) => self.applied += 1,
            TurnOutcome::Copied(
                CopyOutcome::Settled {
                    outcome: Outcome::Refused(_),
                    ..
                },
            ) => self.refused += 1,
            TurnOutcome::Copied(CopyOutcome::Retried { .. }) => self.retried += 1,
            TurnOutcome::Copied(CopyOutcome::GaveUp { .. }) => self.gave_up += 1,
            TurnOutcome::Stepped(JobOutcome::Moved { .. }) => self.moves += 1,
            TurnOutcome::Stepped(JobOutcome::Lined { .. }) => self.lines += 1,
            TurnOutcome::Stepped(JobOutcome::Ended { .. }) => self.ended += 1,
        }
        self
    }
}
