//! What a turn of the copier came to.

use s3r_names::Outcome;

/// What a turn of the copier from one region to another came to. Tasks of a pair are numbered from 1.
#[derive(Clone, Copy, Debug, PartialEq, Eq)]
pub enum CopyOutcome {
    /// No task is pending.
    Idle,
    /// The first pending task came to this at its receiver, and is settled.
    Settled { number: u64, outcome: Outcome },
    /// The receiver failed. So many attempts were noted, and the task is still pending.
    Retried { number: u64, attempts: u32 },
    /// The receiver failed for the eighth time, and the task is given up.
    GaveUp { number: u64 },
}
