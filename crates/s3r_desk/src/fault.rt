//! Why the desk answers no request.
ghost use Rattle.std.specs.Prelude.{◌≡◌};

use std::alloc::AllocError;
use thiserror::Error;

/// Why a request has no answer of its own. Volumes have their region's number.
#[derive(Clone, Copy, Debug, PartialEq, Eq, Error)]
pub enum DeskFault {
    /// A call on the volume failed. A command of its region may be in doubt.
    #[error("volume {0} failed")]
    Volume(u32),
    /// A command would pass the volume's room.
    #[error("volume {0} is full")]
    Full(u32),
    /// The volume stands for no lawful history.
    #[error("volume {v} is damaged at byte {offset}")]
    Damaged {
        v: u32,
        /// Where what is wrong begins.
        offset: u64,
    },
    /// Two regions disagree on the tasks from one to the other: what the receiver has isn't what the sender's tasks allow.
    #[error("r{from} r{to} disagree sent {sent} answered {answered} settled {settled} received {received}")]
    Disagree {
        from: u32,
        to: u32,
        /// How many tasks the sender has to the receiver.
        sent: u64,
        /// The number of the last of them that came to something.
        answered: u64,
        /// How many of them are no longer pending.
        settled: u64,
        /// The last number that the receiver has.
        received: u64,
    },
    /// There was no memory. A command may be in doubt.
    #[error("out of memory")]
    OutOfMemory,
}

impl From<AllocError> for DeskFault {
    ghost use Rattle.s3r_desk.specs.declared.fault.DeskFault.TheVariants.{OutOfMemory};

    ghost from_gives = { λ _ fault. fault ≡ OutOfMemory };

    fn from(_: AllocError) -> Self {
        DeskFault::OutOfMemory
    }
}
