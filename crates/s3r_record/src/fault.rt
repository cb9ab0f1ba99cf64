ghost use Rattle.std.specs.Prelude.{◌≡◌};
ghost use Rattle.s3r_record.specs.declared.fault.RecordFault.TheVariants.{OutOfMemory};

use std::alloc::{AllocError, AllocFailed};
use thiserror::Error;

/// Why bytes are no command.
#[derive(Clone, Copy, Debug, PartialEq, Eq, Error)]
pub enum RecordFault {
    /// The first field that is wrong begins at this place.
    #[error("not a command, from byte {0} on")]
    NotACommand(u64),
    #[error("out of memory")]
    OutOfMemory,
}

impl From<AllocError> for RecordFault {
    ghost from_gives = { λ _ fault. fault ≡ OutOfMemory };

    fn from(_error: AllocError) -> RecordFault {
        RecordFault::OutOfMemory
    }
}

impl<T: Drop> From<AllocFailed<T>> for RecordFault {
    ghost from_gives = { λ _ fault. fault ≡ OutOfMemory };

    fn from(_error: AllocFailed<T>) -> RecordFault {
        RecordFault::OutOfMemory
    }
}
