ghost use Rattle.std.specs.Prelude.{◌≡◌};
ghost use Rattle.s3r_json.specs.declared.fault.BodyFault.TheVariants.{OutOfMemory};

use std::alloc::{AllocError, AllocFailed};
use thiserror::Error;

/// Why a body isn't what is asked for.
#[derive(Clone, Copy, Debug, PartialEq, Eq, Error)]
pub enum BodyFault {
    /// No JSON, or JSON of another form.
    #[error("not the JSON that is asked for")]
    MalformedJson,
    /// Of the form, with tags that no set may have.
    #[error("not a tag set")]
    InvalidTag,
    #[error("out of memory")]
    OutOfMemory,
}

impl From<AllocError> for BodyFault {
    ghost from_gives = { λ _ fault. fault ≡ OutOfMemory };

    fn from(_error: AllocError) -> BodyFault {
        BodyFault::OutOfMemory
    }
}

impl<T: Drop> From<AllocFailed<T>> for BodyFault {
    ghost from_gives = { λ _ fault. fault ≡ OutOfMemory };

    fn from(_error: AllocFailed<T>) -> BodyFault {
        BodyFault::OutOfMemory
    }
}
