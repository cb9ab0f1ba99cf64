//! Why a text is no manifest.

ghost use Rattle.std.specs.Prelude.{◌≡◌};
ghost use Rattle.s3r_manifest.specs.declared.fault.ManifestFault.TheVariants.{OutOfMemory};

use s3r_lines::LineKind;
use std::alloc::{AllocError, AllocFailed};
use thiserror::Error;

/// Why a text is no manifest. It leaves nothing behind.
#[derive(Clone, Copy, Debug, PartialEq, Eq, Error)]
pub enum ManifestFault {
    #[error("the manifest is longer than 4194304 bytes")]
    ManifestTooLong,
    /// The first record that is wrong, from 1, and what is wrong of it first.
    #[error("record {0} is wrong")]
    BadLine(u32, LineKind),
    #[error("the manifest has more than 20000 records")]
    TooManyLines,
    #[error("out of memory")]
    OutOfMemory,
}

impl From<AllocError> for ManifestFault {
    ghost from_gives = { λ _ fault. fault ≡ OutOfMemory };

    fn from(_error: AllocError) -> ManifestFault {
        ManifestFault::OutOfMemory
    }
}

impl<T: Drop> From<AllocFailed<T>> for ManifestFault {
    ghost from_gives = { λ _ fault. fault ≡ OutOfMemory };

    fn from(_error: AllocFailed<T>) -> ManifestFault {
        ManifestFault::OutOfMemory
    }
}
