//! Why a target names no request.
ghost use Rattle.std.specs.Prelude.{◌≡◌};
ghost use Rattle.s3r_routes.specs.declared.fault.RouteFault.TheVariants.{OutOfMemory};

use std::alloc::{AllocError, AllocFailed};
use thiserror::Error;

/// Why a target, its words or its names are none of the table's. Each leaves nothing behind.
#[derive(Clone, Copy, Debug, PartialEq, Eq, Error)]
pub enum RouteFault {
    #[error("the target is no path, or the path of nothing")]
    NoSuchRoute,
    #[error("not a bucket's name")]
    InvalidBucketName,
    #[error("the key is longer than 1024 bytes")]
    KeyTooLong,
    #[error("not a key")]
    InvalidKey,
    #[error("a word of the query is no text, is missing, or has a value out of its range")]
    InvalidQuery,
    #[error("no row of the table has this path with these words")]
    UnknownQuery,
    #[error("a row of the table has this path with these words, by another method")]
    WrongMethod,
    #[error("not the id of a version")]
    InvalidVersionId,
    #[error("out of memory")]
    OutOfMemory,
}

impl From<AllocError> for RouteFault {
    ghost from_gives = { λ _ fault. fault ≡ OutOfMemory };

    fn from(_error: AllocError) -> RouteFault {
        RouteFault::OutOfMemory
    }
}

impl<T: Drop> From<AllocFailed<T>> for RouteFault {
    ghost from_gives = { λ _ fault. fault ≡ OutOfMemory };

    fn from(_error: AllocFailed<T>) -> RouteFault {
        RouteFault::OutOfMemory
    }
}
