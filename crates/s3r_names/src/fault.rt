ghost use Rattle.std.specs.Prelude.{◌≡◌};
ghost use Rattle.s3r_names.specs.declared.fault.NameFault.TheVariants.{OutOfMemory};

use std::alloc::{AllocError, AllocFailed};
use thiserror::Error;

/// Why bytes are no name.
#[derive(Clone, Copy, Debug, PartialEq, Eq, Error)]
pub enum NameFault {
    #[error("not a bucket's name")]
    InvalidBucketName,
    #[error("the key is longer than 1024 bytes")]
    KeyTooLong,
    #[error("not a key")]
    InvalidKey,
    #[error("not a storage class")]
    InvalidStorageClass,
    #[error("not a tag")]
    InvalidTag,
    #[error("not the ARN of a bucket or an object")]
    InvalidArn,
    #[error("out of memory")]
    OutOfMemory,
}

impl From<AllocError> for NameFault {
    ghost from_gives = { λ _ fault. fault ≡ OutOfMemory };

    fn from(_error: AllocError) -> NameFault {
        NameFault::OutOfMemory
    }
}

impl<T: Drop> From<AllocFailed<T>> for NameFault {
    ghost from_gives = { λ _ fault. fault ≡ OutOfMemory };

    fn from(_error: AllocFailed<T>) -> NameFault {
        NameFault::OutOfMemory
    }
}
