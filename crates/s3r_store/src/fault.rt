//! Why a store answers no.
ghost use Rattle.std.specs.Prelude.{◌≡◌};

use s3r_history::Refusal;
use s3r_journal::{AppendFault, ScanFault};
use s3r_region::Deny;
use std::alloc::{AllocError, AllocFailed};
use thiserror::Error;

/// Why a store answers no. Volumes are numbered as the world numbers them.
#[derive(Clone, Copy, Debug, PartialEq, Eq, Error)]
pub enum StoreFault {
    /// The history doesn't accept the command.
    #[error("refused")]
    Refused(Refusal),
    /// The command would pass the volume's room.
    #[error("volume {0} is full")]
    Full(u32),
    /// A call on the volume failed.
    #[error("volume {0} failed")]
    Volume(u32),
    /// The volume stands for no lawful history.
    #[error("volume {v} is damaged at byte {offset}")]
    Damaged {
        v: u32,
        /// Where what is wrong begins.
        offset: u64,
    },
    /// There was no memory.
    #[error("out of memory")]
    OutOfMemory,
}

impl From<Deny> for StoreFault {
    ghost use Rattle.s3r_store.specs.Faults.{fault_of_deny};

    ghost from_gives = { λ deny fault. fault ≡ fault_of_deny deny };

    fn from(deny: Deny) -> Self {
        match deny {
            Deny::Refused(refusal) => StoreFault::Refused(refusal),
            Deny::OutOfMemory => StoreFault::OutOfMemory,
        }
    }
}

impl From<AppendFault> for StoreFault {
    ghost use Rattle.s3r_store.specs.Faults.{fault_of_append};

    ghost from_gives = { λ from fault. fault ≡ fault_of_append from };

    fn from(fault: AppendFault) -> Self {
        match fault {
            AppendFault::Volume(v) => StoreFault::Volume(v),
            AppendFault::VolumeFull(v) => StoreFault::Full(v),
        }
    }
}

impl From<ScanFault> for StoreFault {
    ghost use Rattle.s3r_store.specs.Faults.{fault_of_scan};

    ghost from_gives = { λ from fault. fault ≡ fault_of_scan from };

    fn from(fault: ScanFault) -> Self {
        match fault {
            ScanFault::Volume(v) => StoreFault::Volume(v),
            ScanFault::Damaged(v, offset) => StoreFault::Damaged { v, offset },
            ScanFault::OutOfMemory => StoreFault::OutOfMemory,
        }
    }
}

impl From<AllocError> for StoreFault {
    ghost use Rattle.s3r_store.specs.declared.fault.StoreFault.TheVariants.{OutOfMemory};

    ghost from_gives = { λ _ fault. fault ≡ OutOfMemory };

    fn from(_: AllocError) -> Self {
        StoreFault::OutOfMemory
    }
}

impl<T: Drop> From<AllocFailed<T>> for StoreFault {
    ghost use Rattle.s3r_store.specs.declared.fault.StoreFault.TheVariants.{OutOfMemory};

    ghost from_gives = { λ _ fault. fault ≡ OutOfMemory };

    fn from(_: AllocFailed<T>) -> Self {
        StoreFault::OutOfMemory
    }
}
