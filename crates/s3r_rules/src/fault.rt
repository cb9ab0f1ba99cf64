//! Why a body is no configuration.
ghost use Rattle.std.specs.Prelude.{◌≡◌};
ghost use Rattle.s3r_rules.specs.declared.fault.ConfigFault.TheVariants.{OutOfMemory};

use std::alloc::{AllocError, AllocFailed};
use thiserror::Error;

/// What is wrong at a rule, in the order in which it is looked for (S3 API Reference, ReplicationRule), and behind that what
/// is wrong of a job (S3 API Reference, CreateJob). From `SameBucket` to `DestinationNotVersioned` a rule's kinds are known
/// where the buckets are, and so are `Report` and `Target` of a bucket that isn't there.
#[derive(Clone, Copy, Debug, PartialEq, Eq)]
pub enum Kind {
    /// There is none.
    NoRule,
    /// There are more than 1,000.
    TooManyRules,
    /// Its ID has more than 255 characters.
    IdTooLong,
    /// Its priority isn't 0 to 2,147,483,647.
    BadPriority,
    /// Its prefix has more than 1,024 bytes.
    PrefixTooLong,
    /// Its tags are no set.
    BadTags,
    /// Its destination isn't a bucket's ARN.
    BadArn,
    BadClass,
    /// It has tags, and copies delete markers.
    TagWithMarkers,
    /// An earlier rule has its ID.
    SameId,
    /// An earlier rule to the same bucket has its priority.
    SamePriority,
    /// Its destination is the bucket itself.
    SameBucket,
    /// Its destination isn't there.
    NoDestination,
    /// Its destination's versioning is Suspended.
    DestinationNotVersioned,
    /// A job's token hasn't 1 to 64 characters.
    Token,
    /// A job's priority isn't 0 to 2,147,483,647.
    Priority,
    /// A job's report can't go where it is to go.
    Report,
    /// A job's copies can't go where they are to go.
    Target,
}

impl Kind {
    ghost use Rattle.std.specs.Prelude.{◌≡◌};
    ghost use Rattle.s3r_rules.specs.Kinds.{kind_text};

    /// As answers write it.
    pub fn as_str(self) -> &'static str
        ensures { result.now ≡ kind_text self }
    {
        match self {
            Kind::NoRule => "NoRule",
            Kind::TooManyRules => "TooManyRules",
            Kind::IdTooLong => "IdTooLong",
            Kind::BadPriority => "BadPriority",
            Kind::PrefixTooLong => "PrefixTooLong",
            Kind::BadTags => "BadTags",
            Kind::BadArn => "BadArn",
            Kind::BadClass => "BadClass",
            Kind::TagWithMarkers => "TagWithMarkers",
            Kind::SameId => "SameId",
            Kind::SamePriority => "SamePriority",
            Kind::SameBucket => "SameBucket",
            Kind::NoDestination => "NoDestination",
            Kind::DestinationNotVersioned => "DestinationNotVersioned",
            Kind::Token => "Token",
            Kind::Priority => "Priority",
            Kind::Report => "Report",
            Kind::Target => "Target",
        }
    }
}

/// Why a body is no configuration. It leaves nothing behind.
#[derive(Clone, Copy, Debug, PartialEq, Eq, Error)]
pub enum ConfigFault {
    #[error("not the JSON of a configuration")]
    MalformedJson,
    /// What is wrong first, at which rule from 1, or 0 where it is at none.
    #[error("rule {0} is wrong")]
    InvalidRequest(u32, Kind),
    #[error("out of memory")]
    OutOfMemory,
}

impl From<AllocError> for ConfigFault {
    ghost from_gives = { λ _ fault. fault ≡ OutOfMemory };

    fn from(_error: AllocError) -> ConfigFault {
        ConfigFault::OutOfMemory
    }
}

impl<T: Drop> From<AllocFailed<T>> for ConfigFault {
    ghost from_gives = { λ _ fault. fault ≡ OutOfMemory };

    fn from(_error: AllocFailed<T>) -> ConfigFault {
        ConfigFault::OutOfMemory
    }
}
