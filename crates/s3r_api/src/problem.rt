//! Why a request isn't answered by the desk.

ghost use Rattle.std.specs.Prelude.{◌≡◌};
ghost use Rattle.s3r_api.specs.Problems.{problem_of};

use s3r_http::HttpFault;
use s3r_jobs_json::JobFault;
use s3r_json::BodyFault;
use s3r_routes::RouteFault;
use s3r_rules::{ConfigFault, Kind};
use std::alloc::AllocError;

/// Why a request isn't one of the desk's.
#[derive(Clone, Copy, Debug, PartialEq, Eq)]
pub enum Problem {
    InvalidBucketName,
    KeyTooLong,
    InvalidKey,
    /// Tags that no set may have.
    InvalidTag,
    /// A version's id of another form.
    InvalidVersionId,
    InvalidStorageClass,
    /// A word of the query that is missing, or a word or the line of Object Lock that says what it can't.
    InvalidQuery,
    /// A legal hold that is neither `ON` nor `OFF`.
    InvalidHold,
    /// The body isn't the JSON that the route asks for.
    MalformedJson,
    /// A rule of a configuration is wrong so, counted from 1; 0 where it is at none, or a job is wrong so.
    InvalidRequest { rule: u32, kind: Kind },
    /// A configuration whose command is longer than a record may be.
    ConfigurationTooLong,
    /// The target is no path, or the path of nothing.
    NoSuchRoute,
    /// No row of the request table has this path with these words, or it isn't built.
    UnknownQuery,
    /// Such a row is there, by another method.
    WrongMethod,
    // A request that can't be framed.
    BadHead,
    HeadTooLong,
    BadLength,
    EntityTooLarge,
    NotImplemented,
    CutShort,
    OutOfMemory,
}

impl From<AllocError> for Problem {
    ghost use Rattle.s3r_api.specs.declared.problem.Problem.TheVariants.{OutOfMemory};

    ghost from_gives = { λ _ problem. problem ≡ OutOfMemory };

    fn from(_: AllocError) -> Self {
        Problem::OutOfMemory
    }
}

impl From<RouteFault> for Problem {
    ghost use Rattle.s3r_api.specs.Faults.{of_route};

    ghost from_gives = { λ fault problem. problem ≡ of_route fault };

    fn from(fault: RouteFault) -> Self {
        match fault {
            RouteFault::NoSuchRoute => Problem::NoSuchRoute,
            RouteFault::InvalidBucketName => Problem::InvalidBucketName,
            RouteFault::KeyTooLong => Problem::KeyTooLong,
            RouteFault::InvalidKey => Problem::InvalidKey,
            RouteFault::InvalidQuery => Problem::InvalidQuery,
            RouteFault::UnknownQuery => Problem::UnknownQuery,
            RouteFault::WrongMethod => Problem::WrongMethod,
            RouteFault::InvalidVersionId => Problem::InvalidVersionId,
            RouteFault::OutOfMemory => Problem::OutOfMemory,
        }
    }
}

impl From<BodyFault> for Problem {
    ghost use Rattle.s3r_api.specs.Faults.{of_body};

    ghost from_gives = { λ fault problem. problem ≡ of_body fault };

    fn from(fault: BodyFault) -> Self {
        match fault {
            BodyFault::MalformedJson => Problem::MalformedJson,
            BodyFault::InvalidTag => Problem::InvalidTag,
            BodyFault::OutOfMemory => Problem::OutOfMemory,
        }
    }
}

impl From<ConfigFault> for Problem {
    ghost use Rattle.s3r_api.specs.Faults.{of_config};

    ghost from_gives = { λ fault problem. problem ≡ of_config fault };

    fn from(fault: ConfigFault) -> Self {
        match fault {
            ConfigFault::MalformedJson => Problem::MalformedJson,
            ConfigFault::InvalidRequest(rule, kind) => Problem::InvalidRequest { rule, kind },
            ConfigFault::OutOfMemory => Problem::OutOfMemory,
        }
    }
}

impl From<JobFault> for Problem {
    ghost use Rattle.s3r_api.specs.Faults.{of_job};

    ghost from_gives = { λ fault problem. problem ≡ of_job fault };

    fn from(fault: JobFault) -> Self {
        match fault {
            JobFault::MalformedJson => Problem::MalformedJson,
            JobFault::InvalidTag => Problem::InvalidTag,
            JobFault::InvalidRequest(kind) => Problem::InvalidRequest { rule: 0, kind },
            JobFault::InvalidArn => Problem::InvalidRequest {
                rule: 0,
                kind: Kind::BadArn,
            },
            JobFault::InvalidVersionId => Problem::InvalidVersionId,
            JobFault::OutOfMemory => Problem::OutOfMemory,
        }
    }
}

/// The problem of a refusal to frame a request. None where the input failed or memory ran out.
pub fn framing_problem(fault: HttpFault) -> Option<Problem>
    ensures { result ≡ problem_of fault }
{
    match fault {
        HttpFault::BadHead => Some(Problem::BadHead),
        HttpFault::HeadTooLong => Some(Problem::HeadTooLong),
        HttpFault::BadLength => Some(Problem::BadLength),
        HttpFault::EntityTooLarge => Some(Problem::EntityTooLarge),
        HttpFault::NotImplemented => Some(Problem::NotImplemented),
        HttpFault::CutShort => Some(Problem::CutShort),
        HttpFault::Input | HttpFault::OutOfMemory => None,
    }
}
