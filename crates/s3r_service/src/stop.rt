// How a run ends.
ghost use Rattle.std.specs.Prelude.{◌≡◌};
ghost use Rattle.s3r_service.specs.Served.{status_of_ending, status_of_stop, stop_of};

use s3r_http::HttpFault;
use s3r_world::OutputFault;
use std::alloc::AllocError;

/// How the input ends.
#[derive(Clone, Copy, Debug, PartialEq, Eq)]
pub enum Ending {
    /// Behind a whole request, or behind one that is its connection's last.
    Over,
    /// With bytes that begin no request.
    Refused,
    /// It goes on behind the last request that is served.
    Limit,
}

impl Ending {
    /// The status that the program ends with.
    pub fn status(self) -> u8
        ensures { result ≡ status_of_ending self }
    {
        match self {
            Ending::Over => 0,
            Ending::Refused => 1,
            Ending::Limit => 10,
        }
    }
}

/// What ends the work early.
#[derive(Clone, Copy, Debug, PartialEq, Eq)]
pub enum Stop {
    /// The input failed.
    Input,
    /// The output failed.
    Output,
    /// There was no memory.
    OutOfMemory,
}

impl Stop {
    /// The status that the program ends with.
    pub fn status(self) -> u8
        ensures { result ≡ status_of_stop self }
    {
        match self {
            Stop::Input => 3,
            Stop::Output => 4,
            Stop::OutOfMemory => 6,
        }
    }
}

/// Why nothing is read on, where nothing is wrong with the bytes.
pub fn stop_of(fault: HttpFault) -> Stop
    ensures { result ≡ stop_of fault }
{
    match fault {
        HttpFault::Input => Stop::Input,
        _ => Stop::OutOfMemory,
    }
}

impl From<OutputFault> for Stop {
    ghost use Rattle.s3r_service.specs.declared.stop.Stop.TheVariants.{Output};

    ghost from_gives = { λ _ stop. stop ≡ Output };

    fn from(_: OutputFault) -> Self {
        Stop::Output
    }
}

impl From<AllocError> for Stop {
    ghost use Rattle.s3r_service.specs.declared.stop.Stop.TheVariants.{OutOfMemory};

    ghost from_gives = { λ _ stop. stop ≡ OutOfMemory };

    fn from(_: AllocError) -> Self {
        Stop::OutOfMemory
    }
}
