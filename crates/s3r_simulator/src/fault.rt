// Why a script isn't followed to its end.

use s3r_world::OutOfMemory;
use std::alloc::{AllocError, AllocFailed};
use std::{fmt, io};

/// Why a script isn't followed to its end.
#[derive(Clone, Copy)]
pub enum Fault {
    NoCommand,
    TooManyVolumes,
    TooMuchRoom,
    NoVolume,
    VolumeFull,
    PastEnd,
    EmptyPiece,
    NothingRun,
    OutOfMemory,
    Streams,
}

impl Fault {
    /// Whether a line of the script is wrong.
    pub fn is_of_script(self) -> bool {
        !matches!(self, Fault::OutOfMemory | Fault::Streams)
    }

    /// The status that the simulator ends with.
    pub fn status(self) -> u8 {
        match self {
            Fault::Streams => 1,
            Fault::OutOfMemory => 6,
            _ => 2,
        }
    }
}

impl fmt::Display for Fault {
    fn fmt<W: fmt::Write>(&self, f: &mut fmt::Formatter<W>) -> fmt::Result {
        f.write_str(match self {
            Fault::NoCommand => "this is no command",
            Fault::TooManyVolumes => "a world has at most 8 volumes",
            Fault::TooMuchRoom => "a volume has room for at most 268435456 bytes",
            Fault::NoVolume => "there is no such volume",
            Fault::VolumeFull => "the volume has no room for so many bytes",
            Fault::PastEnd => "the volume ends before that",
            Fault::EmptyPiece => "a piece has at least one byte",
            Fault::NothingRun => "nothing has run yet",
            Fault::OutOfMemory => "there is no memory",
            Fault::Streams => "a standard stream failed",
        })
    }
}

impl From<AllocError> for Fault {
    fn from(_: AllocError) -> Self {
        Fault::OutOfMemory
    }
}

impl<T: Drop> From<AllocFailed<T>> for Fault {
    fn from(_: AllocFailed<T>) -> Self {
        Fault::OutOfMemory
    }
}

impl From<OutOfMemory> for Fault {
    fn from(_: OutOfMemory) -> Self {
        Fault::OutOfMemory
    }
}

impl From<io::Error> for Fault {
    fn from(_: io::Error) -> Self {
        Fault::Streams
    }
}
