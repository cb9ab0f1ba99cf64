//! A world of files and standard streams. It tells nothing of what they hold.
ghost use Rattle.std.specs.Prelude.{◌≡◌, ◌≤◌, ◌<◌, length, slice_index, vec_len, false, IfOk};
ghost use Rattle.s3r_world.specs.Counting.{IsFaultless, counts_of};
ghost use Rattle.s3r_world.specs.Outside.{Counts, Shape};
ghost use Rattle.s3r_world.specs.Untold.{untold, not_told};

use crate::counters::{Counters, count_one};
use crate::folder::Folder;
use crate::memory::{OutOfMemory, zeros};
use crate::world::{DoorFault, InputFault, OutputFault, VolumeFault, World};
use std::io::{self, Read, Write};
use std::rt::Files;

const ROOM: u64 = 268_435_456;

/// Volume v is the file `volume-v` of a folder, made empty at its first use where it is missing, and kept open from
/// then on. The input and the output are the standard ones, with no buffer between, and no connections come.
///
/// Each error of the system is a fault of its side, want of memory for a path among them, and a write that takes
/// nothing. The counts of failures stay at 2^64 - 1, as those of the world in memory do.
///
/// This is the edge that is trusted: its clauses count faults and bound results, and tell nothing of what
/// the files and the streams hold. It rests on the system that a sync which answers well has made durable all that
/// was written to the file before, also where an earlier sync failed.
#[derive(Drop)]
pub struct RealWorld<R: Files + Input + Print + AllocGlobal + Drop> {
    rt: R,
    folder: Folder<R::File>,
    counts: Counters,
    ghost counted: { vec_len counts.volumes ≡ folder.volumes },
}

impl<R: Files + Input + Print + AllocGlobal + Drop> RealWorld<R> {
    /// A world of so many volumes in a folder. It opens nothing, and fails only where there is no memory.
    pub fn new(rt: R, folder: &str, volumes: u32) -> Result<RealWorld<R>, OutOfMemory>
        ensures volumes { IfOk result (λ w. (⟦<RealWorld<R> as World>⟧.shape w).volumes ≡ volumes) }
        ensures faultless { IfOk result (λ w. IsFaultless (⟦<RealWorld<R> as World>⟧.faults w)) }
    {
        let counts = Counters {
            volumes: zeros(rt.alloc(), volumes)?,
            input: 0,
            output: 0,
            door: 0,
        };
        let folder = Folder::new(rt.alloc(), folder, volumes)?;
        Ok(RealWorld { rt, folder, counts })
    }
}

impl<R: Files + Input + Print + AllocGlobal + Drop> World for RealWorld<R> {
    ghost tells = { false };

    ghost shape = { λ w. record { volumes = w.folder.volumes; room = λ _. 268435456 } };

    ghost faults = { λ w. counts_of w.counts };

    ghost outside = { λ _. untold };

    ghost goes = { λ _ _. Unit {0} };

    ghost goes_none = { λ _. tt };

    ghost goes_then = { λ _ _ _ _ _. tt };

    ghost one_image = { λ w told. not_told told };

    ghost output_kept = { λ w c now. absurd now };

    ghost counts_now = { λ w t c le now. absurd now };

    ghost only_now = { λ w c left. absurd left };

    fn volumes(&self) -> u32 {
        self.folder.volumes
    }

    fn room(&self, _v: u32) -> u64 {
        ROOM
    }

    fn size(&mut self, v: u32) -> Result<u64, VolumeFault> {
        match self.folder.size(&self.rt, v) {
            Ok(size) => Ok(size),
            Err(_) => Err(self.counts.volume_failed(v)),
        }
    }

    fn read(&mut self, v: u32, at: u64, into: &mut [u8]) -> Result<usize, VolumeFault> {
        match self.folder.read(&self.rt, v, at, into) {
            Ok(count) => Ok(count),
            Err(_) => Err(self.counts.volume_failed(v)),
        }
    }

    fn write_at(&mut self, v: u32, at: u64, bytes: &[u8]) -> Result<(), VolumeFault> {
        match self.folder.write(&self.rt, v, at, bytes) {
            Ok(()) => Ok(()),
            Err(_) => Err(self.counts.volume_failed(v)),
        }
    }

    fn sync(&mut self, v: u32) -> Result<(), VolumeFault> {
        match self.folder.sync(&self.rt, v) {
            Ok(()) => Ok(()),
            Err(_) => Err(self.counts.volume_failed(v)),
        }
    }

    // A reader lives for one call, so it holds back no byte that it has taken.
    fn take(&mut self, into: &mut [u8]) -> Result<usize, InputFault> {
        match self.rt.reader().read(into) {
            Ok(count) => Ok(count),
            Err(_) => {
                count_one(&mut self.counts.input);
                Err(InputFault)
            }
        }
    }

    fn emit(&mut self, bytes: &[u8]) -> Result<usize, OutputFault> {
        match io::writer(&self.rt).write(bytes) {
            Ok(count) if count > 0 => Ok(count),
            _ => {
                count_one(&mut self.counts.output);
                Err(OutputFault)
            }
        }
    }

    /// Always false, since nothing listens for connections.
    fn next_connection(&mut self) -> Result<bool, DoorFault> {
        Ok(false)
    }
}
