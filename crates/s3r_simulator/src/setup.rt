// What is set for a run.
ghost use Rattle.std.specs.Prelude.{◌≡◌, ◌<◌, ◌≤◌, vec_len};

use crate::asking::Input;
use crate::fault::Fault;
use crate::plan::PlannedFaults;
use crate::script::{Asking, Times};
use s3r_world::{MemoryWorld, World};
use std::alloc::{AllocError, Global};

/// How many volumes a world has at most.
const MOST_VOLUMES: usize = 8;

/// How many bytes a volume has room for at most.
pub const MOST_ROOM: u64 = 268_435_456;

/// What is set for a run, or for a loop of runs.
#[derive(Drop)]
pub struct Setup {
    room: u64,
    volumes: Vec<Vec<u8>>,
    piece: usize,
    pub plan: PlannedFaults,
    input: Input,
    // the input of the openings, and whether what is asked goes there
    opening: Input,
    pub opens: bool,
    // what is written behind each `want`
    pub wants: Vec<String>,
    ghost small: { room ≤ 268435456 },
    ghost few: { vec_len volumes ≤ 8 },
    ghost some: { 0 < piece },
}

// So many volumes of no bytes.
fn empty_volumes(alloc: Global, count: u8) -> Result<Vec<Vec<u8>>, AllocError> {
    let mut volumes = Vec::new(alloc);
    for _ in 0..count {
        volumes.push(Vec::new(alloc))?;
    }
    Ok(volumes)
}

fn volumes_of(alloc: Global, world: &MemoryWorld) -> Result<Vec<Vec<u8>>, AllocError> {
    let mut volumes = Vec::new(alloc);
    for v in 0..world.volumes() {
        let bytes = world.volume(v).to_vec(alloc)?;
        volumes.push(bytes)?;
    }
    Ok(volumes)
}

fn room_of(world: &MemoryWorld) -> u64 {
    if world.volumes() == 0 {
        MOST_ROOM
    } else {
        world.room(0)
    }
}

// Some bytes, with others from a place on.
fn patched(alloc: Global, old: &[u8], offset: usize, bytes: &[u8]) -> Result<Vec<u8>, Fault> {
    let Some(front) = old.get(..offset) else {
        return Err(Fault::PastEnd);
    };
    let mut next = front.to_vec(alloc)?;
    next.extend_from_slice(bytes)?;
    if let Some(rest) = old.get(next.len()..) {
        next.extend_from_slice(rest)?;
    }
    Ok(next)
}

// Makes a volume of a world these bytes.
fn place(world: &mut MemoryWorld, v: u32, bytes: Vec<u8>) -> Result<(), Fault> {
    if v >= world.volumes() {
        return Err(Fault::NoVolume);
    }
    if bytes.len() as u64 > world.room(v) {
        return Err(Fault::VolumeFull);
    }
    Ok(world.with_volume(v, bytes)?)
}

fn place_all(alloc: Global, world: &mut MemoryWorld, volumes: &[Vec<u8>]) -> Result<(), Fault> {
    let mut v = 0u32;
    for bytes in volumes {
        let copy = bytes.to_vec(alloc)?;
        place(world, v, copy)?;
        v = v.saturating_add(1);
    }
    Ok(())
}

impl Setup {
    // Volumes alone.
    fn over(alloc: Global, room: u64, volumes: Vec<Vec<u8>>) -> Setup
        requires small { room ≤ 268435456 }
        requires few { vec_len volumes ≤ 8 }
    {
        Setup {
            room,
            volumes,
            piece: usize::MAX,
            plan: PlannedFaults::new(alloc),
            input: Input::new(alloc),
            opening: Input::new(alloc),
            opens: false,
            wants: Vec::new(alloc),
        }
    }

    /// Nothing is set.
    pub fn nothing(alloc: Global) -> Setup {
        Setup::over(alloc, MOST_ROOM, Vec::new(alloc))
    }

    /// Volumes of these bytes, with room for so many each, and nothing else.
    fn new(alloc: Global, room: u64, volumes: Vec<Vec<u8>>) -> Result<Setup, Fault> {
        if volumes.len() > MOST_VOLUMES {
            return Err(Fault::TooManyVolumes);
        }
        if room > MOST_ROOM {
            return Err(Fault::TooMuchRoom);
        }
        Ok(Setup::over(alloc, room, volumes))
    }

    /// So many empty volumes, and nothing else.
    pub fn empty(alloc: Global, count: u8, room: u64) -> Result<Setup, Fault> {
        let volumes = empty_volumes(alloc, count)?;
        Setup::new(alloc, room, volumes)
    }

    /// The volumes that a world has, and nothing else.
    pub fn left(alloc: Global, world: &MemoryWorld) -> Result<Setup, Fault> {
        let volumes = volumes_of(alloc, world)?;
        Setup::new(alloc, room_of(world), volumes)
    }

    fn volume(&self, v: usize) -> Result<&[u8], Fault> {
        match self.volumes.get(v) {
            Some(bytes) => Ok(bytes.as_slice()),
            None => Err(Fault::NoVolume),
        }
    }

    /// Makes a volume these bytes.
    pub fn set_volume(&mut self, v: usize, bytes: Vec<u8>) -> Result<(), Fault> {
        if v >= self.volumes.len() {
            return Err(Fault::NoVolume);
        }
        if bytes.len() as u64 > self.room {
            return Err(Fault::VolumeFull);
        }
        self.volumes[v] = bytes;
        Ok(())
    }

    /// Writes these bytes over a volume's from a place on.
    pub fn patch(
        &mut self,
        alloc: Global,
        v: usize,
        offset: usize,
        bytes: &[u8],
    ) -> Result<(), Fault> {
        let next = patched(alloc, self.volume(v)?, offset, bytes)?;
        self.set_volume(v, next)
    }

    /// Leaves so many bytes of a volume.
    pub fn cut(&mut self, alloc: Global, v: usize, length: usize) -> Result<(), Fault> {
        let Some(front) = self.volume(v)?.get(..length) else {
            return Err(Fault::PastEnd);
        };
        let next = front.to_vec(alloc)?;
        self.set_volume(v, next)
    }

    /// The input comes in pieces of so many bytes.
    pub fn set_piece(&mut self, length: usize) -> Result<(), Fault> {
        if length == 0 {
            return Err(Fault::EmptyPiece);
        }
        self.piece = length;
        Ok(())
    }

    /// The next request has this header line.
    pub fn add_line(&mut self, line: &str) -> Result<(), AllocError> {
        if self.opens {
            self.opening.add_line(line)
        } else {
            self.input.add_line(line)
        }
    }

    /// The input goes on with what is asked so often.
    pub fn ask(&mut self, times: Times, asking: Asking<'_>) -> Result<(), AllocError> {
        if self.opens {
            self.opening.ask(times, asking)
        } else {
            self.input.ask(times, asking)
        }
    }

    // A world with what is set, and an input.
    fn world_with(&self, alloc: Global, input: &[u8]) -> Result<MemoryWorld, Fault> {
        let input = input.to_vec(alloc)?;
        let count = self.volumes.len() as u32;
        let mut world = MemoryWorld::new(alloc, count, self.room, input, Vec::new(alloc))?;
        world.piece(self.piece);
        self.plan.plan_in(&mut world);
        match place_all(alloc, &mut world, &self.volumes) {
            Ok(()) => Ok(world),
            Err(fault) => Err(fault),
        }
    }

    /// A world as it is set.
    pub fn world(&self, alloc: Global) -> Result<MemoryWorld, Fault> {
        self.world_with(alloc, &self.input.bytes)
    }

    /// What an image holds, with the input of the openings.
    pub fn open(&self, alloc: Global, image: &MemoryWorld) -> Result<MemoryWorld, Fault> {
        let left = Setup::left(alloc, image)?;
        left.world_with(alloc, &self.opening.bytes)
    }
}
