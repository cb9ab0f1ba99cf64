//! Volumes and an output in memory, with all that was done to them.
ghost use Rattle.std.specs.Prelude.{◌≡◌, ◌≢◌, ℕ, ◌+◌, ◌<◌, ◌≤◌, ◌^◌, min, List, [], ◌∷◌, ◌++◌, length, take, drop, reverse, slice_set, true, false, vec_len, IfOk, OnOk, OnErr, Vec};
ghost use Rattle.std.specs.declared.alloc.Global.{Global};
ghost use Rattle.s3r_world.specs.declared.disk.Event.TheVariants.{Placed, Wrote, Synced, Put};
ghost use Rattle.s3r_world.specs.Events.{bytes_of, reads_of, written, left_of, picked, AgreesBelow, IsSettled};

use crate::replay::{Pick, Replay};
use std::alloc::{AllocError, Global};

/// What was done to the volumes and the output of a world in memory.
#[derive(Drop)]
pub enum Event {
    /// A volume was made these bytes, stable.
    Placed(u32, Vec<u8>),
    /// Bytes were written to a volume from a place on, or that write failed where it is false.
    Wrote(u32, u64, Vec<u8>, bool),
    /// What reads gave of a volume was made stable.
    Synced(u32),
    /// Bytes were put out.
    Put(Vec<u8>),
}

/// The volumes and the output as they are, and what was done to them, the oldest first.
#[derive(Drop)]
pub struct Disk {
    pub alloc: Global,
    pub volumes: Vec<Vec<u8>>,
    pub output: Vec<u8>,
    pub events: Vec<Event>,
    pub ghost kept: { (v : ℕ) → v < vec_len volumes → bytes_of volumes.items v ≡ (reads_of (reverse events.items)).volume v },
    pub ghost put: { output.items ≡ (reads_of (reverse events.items)).output },
}

fn bytes_at(volumes: &[Vec<u8>], v: u32) -> &[u8]
    requires { v < length volumes.now }
    ensures { result.now ≡ bytes_of volumes.now v }
{
    volumes[v as usize].as_slice()
}

fn replace_at(volumes: &mut [Vec<u8>], v: u32, bytes: Vec<u8>)
    requires { v < length volumes.old }
    ensures { volumes.new ≡ slice_set volumes.old v bytes }
{
    volumes[v as usize] = bytes;
}

/// The bytes after a write that begins at most at their end.
pub(crate) fn overwritten(
    alloc: Global,
    old: &[u8],
    at: usize,
    bytes: &[u8],
) -> Result<Vec<u8>, AllocError>
    requires { at ≤ length old.now }
    ensures { IfOk result (λ next. next.items ≡ take at old.now ++ bytes.now ++ drop (at + length bytes.now) old.now) }
{
    let mut next = old[..at].to_vec(alloc)?;
    next.extend_from_slice(bytes)?;
    if bytes.len() < old.len() - at {
        next.extend_from_slice(&old[at + bytes.len()..])?;
    }
    Ok(next)
}

/// Fills the front of a buffer.
pub fn fill(into: &mut [u8], from: &[u8]) -> usize
    ensures count { result ≡ min (length into.old) (length from.now) }
    ensures bytes { into.new ≡ take result from.now ++ drop result into.old }
{
    let n = into.len().min(from.len());
    into[..n].copy_from_slice(&from[..n]);
    n
}

impl Disk {
    /// So many volumes of no bytes.
    pub fn new(alloc: Global, volumes: u32) -> Result<Disk, AllocError>
        ensures volumes { IfOk result (λ d. vec_len d.volumes ≡ volumes) }
        ensures events { IfOk result (λ d. d.events.items ≡ []) }
    {
        let mut empty = Vec::new(alloc);
        for _ in 0..volumes {
            empty.push(Vec::new(alloc))?;
        }
        Ok(Disk {
            alloc,
            volumes: empty,
            output: Vec::new(alloc),
            events: Vec::new(alloc),
        })
    }

    /// What reads give of a volume.
    pub fn bytes(&self, v: u32) -> &[u8]
        requires { v < vec_len self.now.volumes }
        ensures { result.now ≡ (reads_of (reverse self.now.events.items)).volume v }
    {
        bytes_at(&self.volumes, v)
    }

    /// Makes a volume these bytes, stable.
    pub fn place(&mut self, v: u32, bytes: Vec<u8>) -> Result<(), AllocError>
        requires { v < vec_len self.old.volumes }
        ensures ok { OnOk result ((b : Vec ℕ Global) × (b.items ≡ bytes.items) × (reverse self.new.events.items ≡ Placed v b ∷ reverse self.old.events.items)) }
        ensures err { OnErr result (self.new.events.items ≡ self.old.events.items) }
        ensures volumes { vec_len self.new.volumes ≡ vec_len self.old.volumes }
    {
        let copy = bytes.to_vec(self.alloc)?;
        self.events.push(Event::Placed(v, copy))?;
        self.volumes[v as usize] = bytes;
        Ok(())
    }

    /// Writes bytes to a volume, at most at its end.
    pub fn write(&mut self, v: u32, at: u64, bytes: &[u8]) -> Result<(), AllocError>
        requires volume { v < vec_len self.old.volumes }
        requires place { at ≤ length ((reads_of (reverse self.old.events.items)).volume v) }
        ensures ok { OnOk result ((b : Vec ℕ Global) × (b.items ≡ bytes.now)
            × (reverse self.new.events.items ≡ Wrote v at b true ∷ reverse self.old.events.items)) }
        ensures err { OnErr result (self.new.events.items ≡ self.old.events.items) }
        ensures volumes { vec_len self.new.volumes ≡ vec_len self.old.volumes }
    {
        let next = overwritten(self.alloc, bytes_at(&self.volumes, v), at as usize, bytes)?;
        let copy = bytes.to_vec(self.alloc)?;
        self.events.push(Event::Wrote(v, at, copy, true))?;
        self.volumes[v as usize] = next;
        Ok(())
    }

    /// A write that failed: nothing is changed, but a crash may leave any bytes in the range.
    pub fn fail_write(&mut self, v: u32, at: u64, bytes: &[u8]) -> Result<(), AllocError>
        ensures ok { OnOk result ((b : Vec ℕ Global) × (b.items ≡ bytes.now)
            × (reverse self.new.events.items ≡ Wrote v at b false ∷ reverse self.old.events.items)) }
        ensures err { OnErr result (self.new.events.items ≡ self.old.events.items) }
        ensures volumes { vec_len self.new.volumes ≡ vec_len self.old.volumes }
    {
        let copy = bytes.to_vec(self.alloc)?;
        self.events.push(Event::Wrote(v, at, copy, false))?;
        Ok(())
    }

    /// Makes stable what reads give of a volume.
    pub fn sync(&mut self, v: u32) -> Result<(), AllocError>
        ensures ok { OnOk result (reverse self.new.events.items ≡ Synced v ∷ reverse self.old.events.items) }
        ensures err { OnErr result (self.new.events.items ≡ self.old.events.items) }
        ensures volumes { vec_len self.new.volumes ≡ vec_len self.old.volumes }
    {
        self.events.push(Event::Synced(v))?;
        Ok(())
    }

    /// Appends bytes to the output.
    pub fn put(&mut self, bytes: &[u8]) -> Result<(), AllocError>
        ensures ok { OnOk result ((b : Vec ℕ Global) × (b.items ≡ bytes.now) × (reverse self.new.events.items ≡ Put b ∷ reverse self.old.events.items)) }
        ensures err { OnErr result (self.new.events.items ≡ self.old.events.items) }
        ensures volumes { vec_len self.new.volumes ≡ vec_len self.old.volumes }
    {
        let copy = bytes.to_vec(self.alloc)?;
        self.output.try_reserve(bytes.len())?;
        self.events.push(Event::Put(copy))?;
        self.output.extend_from_slice(bytes)?;
        Ok(())
    }
}

impl Disk {
    /// What a pick leaves of a volume.
    fn left(&self, alloc: Global, pick: Pick, v: u32) -> Result<Vec<u8>, AllocError>
        ensures { IfOk result (λ b. b.items ≡ left_of pick (reverse self.now.events.items) v) }
    {
        let mut replay = Replay::new(alloc);
        for event in &self.events {
            replay.follow(v, pick, event)?;
        }
        Ok(replay.left)
    }

    /// The disk that a pick leaves, all of it stable.
    pub fn image(&self, alloc: Global, pick: Pick) -> Result<Disk, AllocError>
        requires { vec_len self.now.volumes < 2 ^ 32 }
        ensures volumes { IfOk result (λ d. vec_len d.volumes ≡ vec_len self.now.volumes) }
        ensures picked { IfOk result (λ d. AgreesBelow (vec_len self.now.volumes) (reads_of (reverse d.events.items))
            (picked pick (reverse self.now.events.items))) }
        ensures stable { IfOk result (λ d. IsSettled (reverse d.events.items)) }
    {
        let count = self.volumes.len() as u32;
        let mut disk = Disk::new(alloc, count)?;
        disk.put(&self.output)?;
        for v in 0..count {
            let bytes = self.left(alloc, pick, v)?;
            disk.place(v, bytes)?;
        }
        Ok(disk)
    }
}
