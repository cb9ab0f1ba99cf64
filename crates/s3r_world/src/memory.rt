//! A world in memory, which tells all that it holds.
ghost use Rattle.std.specs.Prelude.{◌≡◌, ◌↔◌, ℕ, ◌+◌, ◌-◌, ◌<◌, ◌≤◌, ◌^◌, min, List, [], ◌∷◌, ◌++◌, length, take, drop, map, reverse, slice_index, true, false, vec_len, is_ok, IfOk, OnOk, OnErr, MatchBool, IsTrue, not, Vec};
ghost use Rattle.std.specs.declared.alloc.Global.{Global};

use crate::counters::{Counters, count_one};
use crate::disk::{Disk, fill};
use crate::plan::FaultPlan;
use crate::replay::Pick;
use crate::world::{DoorFault, InputFault, OutputFault, Side, VolumeFault, World};
use std::alloc::{AllocError, AllocFailed, Global};

// The current input, of which so many bytes have been taken, and the connections still to come.
#[derive(Drop)]
struct Lines {
    input: Vec<u8>,
    taken: usize,
    piece: usize,
    connections: Vec<Vec<u8>>,
    ghost within: { taken ≤ vec_len input },
    ghost moves: { 0 < piece },
}

impl Lines {
    // Puts the next bytes of the input into the front of a buffer.
    fn take(&mut self, into: &mut [u8]) -> usize
        requires { 0 < length into.old }
        ensures over { (result ≡ 0) ↔ (drop self.old.taken self.old.input.items ≡ []) }
        ensures count { result ≤ length into.old }
        ensures left { result ≤ length (drop self.old.taken self.old.input.items) }
        ensures most { result ≤ self.old.piece }
        ensures bytes { into.new ≡ take result (drop self.old.taken self.old.input.items) ++ drop result into.old }
        ensures after { drop self.new.taken self.new.input.items ≡ drop result (drop self.old.taken self.old.input.items) }
        ensures connections { self.new.connections ≡ self.old.connections }
        ensures piece { self.new.piece ≡ self.old.piece }
    {
        let left = &self.input[self.taken..];
        let most = left.len().min(self.piece);
        let count = fill(into, &left[..most]);
        self.taken += count;
        count
    }

    // Goes on to the next connection's input, where there is one.
    fn next(&mut self) -> bool
        ensures come { MatchBool result (map (λ (v : Vec ℕ Global). v.items) self.old.connections.items ≡ drop self.new.taken self.new.input.items ∷ map
            (λ (v : Vec ℕ Global). v.items) self.new.connections.items) (self.new ≡ self.old) }
        ensures none { IsTrue (not result) → map (λ (v : Vec ℕ Global). v.items) self.old.connections.items ≡ [] }
        ensures piece { self.new.piece ≡ self.old.piece }
    {
        if self.connections.is_empty() {
            return false;
        }
        self.input = self.connections.remove(0);
        self.taken = 0;
        true
    }
}

/// Volumes, an input and an output in memory. It tells all that it holds, and keeps a record of all that was done
/// to it. A call fails where that was planned, and besides only where its record or its bytes find no memory.
#[derive(Drop)]
pub struct MemoryWorld {
    room: u64,
    disk: Disk,
    lines: Lines,
    counts: Counters,
    plan: FaultPlan,
    starved: u64,
    ghost small: { room ≤ 268435456 },
    ghost few: { vec_len disk.volumes ≤ 8 },
    ghost counted: { vec_len counts.volumes ≡ vec_len disk.volumes },
}

// The clauses of a method repeat the trait's, which those of an `impl` replace, and add by `plays` when it fails.
impl World for MemoryWorld {
    ghost use Rattle.s3r_world.specs.Stories as laws;
    ghost use Rattle.s3r_world.specs.Memory.{shape_of, faults_of, outside_of, story_of, piece_of, Plays};
    ghost use Rattle.s3r_world.specs.Outside.{KeepsShape, Looks, Writes, Syncs, Emits, Takes, Connects, VolumeCause, InputCause, OutputCause, DoorCause};
    ghost use Rattle.s3r_world.specs.Quiet.{StaysQuiet, quiet_none, quiet_then};

    ghost tells = { true };

    ghost shape = { shape_of };

    ghost faults = { faults_of };

    ghost outside = { outside_of };

    ghost goes = { StaysQuiet };

    ghost goes_none = { quiet_none };

    ghost goes_then = { quiet_then };

    ghost one_image = { λ w told. laws.one_image (story_of w) };

    ghost output_kept = { λ w c now. laws.output_kept (story_of w) c now };

    ghost counts_now = { λ w t c le now. laws.counts_now (story_of w) t c now };

    ghost only_now = { λ w c left. laws.only_now (story_of w) c left };

    fn volumes(&self) -> u32 {
        self.disk.volumes.len() as u32
    }

    fn room(&self, _v: u32) -> u64 {
        self.room
    }

    fn size(&mut self, v: u32) -> Result<u64, VolumeFault>
        requires { v < (shape_of self.old).volumes }
        ensures size { IfOk result (λ n. n ≡ length ((outside_of self.old).as_read.volume v)) }
        ensures told { Looks (outside_of self.old) (outside_of self.new) }
        ensures goes { StaysQuiet self.old self.new }
        ensures shape { KeepsShape (shape_of self.old) (shape_of self.new) }
        ensures cause { VolumeCause v result (faults_of self.old) (faults_of self.new) }
        ensures plays { Plays (Side.Volume v) result self.old self.new }
    {
        if self.plan.fails(Side::Volume(v)) {
            return Err(self.counts.volume_failed(v));
        }
        Ok(self.disk.bytes(v).len() as u64)
    }

    fn read(&mut self, v: u32, at: u64, into: &mut [u8]) -> Result<usize, VolumeFault>
        requires { v < (shape_of self.old).volumes }
        ensures count { IfOk result (λ k. k ≡ min (length into.old) (length ((outside_of self.old).as_read.volume v) - at)) }
        ensures within { IfOk result (λ k. k ≤ length into.old) }
        ensures bytes { IfOk result (λ k. into.new ≡ take k (drop at ((outside_of self.old).as_read.volume v)) ++ drop k into.old) }
        ensures told { Looks (outside_of self.old) (outside_of self.new) }
        ensures goes { StaysQuiet self.old self.new }
        ensures shape { KeepsShape (shape_of self.old) (shape_of self.new) }
        ensures cause { VolumeCause v result (faults_of self.old) (faults_of self.new) }
        ensures plays { Plays (Side.Volume v) result self.old self.new }
    {
        if self.plan.fails(Side::Volume(v)) {
            return Err(self.counts.volume_failed(v));
        }
        let bytes = self.disk.bytes(v);
        let from = (at as usize).min(bytes.len());
        Ok(fill(into, &bytes[from..]))
    }

    fn write_at(&mut self, v: u32, at: u64, bytes: &[u8]) -> Result<(), VolumeFault>
        requires volume { v < (shape_of self.old).volumes }
        requires place { at ≤ length ((outside_of self.old).as_read.volume v) }
        requires fits { at + length bytes.now ≤ (shape_of self.old).room v }
        ensures told { Writes v at bytes.now (is_ok result) (outside_of self.old) (outside_of self.new) }
        ensures goes { StaysQuiet self.old self.new }
        ensures shape { KeepsShape (shape_of self.old) (shape_of self.new) }
        ensures cause { VolumeCause v result (faults_of self.old) (faults_of self.new) }
        ensures plays { Plays (Side.Volume v) result self.old self.new }
    {
        if self.plan.fails(Side::Volume(v)) {
            if self.disk.fail_write(v, at, bytes).is_err() {
                count_one(&mut self.starved);
            }
            return Err(self.counts.volume_failed(v));
        }
        match self.disk.write(v, at, bytes) {
            Ok(()) => Ok(()),
            Err(_) => {
                count_one(&mut self.starved);
                Err(self.counts.volume_failed(v))
            }
        }
    }

    fn sync(&mut self, v: u32) -> Result<(), VolumeFault>
        requires { v < (shape_of self.old).volumes }
        ensures told { Syncs v (is_ok result) (outside_of self.old) (outside_of self.new) }
        ensures goes { StaysQuiet self.old self.new }
        ensures shape { KeepsShape (shape_of self.old) (shape_of self.new) }
        ensures cause { VolumeCause v result (faults_of self.old) (faults_of self.new) }
        ensures plays { Plays (Side.Volume v) result self.old self.new }
    {
        if self.plan.fails(Side::Volume(v)) {
            return Err(self.counts.volume_failed(v));
        }
        match self.disk.sync(v) {
            Ok(()) => Ok(()),
            Err(_) => {
                count_one(&mut self.starved);
                Err(self.counts.volume_failed(v))
            }
        }
    }

    fn take(&mut self, into: &mut [u8]) -> Result<usize, InputFault>
        requires { 0 < length into.old }
        ensures within { IfOk result (λ k. k ≤ length into.old) }
        ensures piece { IfOk result (λ k. k ≤ piece_of self.old) }
        ensures told { Takes into.old into.new result (outside_of self.old) (outside_of self.new) }
        ensures goes { StaysQuiet self.old self.new }
        ensures shape { KeepsShape (shape_of self.old) (shape_of self.new) }
        ensures cause { InputCause result (faults_of self.old) (faults_of self.new) }
        ensures plays { Plays Side.Input result self.old self.new }
    {
        if self.plan.fails(Side::Input) {
            count_one(&mut self.counts.input);
            return Err(InputFault);
        }
        Ok(self.lines.take(into))
    }

    fn emit(&mut self, bytes: &[u8]) -> Result<usize, OutputFault>
        requires { 0 < length bytes.now }
        ensures some { IfOk result (λ k. 0 < k) }
        ensures within { IfOk result (λ k. k ≤ length bytes.now) }
        ensures told { Emits bytes.now result (outside_of self.old) (outside_of self.new) }
        ensures goes { StaysQuiet self.old self.new }
        ensures shape { KeepsShape (shape_of self.old) (shape_of self.new) }
        ensures cause { OutputCause result (faults_of self.old) (faults_of self.new) }
        ensures plays { Plays Side.Output result self.old self.new }
    {
        if self.plan.fails(Side::Output) {
            count_one(&mut self.counts.output);
            return Err(OutputFault);
        }
        match self.disk.put(bytes) {
            Ok(()) => Ok(bytes.len()),
            Err(_) => {
                count_one(&mut self.starved);
                count_one(&mut self.counts.output);
                Err(OutputFault)
            }
        }
    }

    fn next_connection(&mut self) -> Result<bool, DoorFault>
        ensures told { Connects result (outside_of self.old) (outside_of self.new) }
        ensures goes { StaysQuiet self.old self.new }
        ensures shape { KeepsShape (shape_of self.old) (shape_of self.new) }
        ensures cause { DoorCause result (faults_of self.old) (faults_of self.new) }
        ensures plays { Plays Side.Door result self.old self.new }
    {
        if self.plan.fails(Side::Door) {
            count_one(&mut self.counts.door);
            return Err(DoorFault);
        }
        Ok(self.lines.next())
    }
}

/// An allocation failed.
#[derive(Clone, Copy, Debug, PartialEq, Eq)]
pub struct OutOfMemory;

impl From<AllocError> for OutOfMemory {
    ghost from_gives = { λ _ e. e ≡ record {} };

    fn from(_: AllocError) -> Self {
        OutOfMemory
    }
}

impl<T: Drop> From<AllocFailed<T>> for OutOfMemory {
    ghost from_gives = { λ _ e. e ≡ record {} };

    fn from(_: AllocFailed<T>) -> Self {
        OutOfMemory
    }
}

/// So many counts, each 0.
pub(crate) fn zeros(alloc: Global, count: u32) -> Result<Vec<u64>, AllocError>
    ensures count { IfOk result (λ v. vec_len v ≡ count) }
    ensures zero { IfOk result (λ v. (k : ℕ) → slice_index v.items k ≡ 0) }
{
    vec![in alloc; 0; count as usize]
}

impl MemoryWorld {
    ghost use Rattle.s3r_world.specs.Image.{Image};
    ghost use Rattle.s3r_world.specs.Outside.{count_of};
    ghost use Rattle.s3r_world.specs.Events.{picked};
    ghost use Rattle.s3r_world.specs.Planned.{with_next, with_stop, with_one};
    ghost use Rattle.s3r_world.specs.Memory.{shape_of, outside_of, story_of, input_of, connections_of, plan_of, faults_of, calls_of, starved_of, piece_of, IsNew, HoldsOnly, KeepsRest, Places, with_plan};

    // A world in which nothing has happened yet.
    fn over(
        alloc: Global,
        disk: Disk,
        room: u64,
        input: Vec<u8>,
        connections: Vec<Vec<u8>>,
    ) -> Result<MemoryWorld, OutOfMemory>
        requires few { vec_len disk.volumes ≤ 8 }
        requires small { room ≤ 268435456 }
        ensures new { IfOk result IsNew }
        ensures room { IfOk result (λ w. w.room ≡ room) }
        ensures disk { IfOk result (λ w. w.disk ≡ disk) }
        ensures input { IfOk result (λ w. input_of w ≡ input.items) }
        ensures connections { IfOk result (λ w. connections_of w ≡ map (λ (v : Vec ℕ Global). v.items) connections.items) }
    {
        let counts = Counters {
            volumes: zeros(alloc, disk.volumes.len() as u32)?,
            input: 0,
            output: 0,
            door: 0,
        };
        let lines = Lines {
            input,
            taken: 0,
            piece: usize::MAX,
            connections,
        };
        Ok(MemoryWorld {
            room,
            disk,
            lines,
            counts,
            plan: FaultPlan::nothing(),
            starved: 0,
        })
    }

    /// So many volumes of 0 bytes, each with room for so many, an input, and the inputs of the connections to come.
    /// The output is empty, no failure is planned, and none has happened.
    ///
    /// It fails only where there is no memory.
    pub fn new(
        alloc: Global,
        volumes: u32,
        room: u64,
        input: Vec<u8>,
        connections: Vec<Vec<u8>>,
    ) -> Result<MemoryWorld, OutOfMemory>
        requires few { volumes ≤ 8 }
        requires small { room ≤ 268435456 }
        ensures new { IfOk result IsNew }
        ensures volumes { IfOk result (λ w. (shape_of w).volumes ≡ volumes) }
        ensures room { IfOk result (λ w. (v : ℕ) → (shape_of w).room v ≡ room) }
        ensures empty { IfOk result (λ w. story_of w ≡ []) }
        ensures input { IfOk result (λ w. input_of w ≡ input.items) }
        ensures connections { IfOk result (λ w. connections_of w ≡ map (λ (v : Vec ℕ Global). v.items) connections.items) }
    {
        let disk = Disk::new(alloc, volumes)?;
        MemoryWorld::over(alloc, disk, room, input, connections)
    }

    /// Makes a volume these bytes, stable. It is no call of the trait, and uses up no planned failure.
    ///
    /// It fails only where there is no memory, and then the volume is what it was.
    pub fn with_volume(&mut self, v: u32, bytes: Vec<u8>) -> Result<(), OutOfMemory>
        requires volume { v < (shape_of self.old).volumes }
        requires fits { vec_len bytes ≤ (shape_of self.old).room v }
        ensures ok { OnOk result (Places v bytes.items (outside_of self.old) (outside_of self.new)) }
        ensures err { OnErr result (story_of self.new ≡ story_of self.old) }
        ensures piece { piece_of self.new ≡ piece_of self.old }
        ensures rest { KeepsRest self.old self.new }
    {
        self.disk.place(v, bytes)?;
        Ok(())
    }

    /// Plans that the next `count` calls of a side fail, in place of what was planned for its next calls. A failed
    /// write may leave any bytes in its range at a crash. For a volume that there isn't, nothing is planned.
    pub fn fail_next(&mut self, side: Side, count: u32)
        ensures { self.new ≡ with_plan (with_next side count (plan_of self.old)) self.old }
    {
        self.plan.fail_next(side, count);
    }

    /// Plans that every call after that number of calls fails, counted as by `calls`.
    pub fn stop_after(&mut self, call: u64)
        ensures { self.new ≡ with_plan (with_stop call (plan_of self.old)) self.old }
    {
        self.plan.stop = Some(call);
    }

    /// Plans that the one call with this number fails, counted as by `calls` from 1. It takes the place of an
    /// earlier one.
    pub fn fail_at(&mut self, call: u64)
        ensures { self.new ≡ with_plan (with_one call (plan_of self.old)) self.old }
    {
        self.plan.once = Some(call);
    }

    /// From now on `take` gives at most so many bytes.
    pub fn piece(&mut self, n: usize)
        requires { 0 < n }
        ensures piece { piece_of self.new ≡ n }
        ensures story { story_of self.new ≡ story_of self.old }
        ensures rest { KeepsRest self.old self.new }
    {
        self.lines.piece = n;
    }

    /// The bytes of a volume, as a read gives them. It is no call of the trait.
    pub fn volume(&self, v: u32) -> &[u8]
        requires { v < (shape_of self.now).volumes }
        ensures { result.now ≡ (outside_of self.now).as_read.volume v }
    {
        self.disk.bytes(v)
    }

    /// All bytes that were put out.
    pub fn output(&self) -> &[u8]
        ensures { result.now ≡ (outside_of self.now).as_read.output }
    {
        &self.disk.output
    }

    /// How many calls of the trait there were since the world was made, but for `volumes` and `room`. It stays at
    /// 2^64 - 1.
    pub fn calls(&self) -> u64
        ensures { result ≡ calls_of self.now }
    {
        self.plan.calls
    }

    /// How often a call of the trait found no memory since the world was made. It stays at 2^64 - 1.
    pub fn starved(&self) -> u64
        ensures { result ≡ starved_of self.now }
    {
        self.starved
    }

    /// How often a side has failed since the world was made, 0 for a volume that there isn't. It stays at 2^64 - 1.
    pub fn fault_count(&self, side: Side) -> u64
        ensures { result ≡ count_of side (faults_of self.now) }
    {
        match side {
            Side::Volume(v) => self.counts.of_volume(v),
            Side::Input => self.counts.input,
            Side::Output => self.counts.output,
            Side::Door => self.counts.door,
        }
    }

    /// A world that holds one of the images of this one, all of it stable: its volumes and the output so far. It has
    /// no input and no connections, no failure is planned in it, and none has happened.
    ///
    /// It fails only where there is no memory.
    pub fn image(&self, alloc: Global, pick: Pick) -> Result<MemoryWorld, OutOfMemory>
        ensures one { (outside_of self.now).images (picked pick (story_of self.now)) }
        ensures holds { IfOk result (HoldsOnly (picked pick (story_of self.now))) }
        ensures new { IfOk result IsNew }
        ensures volumes { IfOk result (λ w. (shape_of w).volumes ≡ (shape_of self.now).volumes) }
        ensures room { IfOk result (λ w. (v : ℕ) → (shape_of w).room v ≡ (shape_of self.now).room v) }
        ensures input { IfOk result (λ w. input_of w ≡ []) }
        ensures connections { IfOk result (λ w. connections_of w ≡ []) }
    {
        let disk = self.disk.image(alloc, pick)?;
        let room = self.room;
        MemoryWorld::over(alloc, disk, room, Vec::new(alloc), Vec::new(alloc))
    }
}
