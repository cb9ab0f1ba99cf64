// What a volume holds from a place on.
ghost use Rattle.std.specs.Prelude.{◌≡◌, ◌≤◌, ◌<◌, ℕ, List, IsTrue, length, take, drop, IfOk, IfErr, vec_len};
ghost use Rattle.std.specs.Int.{to_be_bytes, w32};
ghost use Rattle.s3r_world.specs.Outside.{KeepsShape, NoneFalls, Looks};
ghost use Rattle.s3r_journal.specs.Scan.{Scans, GoesOn, HasCause};
ghost use Rattle.s3r_journal.specs.Pieces.{IsHeader, IsHead, IsBody, IsThere};
ghost use Rattle.s3r_journal.specs.Windows.{Shows, Covers};

use crate::window::Window;
use s3r_world::{VolumeFault, World};
use std::alloc::{AllocError, Global};

// Where the records begin.
const START: u64 = 16;

// The most bytes of a record.
const LONGEST: u32 = 16_777_216;

/// What a scan finds.
#[derive(Debug, PartialEq, Eq, Drop)]
pub enum Scanned {
    /// There is no header, or its gate is closed.
    Empty,
    /// The gate here is closed, and the history ends.
    End(u64),
    /// A record's bytes, and the place of the next gate.
    Record { bytes: Vec<u8>, next: u64 },
}

#[derive(Clone, Copy, Debug, PartialEq, Eq)]
pub enum ScanFault {
    Volume(u32),
    /// A volume, and the place of what is wrong in it.
    Damaged(u32, u64),
    OutOfMemory,
}

impl From<VolumeFault> for ScanFault {
    ghost use Rattle.s3r_journal.specs.declared.scanning.ScanFault.TheVariants.{Volume};

    ghost from_gives = { λ f e. e ≡ Volume f.0 };

    fn from(fault: VolumeFault) -> Self {
        ScanFault::Volume(fault.0)
    }
}

impl From<AllocError> for ScanFault {
    ghost use Rattle.s3r_journal.specs.declared.scanning.ScanFault.TheVariants.{OutOfMemory};

    ghost from_gives = { λ _ e. e ≡ OutOfMemory };

    fn from(_: AllocError) -> Self {
        ScanFault::OutOfMemory
    }
}

// What the first bytes of a volume are: no header yet, another's, or that of the region.
#[derive(Clone, Copy)]
enum Header {
    Missing,
    Wrong,
    Right,
}

// What a gate and the four bytes behind it are.
#[derive(Clone, Copy)]
enum Head {
    Closed,
    Cut,
    Open(u32),
}

// The header in the first bytes of a volume, or that there is none. Fewer than 16 are all.
fn header_in(front: &[u8], region: u8) -> Header
    requires { region ≤ 7 }
    ensures { (bytes : List ℕ) → Covers 16 front.now bytes → IsHeader region bytes result }
{
    if front.len() < 16 || front[0] != 1 {
        return Header::Missing;
    }
    let mut label = *b"S3RVOL\0\0\0\0\0\0\0\0";
    label[6] = b'0' + region;
    if front[1..15] == label[..] {
        Header::Right
    } else {
        Header::Wrong
    }
}

// The length behind a gate.
fn length_in(front: &[u8]) -> u32
    requires { 5 ≤ length front.now }
    ensures { to_be_bytes w32 result ≡ take 4 (drop 1 front.now) }
{
    u32::from_be_bytes([front[1], front[2], front[3], front[4]])
}

// The gate that bytes begin with, and the length behind an open one. Fewer than 5 are all.
fn head_in(front: &[u8]) -> Head
    ensures { (bytes : List ℕ) → Covers 5 front.now bytes → IsHead bytes result }
{
    if front.is_empty() {
        return Head::Cut;
    }
    if front[0] != 1 {
        return Head::Closed;
    }
    if front.len() < 5 {
        return Head::Cut;
    }
    Head::Open(length_in(front))
}

// The bytes of an open record of this length at a place.
fn body_at<W: World>(
    world: &mut W,
    alloc: Global,
    v: u32,
    at: u64,
    length: u32,
    window: &mut Window,
) -> Result<Scanned, ScanFault>
    requires volume { v < (W.shape world.old).volumes }
    requires shows { IsTrue W.tells → Shows v window.old (W.outside world.old) }
    ensures next { IfOk result (GoesOn at) }
    ensures body { IsTrue W.tells → IsBody at length (drop at ((W.outside world.old).as_read.volume v)) result }
    ensures shows { IsTrue W.tells → Shows v window.new (W.outside world.new) }
    ensures told { IsTrue W.tells → Looks (W.outside world.old) (W.outside world.new) }
    ensures fault { IfErr result (λ e. HasCause v e (W.faults world.old) (W.faults world.new)) }
    ensures counts { NoneFalls (W.faults world.old) (W.faults world.new) }
    ensures goes { W.goes world.old world.new }
    ensures shape { KeepsShape (W.shape world.old) (W.shape world.new) }
{
    if length > LONGEST {
        return Err(ScanFault::Damaged(v, at));
    }
    let whole = 5 + length as usize;
    window.reach(world, alloc, v, at, whole as u64)?;
    let front = window.bytes_from(at);
    if front.len() < whole {
        return Err(ScanFault::Damaged(v, at));
    }
    let bytes = Vec::from_slice(alloc, &front[5..whole])?;
    Ok(Scanned::Record {
        bytes,
        next: at + whole as u64,
    })
}

// The record at a place, or the end.
fn record_at<W: World>(
    world: &mut W,
    alloc: Global,
    v: u32,
    at: u64,
    window: &mut Window,
) -> Result<Scanned, ScanFault>
    requires volume { v < (W.shape world.old).volumes }
    requires shows { IsTrue W.tells → Shows v window.old (W.outside world.old) }
    ensures next { IfOk result (GoesOn at) }
    ensures found { IsTrue W.tells → IsThere at (drop at ((W.outside world.old).as_read.volume v)) result }
    ensures shows { IsTrue W.tells → Shows v window.new (W.outside world.new) }
    ensures told { IsTrue W.tells → Looks (W.outside world.old) (W.outside world.new) }
    ensures fault { IfErr result (λ e. HasCause v e (W.faults world.old) (W.faults world.new)) }
    ensures counts { NoneFalls (W.faults world.old) (W.faults world.new) }
    ensures goes { W.goes world.old world.new }
    ensures shape { KeepsShape (W.shape world.old) (W.shape world.new) }
{
    window.reach(world, alloc, v, at, 5)?;
    match head_in(window.bytes_from(at)) {
        Head::Closed => Ok(Scanned::End(at)),
        Head::Cut => Err(ScanFault::Damaged(v, at)),
        Head::Open(length) => body_at(world, alloc, v, at, length, window),
    }
}

/// What a volume holds from a place on: there is no header, the history ends, or the record there. Only where the
/// records begin, at 16, it reads the header. It reads a piece of the volume where the window hasn't the bytes.
pub fn scan_in<W: World>(
    world: &mut W,
    alloc: Global,
    v: u32,
    region: u8,
    from: u64,
    window: &mut Window,
) -> Result<Scanned, ScanFault>
    requires volume { v < (W.shape world.old).volumes }
    requires region { region ≤ 7 }
    requires shows { IsTrue W.tells → Shows v window.old (W.outside world.old) }
    ensures next { IfOk result (GoesOn from) }
    ensures told { IsTrue W.tells → Scans v region from result (W.outside world.old) (W.outside world.new) }
    ensures shows { IsTrue W.tells → Shows v window.new (W.outside world.new) }
    ensures fault { IfErr result (λ e. HasCause v e (W.faults world.old) (W.faults world.new)) }
    ensures counts { NoneFalls (W.faults world.old) (W.faults world.new) }
    ensures goes { W.goes world.old world.new }
    ensures shape { KeepsShape (W.shape world.old) (W.shape world.new) }
{
    if from != START {
        return record_at(world, alloc, v, from, window);
    }
    window.reach(world, alloc, v, 0, START)?;
    match header_in(window.bytes_from(0), region) {
        Header::Missing => Ok(Scanned::Empty),
        Header::Wrong => Err(ScanFault::Damaged(v, 1)),
        Header::Right => record_at(world, alloc, v, from, window),
    }
}

/// After a sync, what a volume holds from a place on: there is no header, the history ends, or the record there.
/// Only where the records begin, at 16, it reads the header.
pub fn scan<W: World>(
    world: &mut W,
    alloc: Global,
    v: u32,
    region: u8,
    from: u64,
) -> Result<Scanned, ScanFault>
    requires volume { v < (W.shape world.old).volumes }
    requires region { region ≤ 7 }
    ensures next { IfOk result (GoesOn from) }
    ensures told { IsTrue W.tells → Scans v region from result (W.outside world.old) (W.outside world.new) }
    ensures fault { IfErr result (λ e. HasCause v e (W.faults world.old) (W.faults world.new)) }
    ensures counts { NoneFalls (W.faults world.old) (W.faults world.new) }
    ensures goes { W.goes world.old world.new }
    ensures shape { KeepsShape (W.shape world.old) (W.shape world.new) }
{
    let mut window = Window::open(alloc, world, v)?;
    scan_in(world, alloc, v, region, from, &mut window)
}
