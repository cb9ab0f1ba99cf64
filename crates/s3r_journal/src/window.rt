// A volume that is read in large pieces.
ghost use Rattle.std.specs.Prelude.{◌≡◌, ◌+◌, ◌≤◌, ◌<◌, ◌^◌, length, IsTrue, false, IfOk, IfErr, OnOk, take, drop, vec_len};
ghost use Rattle.s3r_world.specs.Outside.{KeepsShape, NoneFalls, Looks};
ghost use Rattle.s3r_journal.specs.Scan.{HasFailed};

use crate::scanning::ScanFault;
use s3r_world::World;
use std::alloc::Global;

// So many bytes are read at a time, where no more are asked for.
const PIECE: u64 = 262_144;

/// A piece of a volume that was read, and the volume's size. It shows the volume for as long as that isn't written.
#[derive(Drop)]
pub struct Window {
    // The place of the first byte.
    at: u64,
    bytes: Vec<u8>,
    size: u64,
    ghost within: { at + vec_len bytes ≤ size },
    ghost fits: { size < 2 ^ 64 },
}

// So many bytes of a volume from a place on, or those up to its end.
fn piece_of<W: World>(
    world: &mut W,
    alloc: Global,
    v: u32,
    at: u64,
    length: u64,
) -> Result<Vec<u8>, ScanFault>
    requires { v < (W.shape world.old).volumes }
    ensures within { IfOk result (λ bytes. vec_len bytes ≤ length) }
    ensures bytes { IsTrue W.tells → IfOk result (λ bytes. bytes.items ≡ take length (drop at ((W.outside world.old).as_read.volume v))) }
    ensures told { IsTrue W.tells → Looks (W.outside world.old) (W.outside world.new) }
    ensures fault { IfErr result (λ e. HasFailed v e (W.faults world.old) (W.faults world.new)) }
    ensures counts { NoneFalls (W.faults world.old) (W.faults world.new) }
    ensures goes { W.goes world.old world.new }
    ensures shape { KeepsShape (W.shape world.old) (W.shape world.new) }
{
    let mut bytes = vec![in alloc; 0; length as usize]?;
    let count = world.read(v, at, bytes.as_mut_slice())?;
    bytes.truncate(count);
    Ok(bytes)
}

impl Window {
    ghost use Rattle.s3r_journal.specs.Windows.{Shows, Covers, Has, front_at};

    /// Makes a volume stable, and asks for its size. Nothing of it is read yet.
    pub fn open<W: World>(alloc: Global, world: &mut W, v: u32) -> Result<Window, ScanFault>
        requires { v < (W.shape world.old).volumes }
        ensures shows { IsTrue W.tells → IfOk result (λ window. Shows v window (W.outside world.new)) }
        ensures told { IsTrue W.tells → Looks (W.outside world.old) (W.outside world.new) }
        ensures fault { IfErr result (λ e. HasFailed v e (W.faults world.old) (W.faults world.new)) }
        ensures counts { NoneFalls (W.faults world.old) (W.faults world.new) }
        ensures goes { W.goes world.old world.new }
        ensures shape { KeepsShape (W.shape world.old) (W.shape world.new) }
    {
        world.sync(v)?;
        let size = world.size(v)?;
        Ok(Window {
            at: 0,
            bytes: Vec::new(alloc),
            size,
        })
    }

    // Whether it has so many bytes from a place on, or all of the volume's from there.
    fn has(&self, at: u64, count: u64) -> bool
        ensures has { IsTrue result → Has at count self.now }
        ensures within { result ≡ false → at < self.now.size }
    {
        let end = self.at + self.bytes.len() as u64;
        let begins = self.at <= at;
        at >= self.size || begins && (end == self.size || at <= end && count <= end - at)
    }

    // Reads the piece from a place on, where it hasn't so many bytes from there, nor all up to the volume's end.
    pub(crate) fn reach<W: World>(
        &mut self,
        world: &mut W,
        alloc: Global,
        v: u32,
        at: u64,
        count: u64,
    ) -> Result<(), ScanFault>
        requires volume { v < (W.shape world.old).volumes }
        requires shows { IsTrue W.tells → Shows v self.old (W.outside world.old) }
        ensures begins { OnOk result (self.new.at ≤ at) }
        ensures covers { IsTrue W.tells → OnOk result (Covers count (front_at self.new at) (drop at ((W.outside world.new).as_read.volume v))) }
        ensures shows { IsTrue W.tells → Shows v self.new (W.outside world.new) }
        ensures told { IsTrue W.tells → Looks (W.outside world.old) (W.outside world.new) }
        ensures fault { IfErr result (λ e. HasFailed v e (W.faults world.old) (W.faults world.new)) }
        ensures counts { NoneFalls (W.faults world.old) (W.faults world.new) }
        ensures goes { W.goes world.old world.new }
        ensures shape { KeepsShape (W.shape world.old) (W.shape world.new) }
    {
        if self.has(at, count) {
            return Ok(());
        }
        let length = count.max(PIECE).min(self.size - at);
        let bytes = piece_of(world, alloc, v, at, length)?;
        *self = Window {
            at,
            bytes,
            size: self.size,
        };
        Ok(())
    }

    // What it has from a place on.
    pub(crate) fn bytes_from(&self, at: u64) -> &[u8]
        requires { self.now.at ≤ at }
        ensures front { result.now ≡ front_at self.now at }
        ensures fits { at + length result.now < 2 ^ 64 }
    {
        let offset = self.bytes.len().min((at - self.at) as usize);
        &self.bytes.as_slice()[offset..]
    }
}
