// The bytes of a connection that were taken and belong to no request yet.
ghost use Rattle.std.specs.Prelude.{◌≡◌, ℕ, ◌+◌, ◌<◌, ◌≤◌, true, false, IsTrue, [], ◌++◌, length, take, drop, vec_len, IfOk, OnErr, IsErrOf, OnOk};
ghost use Rattle.s3r_world.specs.declared.world.Side.TheVariants as side;
ghost use Rattle.s3r_world.specs.Outside.{KeepsShape, NoneFalls, Rises};
ghost use Rattle.s3r_http.specs.Input.{ReadsOn};

use s3r_world::{InputFault, World};
use std::alloc::{AllocError, Global};
use std::marker::Model;

// How many bytes are asked for at once.
const PIECE: usize = 65_536;

/// Why no more of the input came.
#[derive(Clone, Copy, Debug, PartialEq, Eq)]
pub(crate) enum ReadFault {
    Input,
    OutOfMemory,
}

impl From<AllocError> for ReadFault {
    ghost use Rattle.s3r_http.specs.declared.buffer.ReadFault.TheVariants.{OutOfMemory};

    ghost from_gives = { λ _ e. e ≡ OutOfMemory };

    fn from(_: AllocError) -> Self {
        ReadFault::OutOfMemory
    }
}

/// The bytes of a connection that were taken and belong to no request yet, seen as their list.
#[derive(Drop)]
pub struct Buffer {
    bytes: Vec<u8>,
    start: usize,
}

impl Model for Buffer {
    ghost use Rattle.std.specs.Prelude.{List, ℕ, ◌≤◌, drop, vec_len};

    ghost Value = { List ℕ };

    ghost view = { λ b. drop b.start b.bytes.items };

    ghost invariant = { λ b. b.start ≤ vec_len b.bytes };
}

fn drop_front(bytes: &mut Vec<u8>, count: usize)
    requires { count ≤ vec_len bytes.old }
    ensures { bytes.new.items ≡ drop count bytes.old.items }
{
    let left = bytes.len() - count;
    bytes.rotate_left(count);
    bytes.truncate(left);
}

// Appends the next bytes of the input, and says how many came. A fault changes nothing.
fn append_piece<W: World>(bytes: &mut Vec<u8>, world: &mut W) -> Result<usize, ReadFault>
    ensures told { IsTrue W.tells → ReadsOn bytes.old.items bytes.new.items (W.outside world.old) (W.outside world.new) }
    ensures more { IfOk result (λ k. vec_len bytes.new ≡ vec_len bytes.old + k) }
    ensures over { IsTrue W.tells → IfOk result (λ k. k ≡ 0 → (W.outside world.old).input ≡ []) }
    ensures kept { take (vec_len bytes.old) bytes.new.items ≡ bytes.old.items }
    ensures err { OnErr result (bytes.new.items ≡ bytes.old.items) }
    ensures fault { IsErrOf result ReadFault.Input → Rises 1 side.Input (W.faults world.old) (W.faults world.new) }
    ensures counts { NoneFalls (W.faults world.old) (W.faults world.new) }
    ensures goes { W.goes world.old world.new }
    ensures shape { KeepsShape (W.shape world.old) (W.shape world.new) }
{
    let len = bytes.len();
    bytes.resize(len + PIECE, 0)?;
    match world.take(&mut bytes[len..]) {
        Ok(count) => {
            bytes.truncate(len + count);
            Ok(count)
        }
        Err(InputFault) => {
            bytes.truncate(len);
            Err(ReadFault::Input)
        }
    }
}

impl Buffer {
    /// It holds nothing.
    pub fn new(alloc: Global) -> Buffer
        ensures { result ≡ [] }
    {
        Buffer {
            bytes: Vec::new(alloc),
            start: 0,
        }
    }

    pub(crate) fn as_slice(&self) -> &[u8]
        ensures { result.now ≡ self.now }
    {
        &self.bytes[self.start..]
    }

    pub(crate) fn len(&self) -> usize
        ensures { result ≡ length self.now }
    {
        self.bytes.len() - self.start
    }

    /// Passes over the first bytes.
    pub(crate) fn pass(&mut self, count: usize)
        requires { count ≤ length self.old }
        ensures { self.new ≡ drop count self.old }
    {
        self.start += count;
    }

    /// Takes more of the input, and says whether there was more. A fault takes nothing.
    pub(crate) fn fill<W: World>(&mut self, world: &mut W) -> Result<bool, ReadFault>
        ensures told { IsTrue W.tells → ReadsOn self.old self.new (W.outside world.old) (W.outside world.new) }
        ensures kept { take (length self.old) self.new ≡ self.old }
        ensures more { IfOk result (λ b. b ≡ true → length self.old < length self.new) }
        ensures over { IsTrue W.tells → IfOk result (λ b. b ≡ false → ((W.outside world.old).input ≡ []) × (self.new ≡ self.old)) }
        ensures err { OnErr result (self.new ≡ self.old) }
        ensures fault { IsErrOf result ReadFault.Input → Rises 1 side.Input (W.faults world.old) (W.faults world.new) }
        ensures counts { NoneFalls (W.faults world.old) (W.faults world.new) }
        ensures goes { W.goes world.old world.new }
        ensures shape { KeepsShape (W.shape world.old) (W.shape world.new) }
    {
        drop_front(&mut self.bytes, self.start);
        self.start = 0;
        let count = append_piece(&mut self.bytes, world)?;
        Ok(count > 0)
    }
}
