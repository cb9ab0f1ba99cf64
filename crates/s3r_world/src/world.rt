//! The outside as a trait: volumes, an input and an output, under one clock.
ghost use Rattle.std.specs.Prelude.{◌≡◌, ◌≢◌, ℕ, ◌+◌, ◌-◌, ◌<◌, ◌≤◌, min, Bool, IsTrue, List, ◌++◌, length, take, drop, IfOk, is_ok};
ghost use Rattle.s3r_world.specs.Image.{Image};

/// A side of a world: the calls whose failures are counted together.
#[derive(Clone, Copy, Debug, PartialEq, Eq)]
pub enum Side {
    /// `size`, `read`, `write_at` and `sync` of the volume with this number.
    Volume(u32),
    /// `take`.
    Input,
    /// `emit`.
    Output,
    /// `next_connection`.
    Door,
}

/// A call on the volume with this number failed, and that volume's count of failures rose.
#[derive(Clone, Copy, Debug, PartialEq, Eq)]
pub struct VolumeFault(pub u32);

/// Taking input failed, and the input's count of failures rose. No byte was taken.
#[derive(Clone, Copy, Debug, PartialEq, Eq)]
pub struct InputFault;

/// Putting out failed, and the output's count of failures rose. A front of the bytes may be out.
#[derive(Clone, Copy, Debug, PartialEq, Eq)]
pub struct OutputFault;

/// Going on to the next connection failed, and the count of such failures rose. The next one may have come.
#[derive(Clone, Copy, Debug, PartialEq, Eq)]
pub struct DoorFault;

/// Volumes of bytes that a crash may cut short, an input that is one of several connections in turn, and an output,
/// all under one clock.
///
/// Volumes are numbered from 0. Each side counts its failures in a number that never falls, and a call answers its
/// fault only where its own count rose in that call. A failed call may have done any part of what it was to do, save
/// that a failed `take` has taken nothing. No call answers want of memory: it is a fault of that side.
///
/// A world says at which number its counts stay, if at any (`most` of its `faults`), and that never changes. Where it
/// says none, a count rises by at least one in each call that answers its fault, however often that side failed before.
/// Only a world that gives a number is excused: a count that stands there needn't rise any more.
pub trait World {
    ghost use Rattle.s3r_world.specs.Outside.{Shape, KeepsShape, Counts, Outside, Looks, Writes, Syncs, Emits, Takes, Connects, VolumeCause, InputCause, OutputCause, DoorCause};

    /// Whether the world tells what it holds. The clauses on content hold where it does.
    ghost tells: { Bool };

    /// What never changes.
    ghost shape: { Self → Shape };

    /// How often each side has failed, and at which number those counts stay, if at any.
    ghost faults: { Self → Counts };

    /// What it holds.
    ghost outside: { Self → Outside };

    /// What holds of each run of its calls, besides what the calls say.
    ghost goes: { Self → Self → Type 0 };

    /// How many volumes there are.
    fn volumes(&self) -> u32
        ensures { result ≡ (shape self.now).volumes };

    /// How many bytes a volume may have, at most 256 MiB.
    fn room(&self, v: u32) -> u64
        requires { v < (shape self.now).volumes }
        ensures room { result ≡ (shape self.now).room v }
        ensures small { result ≤ 268435456 };

    /// The number of bytes of a volume. A fault leaves all as it was.
    fn size(&mut self, v: u32) -> Result<u64, VolumeFault>
        requires { v < (shape self.old).volumes }
        ensures size { IsTrue tells → IfOk result (λ n. n ≡ length ((outside self.old).as_read.volume v)) }
        ensures told { IsTrue tells → Looks (outside self.old) (outside self.new) }
        ensures goes { goes self.old self.new }
        ensures shape { KeepsShape (shape self.old) (shape self.new) }
        ensures cause { VolumeCause v result (faults self.old) (faults self.new) };

    /// Fills the front of a buffer with a volume's bytes from byte `at` on, and answers how many: as many as fit, or
    /// those up to the volume's end. A fault leaves all but the buffer as it was.
    fn read(&mut self, v: u32, at: u64, into: &mut [u8]) -> Result<usize, VolumeFault>
        requires { v < (shape self.old).volumes }
        ensures count { IsTrue tells → IfOk result (λ k. k ≡ min (length into.old) (length ((outside self.old).as_read.volume v) - at)) }
        ensures within { IfOk result (λ k. k ≤ length into.old) }
        ensures bytes { IsTrue tells → IfOk result (λ k. into.new ≡ take k (drop at ((outside self.old).as_read.volume v)) ++ drop k into.old) }
        ensures told { IsTrue tells → Looks (outside self.old) (outside self.new) }
        ensures goes { goes self.old self.new }
        ensures shape { KeepsShape (shape self.old) (shape self.new) }
        ensures cause { VolumeCause v result (faults self.old) (faults self.new) };

    /// Writes bytes from byte `at` on, which is at most the volume's size, over what is there and past the end. They
    /// are stable after a sync. Until then, and after a fault, a crash may leave any bytes in that range and past the
    /// old end. After a fault a read may give any too.
    fn write_at(&mut self, v: u32, at: u64, bytes: &[u8]) -> Result<(), VolumeFault>
        requires volume { v < (shape self.old).volumes }
        requires place { IsTrue tells → at ≤ length ((outside self.old).as_read.volume v) }
        requires fits { at + length bytes.now ≤ (shape self.old).room v }
        ensures told { IsTrue tells → Writes v at bytes.now (is_ok result) (outside self.old) (outside self.new) }
        ensures goes { goes self.old self.new }
        ensures shape { KeepsShape (shape self.old) (shape self.new) }
        ensures cause { VolumeCause v result (faults self.old) (faults self.new) };

    /// After it a crash leaves of the volume what a read gives, until the next write to it. A fault changes nothing
    /// that a read gives.
    fn sync(&mut self, v: u32) -> Result<(), VolumeFault>
        requires { v < (shape self.old).volumes }
        ensures told { IsTrue tells → Syncs v (is_ok result) (outside self.old) (outside self.new) }
        ensures goes { goes self.old self.new }
        ensures shape { KeepsShape (shape self.old) (shape self.new) }
        ensures cause { VolumeCause v result (faults self.old) (faults self.new) };

    /// Puts the next bytes of the current input into the front of a buffer that isn't empty, and answers how many. 0 is
    /// the input's end. A fault has taken none.
    fn take(&mut self, into: &mut [u8]) -> Result<usize, InputFault>
        requires { 0 < length into.old }
        ensures within { IfOk result (λ k. k ≤ length into.old) }
        ensures told { IsTrue tells → Takes into.old into.new result (outside self.old) (outside self.new) }
        ensures goes { goes self.old self.new }
        ensures shape { KeepsShape (shape self.old) (shape self.new) }
        ensures cause { InputCause result (faults self.old) (faults self.new) };

    /// Appends the front of these bytes, which aren't none, to the output, and answers how many: at least one. What is
    /// out is in all that a crash may leave. After a fault any front of them may be out.
    fn emit(&mut self, bytes: &[u8]) -> Result<usize, OutputFault>
        requires { 0 < length bytes.now }
        ensures some { IfOk result (λ k. 0 < k) }
        ensures within { IfOk result (λ k. k ≤ length bytes.now) }
        ensures told { IsTrue tells → Emits bytes.now result (outside self.old) (outside self.new) }
        ensures goes { goes self.old self.new }
        ensures shape { KeepsShape (shape self.old) (shape self.new) }
        ensures cause { OutputCause result (faults self.old) (faults self.new) };

    /// Ends the current connection and takes the next one, whose input is the current one from then on. False where no
    /// more come. After a fault the next one may have come.
    fn next_connection(&mut self) -> Result<bool, DoorFault>
        ensures told { IsTrue tells → Connects result (outside self.old) (outside self.new) }
        ensures goes { goes self.old self.new }
        ensures shape { KeepsShape (shape self.old) (shape self.new) }
        ensures cause { DoorCause result (faults self.old) (faults self.new) };

    /// What reads give, with the output so far, is one of the images.
    ghost one_image: { (w : Self) → IsTrue tells → (outside w).images (outside w).as_read };

    /// Each image has the output so far.
    ghost output_kept: { (w : Self) (c : Image) → (outside w).images c → c.output ≡ (outside w).as_read.output };

    /// This moment is one of those since an earlier one.
    ghost counts_now: { (w : Self) (t : ℕ) (c : Image) → t ≤ (outside w).moment → (outside w).images c → (outside w).since t c };

    /// Since this moment there is no other.
    ghost only_now: { (w : Self) (c : Image) → (outside w).since (outside w).moment c → (outside w).images c };

    /// It holds of no call.
    ghost goes_none: { (w : Self) → goes w w };

    /// It holds of two runs in turn.
    ghost goes_then: { (a b c : Self) → goes a b → goes b c → goes a c };
}
