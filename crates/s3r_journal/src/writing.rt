// Records behind a closed gate, which is opened last.
ghost use Rattle.std.specs.Prelude.{◌≡◌, ◌⊎◌, ◌↔◌, ◌+◌, ◌<◌, ◌≤◌, ◌∷◌, [], IsTrue, length, is_ok, IfOk, IfErr, IsErrOf};
ghost use Rattle.s3r_world.specs.declared.world.Side.TheVariants as side;
ghost use Rattle.s3r_world.specs.Outside.{KeepsShape, VolumeCause, NoneFalls, Rises};
ghost use Rattle.s3r_journal.specs.Volume.{IsFrame, spelling_of};
ghost use Rattle.s3r_journal.specs.Step.{WritesThrough, IsReady, IsVacant, Changed};
ghost use Rattle.s3r_journal.specs.Append.{Appended};
ghost use Rattle.s3r_journal.specs.Create.{Created};
ghost use Rattle.s3r_journal.specs.Header.{Shuts, Opens, MayOpen};

use s3r_world::{VolumeFault, World};

#[derive(Clone, Copy, Debug, PartialEq, Eq)]
pub enum AppendFault {
    Volume(u32),
    VolumeFull(u32),
}

impl From<VolumeFault> for AppendFault {
    ghost use Rattle.s3r_journal.specs.declared.writing.AppendFault.TheVariants.{Volume};

    ghost from_gives = { λ f e. e ≡ Volume f.0 };

    fn from(fault: VolumeFault) -> Self {
        AppendFault::Volume(fault.0)
    }
}

// Writes bytes and makes them stable.
fn write_through<W: World>(world: &mut W, v: u32, at: u64, bytes: &[u8]) -> Result<(), VolumeFault>
    requires volume { v < (W.shape world.old).volumes }
    requires place { IsTrue W.tells → at ≤ length ((W.outside world.old).as_read.volume v) }
    requires fits { at + length bytes.now ≤ (W.shape world.old).room v }
    ensures told { IsTrue W.tells → WritesThrough v at bytes.now (is_ok result) (W.outside world.old) (W.outside world.new) }
    ensures goes { W.goes world.old world.new }
    ensures shape { KeepsShape (W.shape world.old) (W.shape world.new) }
    ensures cause { VolumeCause v result (W.faults world.old) (W.faults world.new) }
{
    world.write_at(v, at, bytes)?;
    world.sync(v)
}

// Gives an empty volume a header gate that is closed, where it is too short to have one.
fn close_header<W: World>(world: &mut W, v: u32) -> Result<(), VolumeFault>
    requires volume { v < (W.shape world.old).volumes }
    requires room { 17 ≤ (W.shape world.old).room v }
    requires vacant { IsTrue W.tells → IsVacant v (W.outside world.old) }
    ensures told { IsTrue W.tells → Shuts v (is_ok result) (W.outside world.old) (W.outside world.new) }
    ensures goes { W.goes world.old world.new }
    ensures shape { KeepsShape (W.shape world.old) (W.shape world.new) }
    ensures cause { VolumeCause v result (W.faults world.old) (W.faults world.new) }
{
    if world.size(v)? >= 16 {
        return Ok(());
    }
    write_through(world, v, 0, &[0])
}

// Writes a header behind its closed gate, and then opens the gate.
fn open_header<W: World>(world: &mut W, v: u32, region: u8) -> Result<(), VolumeFault>
    requires volume { v < (W.shape world.old).volumes }
    requires region { region ≤ 7 }
    requires room { 17 ≤ (W.shape world.old).room v }
    requires ready { IsTrue W.tells → IsReady v 0 (W.outside world.old) }
    ensures told { IsTrue W.tells → Changed v 16 (MayOpen region) (Opens region) (is_ok result) (W.outside world.old) (W.outside world.new) }
    ensures goes { W.goes world.old world.new }
    ensures shape { KeepsShape (W.shape world.old) (W.shape world.new) }
    ensures cause { VolumeCause v result (W.faults world.old) (W.faults world.new) }
{
    let mut frame = *b"S3RVOL\0\0\0\0\0\0\0\0\x01\0";
    frame[6] = b'0' + region;
    write_through(world, v, 1, &frame)?;
    write_through(world, v, 0, &[1])
}

/// Writes the header of a region to an empty volume, which then ends at 16. Its gate stays closed until all behind it
/// is stable.
pub fn create<W: World>(world: &mut W, v: u32, region: u8) -> Result<(), VolumeFault>
    requires volume { v < (W.shape world.old).volumes }
    requires region { region ≤ 7 }
    requires room { 17 ≤ (W.shape world.old).room v }
    requires vacant { IsTrue W.tells → IsVacant v (W.outside world.old) }
    ensures told { IsTrue W.tells → Created v region (is_ok result) (W.outside world.old) (W.outside world.new) }
    ensures goes { W.goes world.old world.new }
    ensures shape { KeepsShape (W.shape world.old) (W.shape world.new) }
    ensures cause { VolumeCause v result (W.faults world.old) (W.faults world.new) }
{
    close_header(world, v)?;
    open_header(world, v, region)
}

/// Appends the frame of a command's spelling behind the closed gate at `end`, and then opens the gate. It answers
/// the new end. At a fault the command is in doubt.
pub fn append<W: World>(world: &mut W, v: u32, end: u64, frame: &[u8]) -> Result<u64, AppendFault>
    requires volume { v < (W.shape world.old).volumes }
    requires ready { IsTrue W.tells → IsReady v end (W.outside world.old) }
    requires frame { IsFrame frame.now }
    ensures told { IsTrue W.tells → Appended v end (spelling_of frame.now) (is_ok result) (W.outside world.old) (W.outside world.new) }
    ensures end { IfOk result (λ e. e ≡ end + length frame.now) }
    ensures full { IsErrOf result (AppendFault.VolumeFull v) ↔ ((W.shape world.old).room v < end + 1 + length frame.now) }
    ensures full_unchanged { IsErrOf result (AppendFault.VolumeFull v) → world.new ≡ world.old }
    ensures fault { IfErr result (λ e. (e ≡ AppendFault.VolumeFull v) ⊎ ((e ≡ AppendFault.Volume v)
        × Rises 1 (side.Volume v) (W.faults world.old) (W.faults world.new))) }
    ensures counts { NoneFalls (W.faults world.old) (W.faults world.new) }
    ensures goes { W.goes world.old world.new }
    ensures shape { KeepsShape (W.shape world.old) (W.shape world.new) }
{
    let room = world.room(v);
    let length = frame.len() as u64;
    let full = length >= room || end >= room - length;
    if full {
        return Err(AppendFault::VolumeFull(v));
    }
    write_through(world, v, end + 1, frame)?;
    write_through(world, v, end, &[1])?;
    Ok(end + length)
}
