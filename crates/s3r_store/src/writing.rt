//! Frames put behind what a volume has.
ghost use Rattle.std.specs.Prelude.{◌≡◌, ◌⊎◌, ◌↔◌, ℕ, ◌+◌, ◌<◌, ◌≤◌, IsTrue, false, length, unwrap_or, IfOk, IfErr, IsErrOf, IsNone, IsSome, is_ok};
ghost use Rattle.s3r_world.specs.declared.world.Side.TheVariants as side;
ghost use Rattle.s3r_world.specs.Outside.{KeepsShape, NoneFalls, Rises};
ghost use Rattle.s3r_journal.specs.Volume.{IsFrame, spelling_of};
ghost use Rattle.s3r_journal.specs.Create.{Created};
ghost use Rattle.s3r_store.specs.Knows.{CanCommit};
ghost use Rattle.s3r_store.specs.Writes.{Written};

use s3r_journal::{AppendFault, append, create};
use s3r_world::World;

// The place of the first record.
const FIRST: u64 = 16;

// Whether a frame of this length, with the gate behind it, passes the room.
fn is_full(room: u64, end: u64, length: u64) -> bool
    ensures full { IsTrue result ↔ (room < end + 1 + length) }
    ensures fits { result ≡ false → end + 1 + length ≤ room }
{
    length >= room || end >= room - length
}

// Where the next record goes: at the end, or behind a header that is made where there is none.
fn opened<W: World>(world: &mut W, v: u32, end: Option<u64>) -> Result<u64, AppendFault>
    requires volume { v < (W.shape world.old).volumes }
    requires region { v ≤ 7 }
    requires room { unwrap_or end 16 + 1 ≤ (W.shape world.old).room v }
    requires ready { IsTrue W.tells → CanCommit v end (W.outside world.old) }
    ensures made { IsTrue W.tells → IsNone end → Created v v (is_ok result) (W.outside world.old) (W.outside world.new) }
    ensures there { IsSome end → world.new ≡ world.old }
    ensures end { IfOk result (λ e. e ≡ unwrap_or end 16) }
    ensures fault { IfErr result (λ e. (e ≡ AppendFault.Volume v) × Rises 1 (side.Volume v) (W.faults world.old) (W.faults world.new)) }
    ensures counts { NoneFalls (W.faults world.old) (W.faults world.new) }
    ensures goes { W.goes world.old world.new }
    ensures shape { KeepsShape (W.shape world.old) (W.shape world.new) }
{
    match end {
        Some(end) => Ok(end),
        None => {
            create(world, v, v as u8)?;
            Ok(FIRST)
        }
    }
}

/// Appends the frame of a command to a volume, which ends at this place, or has no header yet. It answers the new
/// end. `VolumeFull` leaves the world as it was; after `Volume` the command may be on the volume or not.
pub fn write<W: World>(
    world: &mut W,
    v: u32,
    end: Option<u64>,
    frame: &[u8],
) -> Result<u64, AppendFault>
    requires volume { v < (W.shape world.old).volumes }
    requires region { v ≤ 7 }
    requires ready { IsTrue W.tells → CanCommit v end (W.outside world.old) }
    requires frame { IsFrame frame.now }
    ensures told { IsTrue W.tells → Written v end (spelling_of frame.now) (is_ok result) (W.outside world.old) (W.outside world.new) }
    ensures end { IfOk result (λ e. e ≡ unwrap_or end 16 + length frame.now) }
    ensures full { IsErrOf result (AppendFault.VolumeFull v) ↔ ((W.shape world.old).room v < unwrap_or end 16 + 1 + length frame.now) }
    ensures fits { IfOk result (λ e. e < (W.shape world.old).room v) }
    ensures small { IfOk result (λ e. e < 268435456) }
    ensures full_unchanged { IsErrOf result (AppendFault.VolumeFull v) → world.new ≡ world.old }
    ensures fault { IfErr result (λ e. (e ≡ AppendFault.VolumeFull v) ⊎ ((e ≡ AppendFault.Volume v)
        × Rises 1 (side.Volume v) (W.faults world.old) (W.faults world.new))) }
    ensures counts { NoneFalls (W.faults world.old) (W.faults world.new) }
    ensures goes { W.goes world.old world.new }
    ensures shape { KeepsShape (W.shape world.old) (W.shape world.new) }
{
    let room = world.room(v);
    let full = is_full(room, end.unwrap_or(FIRST), frame.len() as u64);
    if full {
        return Err(AppendFault::VolumeFull(v));
    }
    let end = opened(world, v, end)?;
    append(world, v, end, frame)
}
