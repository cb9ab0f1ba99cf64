// All of some bytes, put out.
ghost use Rattle.std.specs.Prelude.{◌≡◌, ℕ, ◌≤◌, IsTrue, length, OnOk};
ghost use Rattle.s3r_world.specs.Outside.{KeepsShape, OutputCause};
ghost use Rattle.s3r_service.specs.Sends.{Sends};

use s3r_world::{OutputFault, World};

/// Puts out all of these bytes. At a fault a front of them is out.
pub fn emit_all<W: World>(world: &mut W, bytes: &[u8]) -> Result<(), OutputFault>
    ensures ok { OnOk result (IsTrue W.tells → Sends bytes.now (length bytes.now) (W.outside world.old) (W.outside world.new)) }
    ensures told { IsTrue W.tells → (count : ℕ) × (count ≤ length bytes.now) × Sends bytes.now count (W.outside world.old) (W.outside world.new) }
    ensures goes { W.goes world.old world.new }
    ensures shape { KeepsShape (W.shape world.old) (W.shape world.new) }
    ensures cause { OutputCause result (W.faults world.old) (W.faults world.new) }
{
    let mut sent = 0;
    while sent < bytes.len() {
        sent += world.emit(&bytes[sent..])?;
    }
    Ok(())
}
