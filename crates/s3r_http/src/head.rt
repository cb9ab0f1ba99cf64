// The head of a request: all bytes up to the end of the first empty line.
ghost use Rattle.std.specs.Prelude.{◌≡◌, ℕ, ◌≤◌, ◌<◌, Some, None, IsTrue, ◌++◌, length, IfSome, IfNone, IfOk, OnErr, IsErrOf};
ghost use Rattle.s3r_world.specs.declared.world.Side.TheVariants as side;
ghost use Rattle.s3r_world.specs.Outside.{KeepsShape, NoneFalls, Rises};
ghost use Rattle.s3r_http.specs.Input.{ReadsOn};
ghost use Rattle.s3r_http.specs.Head.{head_length, NoneBefore, HeadIs};

use crate::buffer::{Buffer, ReadFault};
use s3r_world::World;

// A head has at most so many bytes.
const HEAD_LIMIT: usize = 16_384;

/// What there is of a head.
#[derive(Clone, Copy, Debug, PartialEq, Eq)]
pub enum Head {
    /// So many bytes, all of them taken.
    Found(usize),
    /// There are 16,384 bytes, and none of them ends a head.
    TooLong,
    /// The input ends inside it.
    Cut,
    /// The input has ended.
    Over,
}

// The length of the head, where no empty line begins before `from`.
fn head_end(bytes: &[u8], from: usize) -> Option<usize>
    requires none_before { NoneBefore from bytes.now }
    requires within { from ≤ length bytes.now }
    ensures found { IfSome result (λ n. (head_length bytes.now ≡ Some n) × (n ≤ length bytes.now)) }
    ensures none { IfNone result (NoneBefore (length bytes.now) bytes.now) }
{
    for i in from..bytes.len() {
        if bytes[i..].starts_with(b"\r\n\r\n") {
            return Some(i + 4);
        }
    }
    None
}

fn within_limit(length: usize) -> Head
    ensures found { length ≤ 16384 → result ≡ Head.Found length }
    ensures too_long { 16384 < length → result ≡ Head.TooLong }
{
    if length <= HEAD_LIMIT {
        Head::Found(length)
    } else {
        Head::TooLong
    }
}

/// Takes input until there is a whole head, or none can come. Where it fails, none is there.
pub fn read_head<W: World>(world: &mut W, buffer: &mut Buffer) -> Result<Head, ReadFault>
    ensures told { IsTrue W.tells → ReadsOn buffer.old buffer.new (W.outside world.old) (W.outside world.new) }
    ensures head { IsTrue W.tells → IfOk result (λ h. HeadIs h (buffer.new ++ (W.outside world.new).input)) }
    ensures taken { (n : ℕ) → IfOk result (λ h. h ≡ Head.Found n → n ≤ length buffer.new) }
    ensures waiting { OnErr result (head_length buffer.new ≡ None) }
    ensures fault { IsErrOf result ReadFault.Input → Rises 1 side.Input (W.faults world.old) (W.faults world.new) }
    ensures counts { NoneFalls (W.faults world.old) (W.faults world.new) }
    ensures goes { W.goes world.old world.new }
    ensures shape { KeepsShape (W.shape world.old) (W.shape world.new) }
{
    let mut searched = 0;
    'filling: loop {
        let length = buffer.len();
        if let Some(end) = head_end(buffer.as_slice(), searched) {
            return Ok(within_limit(end));
        }
        if length >= HEAD_LIMIT {
            return Ok(Head::TooLong);
        }
        searched = length.saturating_sub(3);
        if !buffer.fill(world)? {
            return Ok(if length == 0 { Head::Over } else { Head::Cut });
        }
    }
}
