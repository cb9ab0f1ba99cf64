//! What regions tell of the tasks from one to another, compared.
ghost use Rattle.std.specs.Prelude.{◌≡◌, ◌≤◌, length};
ghost use Rattle.s3r_desk.specs.Comparing.{is_within, first_below, first_pair, seen_fault};

use crate::DeskFault;
use s3r_store::Store;

// What was answered was received; what was received was sent, and isn't above the first pending task.
fn is_within(sent: u64, answered: u64, settled: u64, received: u64) -> bool
    ensures { result ≡ is_within sent answered settled received }
{
    answered <= received && (received.saturating_sub(settled) <= 1 && received <= sent)
}

// Two regions that were read disagree on the tasks from one to the other.
pub(crate) fn pair_fault(stores: &[Store], from: u32, to: u32) -> Option<DeskFault>
    ensures { result ≡ seen_fault stores.now from to }
{
    let sender = stores.get(from as usize)?.state()?;
    let receiver = stores.get(to as usize)?.state()?;
    let (sent, answered, settled) = sender.counts(to);
    let received = receiver.inbox().watermark(from);
    if is_within(sent, answered, settled, received) {
        return None;
    }
    Some(DeskFault::Disagree {
        from,
        to,
        sent,
        answered,
        settled,
        received,
    })
}

// The first region that disagrees with this one on the tasks to it.
fn first_receiver(stores: &[Store], from: u32) -> Option<DeskFault>
    requires { length stores.now ≤ 8 }
    ensures { result ≡ first_below (seen_fault stores.now from) (length stores.now) }
{
    for to in 0..stores.len() {
        if let Some(fault) = pair_fault(stores, from, to as u32) {
            return Some(fault);
        }
    }
    None
}

/// The first pair of regions that disagrees, in rising order of the sender and then of the receiver. It takes no memory.
pub fn disagreement(stores: &[Store]) -> Option<DeskFault>
    requires { length stores.now ≤ 8 }
    ensures { result ≡ first_pair (length stores.now) (seen_fault stores.now) }
{
    for from in 0..stores.len() {
        if let Some(fault) = first_receiver(stores, from as u32) {
            return Some(fault);
        }
    }
    None
}
