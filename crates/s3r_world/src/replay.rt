//! What a crash leaves of a volume, by going through what was done to it.
ghost use Rattle.std.specs.Prelude.{◌≡◌, [], IfOk, OnOk};
ghost use Rattle.s3r_world.specs.Events.{written, left_of_write, read_after, left_after};

use crate::disk::{Event, overwritten};
use std::alloc::{AllocError, Global};

/// Which of the images of a world.
#[derive(Clone, Copy, Debug, PartialEq, Eq)]
pub enum Pick {
    /// What reads give.
    AsRead,
    /// What was stable last.
    Stable,
    /// What was stable last, and each range that was written since is filled with this byte. A write that failed
    /// has changed nothing.
    Torn(u8),
}

// A volume as reads gave it so far, and as a crash leaves it.
#[derive(Drop)]
pub(crate) struct Replay {
    pub alloc: Global,
    pub read: Vec<u8>,
    pub left: Vec<u8>,
}

// The bytes after a write, the old ones where it begins past their end.
fn rewritten(alloc: Global, old: &[u8], at: u64, bytes: &[u8]) -> Result<Vec<u8>, AllocError>
    ensures { IfOk result (λ next. next.items ≡ written at bytes.now old.now) }
{
    if at > old.len() as u64 {
        return old.to_vec(alloc);
    }
    overwritten(alloc, old, at as usize, bytes)
}

// What a pick leaves of a write.
fn left_of(
    alloc: Global,
    pick: Pick,
    old: &[u8],
    at: u64,
    bytes: &[u8],
) -> Result<Vec<u8>, AllocError>
    ensures { IfOk result (λ next. next.items ≡ left_of_write pick at bytes.now old.now) }
{
    match pick {
        Pick::AsRead => rewritten(alloc, old, at, bytes),
        Pick::Stable => old.to_vec(alloc),
        Pick::Torn(byte) => {
            let fill = vec![in alloc; byte; bytes.len()]?;
            rewritten(alloc, old, at, &fill)
        }
    }
}

impl Replay {
    /// A volume with no bytes.
    pub fn new(alloc: Global) -> Replay
        ensures read { result.read.items ≡ [] }
        ensures left { result.left.items ≡ [] }
    {
        Replay {
            alloc,
            read: Vec::new(alloc),
            left: Vec::new(alloc),
        }
    }

    /// Goes on by an event.
    pub fn follow(&mut self, v: u32, pick: Pick, event: &Event) -> Result<(), AllocError>
        ensures read { OnOk result (self.new.read.items ≡ read_after v event.now self.old.read.items) }
        ensures left { OnOk result (self.new.left.items ≡ left_after pick v event.now self.old.read.items self.old.left.items) }
    {
        match event {
            Event::Placed(u, bytes) => {
                if v == *u {
                    self.read = bytes.to_vec(self.alloc)?;
                    self.left = bytes.to_vec(self.alloc)?;
                }
            }
            Event::Wrote(u, at, bytes, true) => {
                if v == *u {
                    self.read = rewritten(self.alloc, &self.read, *at, bytes)?;
                    self.left = left_of(self.alloc, pick, &self.left, *at, bytes)?;
                }
            }
            Event::Synced(u) => {
                if v == *u {
                    self.left = self.read.to_vec(self.alloc)?;
                }
            }
            Event::Wrote(_, _, _, false) | Event::Put(_) => {}
        }
        Ok(())
    }
}
