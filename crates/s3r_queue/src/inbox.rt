//! What a region received.

ghost use Rattle.std.specs.Prelude.{◌≡◌, ◌<◌, ◌≤◌, ◌+◌, Some, None, IfOk, length, replicate, slice_set};
ghost use Rattle.s3r_queue.specs.Received.{arrival_of, watermark_of, last_from};

use s3r_names::Outcome;
use std::alloc::{AllocError, Global};
use std::marker::Model;

/// The task that was received last from a region, and what it came to.
#[derive(Clone, Copy)]
pub struct Noted {
    pub number: u64,
    pub outcome: Outcome,
}

/// Whether a task was received before.
#[derive(Clone, Copy)]
pub enum Arrival {
    New,
    /// It is the last that was received, and this is what it came to.
    Again(Outcome),
    /// Later ones were received.
    Behind { watermark: u64 },
}

/// What was received last from each region. Tasks come in the order of their numbers, so nothing before it has to be kept.
#[derive(Drop)]
pub struct Inbox {
    last: Vec<Option<Noted>>,
}

impl Model for Inbox {
    ghost use Rattle.std.specs.Prelude.{List, Option};
    ghost use Rattle.s3r_queue.specs.declared.inbox.Noted.{Noted};

    ghost Value = { List (Option Noted) };

    ghost view = { λ inbox. inbox.last.items };
}

/// Whether the task of this number is new where this was received last.
fn arrival_of(last: Option<Noted>, number: u64) -> Arrival
    ensures { result ≡ arrival_of last number }
{
    match last {
        None => Arrival::New,
        Some(noted) => {
            if noted.number < number {
                Arrival::New
            } else if number == noted.number {
                Arrival::Again(noted.outcome)
            } else {
                Arrival::Behind {
                    watermark: noted.number,
                }
            }
        }
    }
}

impl Inbox {
    /// Nothing was received from any of so many regions.
    pub fn new(alloc: Global, regions: u32) -> Result<Inbox, AllocError>
        ensures { IfOk result (λ inbox. inbox ≡ replicate regions None) }
    {
        Ok(Inbox {
            last: vec![in alloc; None; regions as usize]?,
        })
    }

    /// Whether the task of this number is new.
    pub fn judge(&self, from: u32, number: u64) -> Arrival
        requires there { from < length self.now }
        requires number { 1 ≤ number }
        ensures { result ≡ arrival_of (last_from self.now from) number }
    {
        arrival_of(self.last[from as usize], number)
    }

    /// The number that was received last from a region; 0 where nothing was, and where the region isn't there.
    pub fn watermark(&self, from: u32) -> u64
        ensures { result ≡ watermark_of (last_from self.now from) }
    {
        match self.last.get(from as usize) {
            Some(Some(noted)) => noted.number,
            Some(None) | None => 0,
        }
    }

    /// Notes that the task of this number was received, and what it came to.
    pub fn note(&mut self, from: u32, number: u64, outcome: Outcome)
        requires there { from < length self.old }
        requires above { watermark_of (last_from self.old from) < number }
        ensures { self.new ≡ slice_set self.old from (Some (record { number = number; outcome = outcome })) }
    {
        self.last[from as usize] = Some(Noted { number, outcome });
    }
}
