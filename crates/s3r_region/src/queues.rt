//! The queues of a region.

ghost use Rattle.std.specs.Prelude.{◌≡◌, ◌+◌, ◌<◌, ◌≤◌, ℕ, IsTrue, [], ◌∷◌, IfOk, OnOk, length, if◌then◌else◌, Some, None};
ghost use Rattle.std.specs.List.{list_any};
ghost use Rattle.s3r_record.specs.declared.command.Command.{Command};
ghost use Rattle.s3r_queue.specs.Received.{watermark_of, last_from};
ghost use Rattle.s3r_queue.specs.Tasks.{waits, first_of, answered_of};
ghost use Rattle.s3r_queue.specs.Queues.{to_region};
ghost use Rattle.s3r_history.specs.Words.{History};
ghost use Rattle.s3r_history.specs.Past.{Carried};
ghost use Rattle.s3r_history.specs.Deeds.{judge};
ghost use Rattle.s3r_history.specs.Kept.{push_all};
ghost use Rattle.s3r_region.specs.Waiting.{Waiting, IsAfter, IsAccepted};

use crate::pushing::push_all;
use s3r_history::{Prescribed, Sent};
use s3r_names::Outcome;
use s3r_queue::{Arrival, Inbox, Outbox};
use std::alloc::{AllocError, Global};
use std::marker::Model;

/// What a region is to send to others, and what it received from them.
#[derive(Drop)]
pub(crate) struct Queues {
    regions: u32,
    outbox: Outbox<Prescribed>,
    inbox: Inbox,
}

impl Model for Queues {
    ghost use Rattle.std.specs.Prelude.{◌≡◌, length};
    ghost use Rattle.s3r_region.specs.Waiting.{Waiting};

    ghost Value = { Waiting };

    ghost view = { λ queues. record { regions = queues.regions; outbox = queues.outbox; inbox = queues.inbox } };

    ghost invariant = { λ queues. (length queues.outbox ≡ queues.regions) × (length queues.inbox ≡ queues.regions) };
}

impl Queues {
    /// Those of so many regions, after no command.
    pub(crate) fn new(alloc: Global, regions: u32) -> Result<Queues, AllocError>
        ensures after { IfOk result (λ queues. (r : ℕ) → IsAfter r queues []) }
        ensures regions { IfOk result (λ queues. queues.regions ≡ regions) }
    {
        Ok(Queues {
            regions,
            outbox: Outbox::new(alloc, regions)?,
            inbox: Inbox::new(alloc, regions)?,
        })
    }

    /// How many regions there are.
    pub(crate) fn regions(&self) -> u32
        ensures { result ≡ self.now.regions }
    {
        self.regions
    }

    pub(crate) fn outbox(&self) -> &Outbox<Prescribed>
        ensures tasks { result.now ≡ self.now.outbox }
        ensures count { length self.now.outbox ≡ self.now.regions }
    {
        &self.outbox
    }

    /// How far the tasks to a region are; none of each where it isn't there.
    pub(crate) fn counts(&self, to: u32) -> (u64, u64, u64)
        ensures sent { result.0 ≡ length (to_region self.now.outbox to) }
        ensures answered { result.1 ≡ answered_of (to_region self.now.outbox to) }
        ensures settled { result.2 + 1 ≡ first_of (to_region self.now.outbox to) }
    {
        if to < self.regions {
            self.outbox.counts(to)
        } else {
            (0, 0, 0)
        }
    }

    pub(crate) fn inbox(&self) -> &Inbox
        ensures noted { result.now ≡ self.now.inbox }
        ensures count { length self.now.inbox ≡ self.now.regions }
    {
        &self.inbox
    }

    /// Puts what a command of this index sends behind the tasks.
    pub(crate) fn send(&mut self, place: u64, sends: Vec<Sent>) -> Result<(), AllocError>
        ensures sent { OnOk result (self.new ≡ record self.old { outbox = push_all place sends.items self.old.outbox }) }
        ensures regions { self.new.regions ≡ self.old.regions }
    {
        push_all(&mut self.outbox, self.regions, place, sends)
    }

    /// An effect was received and came to this.
    pub(crate) fn receive(&mut self, from: u8, number: u64, outcome: Outcome)
        requires { 1 ≤ number }
        ensures after { (r : ℕ) (h : History) (e : Carried) → IsAccepted self.old.regions r h (Command.Receive from number e) → outcome ≡ judge r h e
            → IsAfter r self.old h → IsAfter r self.new (Command.Receive from number e ∷ h) }
        ensures regions { self.new.regions ≡ self.old.regions }
    {
        let from = u32::from(from);
        if from < self.regions {
            match self.inbox.judge(from, number) {
                Arrival::New => self.inbox.note(from, number, outcome),
                Arrival::Again(_) | Arrival::Behind { .. } => {}
            }
        }
    }

    /// The first pending task to a region came to this there.
    pub(crate) fn settle(&mut self, to: u8, number: u64, outcome: Outcome)
        requires { 1 ≤ number }
        ensures after { (r : ℕ) (h : History) → IsAccepted self.old.regions r h (Command.Settle to number outcome) → IsAfter r self.old h
            → IsAfter r self.new (Command.Settle to number outcome ∷ h) }
        ensures regions { self.new.regions ≡ self.old.regions }
    {
        let to = u32::from(to);
        if to < self.regions {
            match self.outbox.claim(to) {
                Some(claim) => self.outbox.settle(claim, outcome),
                None => {}
            }
        }
    }

    /// One attempt more was made for it.
    pub(crate) fn attempt(&mut self, to: u8, number: u64)
        requires { 1 ≤ number }
        ensures after { (r : ℕ) (h : History) → IsAccepted self.old.regions r h (Command.Attempt to number) → IsAfter r self.old h
            → IsAfter r self.new (Command.Attempt to number ∷ h) }
        ensures regions { self.new.regions ≡ self.old.regions }
    {
        let to = u32::from(to);
        if to < self.regions {
            match self.outbox.claim(to) {
                Some(claim) => {
                    self.outbox.attempt(claim);
                }
                None => {}
            }
        }
    }
}
