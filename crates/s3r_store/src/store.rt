//! One region over its volume.
ghost use Rattle.std.specs.Prelude.{◌≡◌, ◌∷◌, ◌+◌, ◌≤◌, ◌<◌, ℕ, IsTrue, IsSome, IsOk, IfErr, IfOk, OnOk, OnErr, None, option_copied, unwrap_or};
ghost use Rattle.std.specs.Option.{ForSome};
ghost use Rattle.s3r_store.specs.Loaded.{IsLoaded};

use crate::reading::read_volume;
use crate::{LoadedRegion, StoreFault};
use s3r_names::{Bytes, Kept, Outcome};
use s3r_queue::Arrival;
use s3r_record::{Command, Effect};
use s3r_region::State;
use s3r_world::World;
use std::alloc::Global;

/// A region over its volume, which is read at the first touch and kept in step with it by each commit.
#[derive(Drop)]
pub struct Store {
    /// The number of the region and of its volume.
    pub v: u32,
    /// How many regions there are.
    pub regions: u32,
    /// What the volume was read as: none before it was read, and after a fault.
    pub held: Option<LoadedRegion>,
    // Each record is at least five bytes long.
    ghost few: { ForSome held (λ held. held.state.commands + 16 ≤ unwrap_or held.end 16) },
    // Whatever the world tells, the state is after some lawful history.
    pub ghost lawful: { ForSome held (λ held. ∥ IsLoaded regions v held ∥₁) },
}

impl Store {
    ghost use Rattle.s3r_world.specs.Outside.{KeepsShape, NoneFalls, Looks};
    ghost use Rattle.s3r_queue.specs.Received.{arrival_of};
    ghost use Rattle.s3r_history.specs.Words.{History};
    ghost use Rattle.s3r_history.specs.Deeds.{deeds, judge};
    ghost use Rattle.s3r_history.specs.Tasks.{last_from};
    ghost use Rattle.s3r_record.specs.Spelling.{IsCommand};
    ghost use Rattle.s3r_history.specs.Accepts.{refusal};
    ghost use Rattle.s3r_store.specs.Knows.{IsStoreAfter, IsAfterSome, Holds, Ties};
    ghost use Rattle.s3r_store.specs.Reads.{IsDamage, HasCause};
    ghost use Rattle.s3r_store.specs.Stores.{StoreCommits, IsRefusal, state_of, end_of};
    ghost use Rattle.s3r_store.specs.Commits.{IsCause, WhereDenied};

    /// The store of this region, one of so many. Nothing is read yet.
    pub fn new(v: u32, regions: u32) -> Store
        ensures v { result.v ≡ v }
        ensures regions { result.regions ≡ regions }
        ensures unread { result.held ≡ None }
    {
        Store {
            v,
            regions,
            held: None,
        }
    }

    /// The state, where the volume was read.
    pub fn state(&self) -> Option<&State>
        ensures { option_copied result ≡ state_of self.now }
    {
        match &self.held {
            Some(held) => Some(&held.state),
            None => None,
        }
    }

    /// Where the history ends on the volume: 0 where that has no header or is unread.
    pub fn end(&self) -> u64
        ensures { result ≡ end_of self.now }
    {
        match &self.held {
            Some(held) => held.end.unwrap_or(0),
            None => 0,
        }
    }

    /// The number of the region and of its volume.
    pub fn region(&self) -> u32
        ensures { result ≡ self.now.v }
    {
        self.v
    }

    /// How many regions there are.
    pub fn regions(&self) -> u32
        ensures { result ≡ self.now.regions }
    {
        self.regions
    }

    /// What was read is after some lawful history, whatever the world tells.
    pub fn is_after_some(&self)
        ensures { IsSome self.now.held → IsAfterSome self.now }
    {}

    /// Whether the task of this number from another region is new here.
    pub fn arrival(&self, from: u32, number: u64) -> Arrival
        requires read { IsSome self.now.held }
        requires number { 1 ≤ number }
        requires there { from < self.now.regions }
        ensures { (h : History) → IsStoreAfter self.now h → result ≡ arrival_of (last_from (deeds self.now.v h) from) number }
    {
        let Some(held) = &self.held else {
            unreachable!();
        };
        held.state.inbox().judge(from, number)
    }

    /// What an effect would come to here.
    pub fn judge(&self, effect: &Effect<Bytes>) -> Outcome
        requires read { IsSome self.now.held }
        ensures { (h : History) → IsStoreAfter self.now h → result ≡ judge self.now.v h effect.now }
    {
        let Some(held) = &self.held else {
            unreachable!();
        };
        held.state.judge(effect)
    }

    /// Reads the volume, where that isn't done yet. The volume stays as it is.
    ///
    /// `Volume` tells a call that failed, `Damaged` where the volume stands for no lawful history, and `OutOfMemory`
    /// want of memory. After each the store is unread, and the next touch reads anew.
    pub fn touch<W: World>(&mut self, alloc: Global, world: &mut W) -> Result<(), StoreFault>
        requires volume { self.old.v < (W.shape world.old).volumes }
        requires region { self.old.v ≤ 7 }
        requires some { 1 ≤ self.old.regions }
        requires tied { IsTrue W.tells → Ties self.old (W.outside world.old) }
        ensures told { IsTrue W.tells → Looks (W.outside world.old) (W.outside world.new) }
        ensures holds { IsTrue W.tells → OnOk result ((h : History) × Holds self.new h (W.outside world.new)) }
        ensures read { OnOk result (IsSome self.new.held) }
        ensures read_before { IsSome self.old.held → (self.new ≡ self.old) × (world.new ≡ world.old) × IsOk result }
        ensures unread { OnErr result (self.new.held ≡ None) }
        ensures v { self.new.v ≡ self.old.v }
        ensures regions { self.new.regions ≡ self.old.regions }
        ensures damage { IsTrue W.tells → IfErr result (IsDamage self.old.regions self.old.v ((W.outside world.old).as_read.volume self.old.v)) }
        ensures cause { IfErr result (λ e. HasCause self.old.v e (W.faults world.old) (W.faults world.new)) }
        ensures counts { NoneFalls (W.faults world.old) (W.faults world.new) }
        ensures goes { W.goes world.old world.new }
        ensures shape { KeepsShape (W.shape world.old) (W.shape world.new) }
    {
        if self.held.is_some() {
            return Ok(());
        }
        let held = read_volume(alloc, world, self.v, self.regions)?;
        self.held = Some(held);
        Ok(())
    }

    /// Commits a command to the volume and to the state, and answers its index.
    ///
    /// `Refused`, and where the history accepts it `Full`, leave all as it was. After `Volume` and `OutOfMemory` the
    /// store is unread and the command in doubt: the next touch decides.
    pub fn commit<W: World>(
        &mut self,
        alloc: Global,
        world: &mut W,
        command: Command,
    ) -> Result<u64, StoreFault>
        requires read { IsSome self.old.held }
        requires volume { self.old.v < (W.shape world.old).volumes }
        requires region { self.old.v ≤ 7 }
        requires tied { IsTrue W.tells → Ties self.old (W.outside world.old) }
        requires fits { IsCommand command }
        ensures told { IsTrue W.tells → (h : History) → Holds self.old h (W.outside world.old)
            → StoreCommits self.old.regions self.old.v h command result ((W.shape world.old).room self.old.v) self.old self.new (W.outside world.old)
            (W.outside world.new) }
        ensures v { self.new.v ≡ self.old.v }
        ensures regions { self.new.regions ≡ self.old.regions }
        ensures after { OnOk result ((h : History) → IsStoreAfter self.old h
            → (refusal self.old.regions self.old.v h command ≡ None) × IsStoreAfter self.new (command ∷ h)) }
        ensures refused { IfErr result (IsRefusal self.old command) }
        ensures denied { WhereDenied result ((self.new.held ≡ self.old.held) × (world.new ≡ world.old)) }
        ensures cause { IsCause self.old.v result (W.faults world.old) (W.faults world.new) }
        ensures counts { NoneFalls (W.faults world.old) (W.faults world.new) }
        ensures goes { W.goes world.old world.new }
        ensures shape { KeepsShape (W.shape world.old) (W.shape world.new) }
    {
        let Some(mut held) = self.held.take() else {
            unreachable!();
        };
        match held.commit(alloc, world, self.v, command) {
            Ok(index) => {
                self.held = Some(held);
                Ok(index)
            }
            Err(fault) => {
                if matches!(fault, StoreFault::Refused(_) | StoreFault::Full(_)) {
                    self.held = Some(held);
                }
                Err(fault)
            }
        }
    }

    /// The bytes of a version's body, which the state keeps itself. All stays as it was.
    pub fn body<W: World>(
        &mut self,
        alloc: Global,
        world: &mut W,
        kept: &Kept,
    ) -> Result<Bytes, StoreFault>
        ensures bytes { IfOk result (λ bytes. bytes ≡ kept.now) }
        ensures fault { IfErr result (λ fault. fault ≡ StoreFault.OutOfMemory) }
        ensures world { world.new ≡ world.old }
        ensures store { self.new ≡ self.old }
    {
        Ok(Bytes::from_slice(alloc, kept.as_slice())?)
    }
}
