//! What a store holds of a volume that was read.
ghost use Rattle.std.specs.Prelude.{◌≡◌, ◌∷◌, ℕ, ◌+◌, ◌≤◌, ◌<◌, ◌^◌, IsTrue, IfOk, IfErr, OnOk, Some, None, unwrap_or};
ghost use Rattle.s3r_world.specs.Outside.{KeepsShape, NoneFalls};
ghost use Rattle.s3r_history.specs.Words.{History};
ghost use Rattle.s3r_record.specs.Spelling.{IsCommand, MeetsLimits};

use crate::StoreFault;
use crate::writing::write;
use s3r_record::{Command, encode};
use s3r_region::State;
use s3r_world::World;
use std::alloc::Global;

/// What a volume was read as.
#[derive(Drop)]
pub struct LoadedRegion {
    /// The state after the volume's history.
    pub state: State,
    /// Where that history ends on the volume: none while there is no header.
    pub end: Option<u64>,
}

impl LoadedRegion {
    ghost use Rattle.s3r_store.specs.Knows.{Knows, CanCommit};
    ghost use Rattle.s3r_store.specs.Loaded.{IsDenied};
    ghost use Rattle.s3r_store.specs.Commits.{HasWritten, HasCommitted, IsCause, WhereDenied};
    ghost use Rattle.s3r_history.specs.Accepts.{refusal};
    ghost use Rattle.s3r_region.specs.After.{IsAfter};

    // Puts the record of a command that the history accepts on the volume, and answers the new end. The state isn't
    // after it yet.
    fn write_down<W: World>(
        &self,
        alloc: Global,
        world: &mut W,
        v: u32,
        command: &Command,
    ) -> Result<u64, StoreFault>
        requires volume { v < (W.shape world.old).volumes }
        requires region { v ≤ 7 }
        requires ready { IsTrue W.tells → CanCommit v self.now.end (W.outside world.old) }
        requires fits { IsCommand command.now }
        ensures told { IsTrue W.tells → (h : History) → (n : ℕ) → Knows n v self.now h (W.outside world.old) →
            HasWritten n v h command.now result ((W.shape world.old).room v) (W.outside world.old) (W.outside world.new) }
        ensures accepted { OnOk result ((h : History) → IsAfter self.now.state h → refusal self.now.state.regions self.now.state.region h command.now ≡ None) }
        ensures refused { IfErr result (IsDenied self.now command.now) }
        ensures later { IfOk result (λ end. unwrap_or self.now.end 16 + 5 ≤ end) }
        ensures denied { WhereDenied result (world.new ≡ world.old) }
        ensures cause { IsCause v result (W.faults world.old) (W.faults world.new) }
        ensures counts { NoneFalls (W.faults world.old) (W.faults world.new) }
        ensures goes { W.goes world.old world.new }
        ensures shape { KeepsShape (W.shape world.old) (W.shape world.new) }
    {
        self.state.accepts(command)?;
        let frame = encode(alloc, command)?;
        let end = write(world, v, self.end, &frame)?;
        Ok(end)
    }

    // Goes on to the state after a command whose record ends at this place, and answers its index.
    fn go_on(&mut self, alloc: Global, command: Command, end: u64) -> Result<u64, StoreFault>
        requires few { self.old.state.commands + 1 < 2 ^ 64 }
        requires short { MeetsLimits command }
        ensures after { OnOk result ((h : History) → IsAfter self.old.state h → refusal self.old.state.regions self.old.state.region h command ≡ None
            → IsAfter self.new.state (command ∷ h)) }
        ensures end { OnOk result (self.new.end ≡ Some end) }
        ensures count { OnOk result (self.new.state.commands ≡ self.old.state.commands + 1) }
        ensures index { IfOk result (λ index. index ≡ self.new.state.commands) }
        ensures region { OnOk result (self.new.state.region ≡ self.old.state.region) }
        ensures regions { OnOk result (self.new.state.regions ≡ self.old.state.regions) }
        ensures memory { IfErr result (λ fault. fault ≡ StoreFault.OutOfMemory) }
    {
        self.state.apply(alloc, command)?;
        self.end = Some(end);
        Ok(self.state.commands())
    }

    /// Appends a command that the history accepts to the volume, applies it, and answers its index.
    ///
    /// `Refused`, and where the history accepts it `Full`, leave all as it was. After `Volume` and `OutOfMemory` the
    /// command may be on the volume or not, and this is to be given up.
    pub fn commit<W: World>(
        &mut self,
        alloc: Global,
        world: &mut W,
        v: u32,
        command: Command,
    ) -> Result<u64, StoreFault>
        requires volume { v < (W.shape world.old).volumes }
        requires region { v ≤ 7 }
        requires ready { IsTrue W.tells → CanCommit v self.old.end (W.outside world.old) }
        requires few { self.old.state.commands + 16 ≤ unwrap_or self.old.end 16 }
        requires fits { IsCommand command }
        ensures told { IsTrue W.tells → (h : History) → (n : ℕ) → Knows n v self.old h (W.outside world.old)
            → HasCommitted n v h command result ((W.shape world.old).room v) self.old self.new (W.outside world.old) (W.outside world.new) }
        ensures after { OnOk result ((h : History) → IsAfter self.old.state h
            → (refusal self.old.state.regions self.old.state.region h command ≡ None) × IsAfter self.new.state (command ∷ h)) }
        ensures region { OnOk result (self.new.state.region ≡ self.old.state.region) }
        ensures regions { OnOk result (self.new.state.regions ≡ self.old.state.regions) }
        ensures refused { IfErr result (IsDenied self.old command) }
        ensures few { OnOk result (self.new.state.commands + 16 ≤ unwrap_or self.new.end 16) }
        ensures denied { WhereDenied result ((self.new ≡ self.old) × (world.new ≡ world.old)) }
        ensures cause { IsCause v result (W.faults world.old) (W.faults world.new) }
        ensures counts { NoneFalls (W.faults world.old) (W.faults world.new) }
        ensures goes { W.goes world.old world.new }
        ensures shape { KeepsShape (W.shape world.old) (W.shape world.new) }
    {
        match self.write_down(alloc, world, v, &command) {
            Ok(end) => self.go_on(alloc, command, end),
            Err(fault) => {
                drop(command);
                Err(fault)
            }
        }
    }
}
