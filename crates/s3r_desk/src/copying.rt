//! One turn of the copier.
ghost use Rattle.std.specs.Prelude.{◌≡◌, ◌≢◌, ◌⊎◌, ◌+◌, ◌≤◌, ◌<◌, ℕ, Some, None, IsTrue, IfOk, IfErr, IfSome, OnOk, Err, length};
ghost use Rattle.s3r_world.specs.Outside.{KeepsShape, NoneFalls};
ghost use Rattle.s3r_record.specs.Spelling.{IsCommand};
ghost use Rattle.s3r_record.specs.declared.command.Command.TheVariants as command;
ghost use Rattle.s3r_desk.specs.Events.{Events};
ghost use Rattle.s3r_desk.specs.Comparing.{seen_fault};
ghost use Rattle.s3r_desk.specs.Copying.{tried, is_missed, IsNoDamage};
ghost use Rattle.s3r_desk.specs.Keeping.{Keeps, AreNumbered, AreTied};
ghost use Rattle.s3r_desk.specs.Damage.{IsDamage};
ghost use Rattle.s3r_desk.specs.Responds.{AsRead, HasCause};
ghost use Rattle.s3r_desk.specs.Happened.{Happened, IsTried, IsSettled, IsDelivered, Carries, Misses, Copies, IsReadAt, IsAcceptedAt, IsFirstDueAt, IsDueAt, AreLeftBut, StoreHas};

use crate::comparing::pair_fault;
use crate::own_commit::commit_own;
use crate::touching::touch_region;
use crate::{CopyOutcome, DeskFault};
use s3r_history::Due;
use s3r_names::Outcome;
use s3r_queue::{Arrival, MOST_ATTEMPTS};
use s3r_record::Command;
use s3r_store::Store;
use s3r_world::World;
use std::alloc::Global;

// What so many attempts come to.
fn tried(number: u64, attempts: u32) -> CopyOutcome
    ensures { result ≡ tried number attempts }
{
    if attempts == MOST_ATTEMPTS {
        CopyOutcome::GaveUp { number }
    } else {
        CopyOutcome::Retried { number, attempts }
    }
}

// Notes at the sender that the receiver failed once more.
fn note_attempt<W: World>(
    alloc: Global,
    world: &mut W,
    stores: &mut Vec<Store>,
    from: u32,
    to: u32,
    number: u64,
    attempts: u32,
) -> Result<CopyOutcome, DeskFault>
    requires from { from < length stores.old.items }
    requires volumes { length stores.old.items ≤ (W.shape world.old).volumes }
    requires few { length stores.old.items ≤ 8 }
    requires numbered { AreNumbered stores.old.items }
    requires tied { IsTrue W.tells → AreTied stores.old.items (W.outside world.old) }
    requires read { IsReadAt stores.old.items from }
    requires fits { IsCommand (command.Attempt to number) }
    requires accepted { IsAcceptedAt stores.old.items from (command.Attempt to number) }
    requires attempts { attempts ≤ 7 }
    ensures told { IsTrue W.tells → (before : Events) → Keeps before stores.old.items (W.outside world.old)
        → Happened (IsTried (W.shape world.old).room from to number attempts before result) before stores.old.items stores.new.items
        (W.outside world.old) (W.outside world.new) }
    ensures count { length stores.new.items ≡ length stores.old.items }
    ensures numbered { AreNumbered stores.new.items }
    ensures tied { IsTrue W.tells → AreTied stores.new.items (W.outside world.new) }
    ensures undamaged { IfErr result IsNoDamage }
    ensures cause { HasCause (length stores.old.items) result (W.faults world.old) (W.faults world.new) }
    ensures counts { NoneFalls (W.faults world.old) (W.faults world.new) }
    ensures goes { W.goes world.old world.new }
    ensures shape { KeepsShape (W.shape world.old) (W.shape world.new) }
{
    let command = Command::Attempt {
        to: to as u8,
        number,
    };
    match commit_own(alloc, world, stores, from as usize, command) {
        Ok(()) => Ok(tried(number, attempts + 1)),
        Err(fault) => Err(fault),
    }
}

// Has the task received where it wasn't yet, and answers what it came to.
fn deliver<W: World>(
    alloc: Global,
    world: &mut W,
    stores: &mut Vec<Store>,
    from: u32,
    to: u32,
    due: Due,
) -> Result<Outcome, DeskFault>
    requires from { from < length stores.old.items }
    requires to { to < length stores.old.items }
    requires volumes { length stores.old.items ≤ (W.shape world.old).volumes }
    requires few { length stores.old.items ≤ 8 }
    requires numbered { AreNumbered stores.old.items }
    requires tied { IsTrue W.tells → AreTied stores.old.items (W.outside world.old) }
    requires read_from { IsReadAt stores.old.items from }
    requires read_to { IsReadAt stores.old.items to }
    requires compared { seen_fault stores.old.items from to ≡ None }
    requires due { IsDueAt stores.old.items from to due }
    requires fits { IsCommand (command.Receive from due.number due.effect) }
    ensures told { IsTrue W.tells → (before : Events) → Keeps before stores.old.items (W.outside world.old)
        → Happened (IsDelivered (W.shape world.old).room from to due before result) before stores.old.items stores.new.items
        (W.outside world.old) (W.outside world.new) }
    ensures accepted { IfOk result (λ outcome. IsAcceptedAt stores.new.items from (command.Settle to due.number outcome)) }
    ensures read { OnOk result (IsReadAt stores.new.items from) }
    ensures others { AreLeftBut to stores.old.items stores.new.items }
    ensures count { length stores.new.items ≡ length stores.old.items }
    ensures numbered { AreNumbered stores.new.items }
    ensures tied { IsTrue W.tells → AreTied stores.new.items (W.outside world.new) }
    ensures undamaged { IfErr result IsNoDamage }
    ensures cause { HasCause (length stores.old.items) result (W.faults world.old) (W.faults world.new) }
    ensures counts { NoneFalls (W.faults world.old) (W.faults world.new) }
    ensures goes { W.goes world.old world.new }
    ensures shape { KeepsShape (W.shape world.old) (W.shape world.new) }
{
    match stores[to as usize].arrival(from, due.number) {
        Arrival::Again(outcome) => {
            drop(due);
            Ok(outcome)
        }
        Arrival::New => {
            let outcome = stores[to as usize].judge(&due.effect);
            let command = Command::Receive {
                from: from as u8,
                number: due.number,
                effect: due.effect,
            };
            match commit_own(alloc, world, stores, to as usize, command) {
                Ok(()) => Ok(outcome),
                Err(fault) => Err(fault),
            }
        }
        Arrival::Behind { .. } => unreachable!(),
    }
}

// Settles a task at the sender as it came to at the receiver.
fn settle<W: World>(
    alloc: Global,
    world: &mut W,
    stores: &mut Vec<Store>,
    from: u32,
    to: u32,
    number: u64,
    outcome: Outcome,
) -> Result<CopyOutcome, DeskFault>
    requires from { from < length stores.old.items }
    requires volumes { length stores.old.items ≤ (W.shape world.old).volumes }
    requires few { length stores.old.items ≤ 8 }
    requires numbered { AreNumbered stores.old.items }
    requires tied { IsTrue W.tells → AreTied stores.old.items (W.outside world.old) }
    requires read { IsReadAt stores.old.items from }
    requires fits { IsCommand (command.Settle to number outcome) }
    requires accepted { IsAcceptedAt stores.old.items from (command.Settle to number outcome) }
    ensures told { IsTrue W.tells → (before : Events) → Keeps before stores.old.items (W.outside world.old)
        → Happened (IsSettled (W.shape world.old).room from to number outcome before result) before stores.old.items stores.new.items
        (W.outside world.old) (W.outside world.new) }
    ensures count { length stores.new.items ≡ length stores.old.items }
    ensures numbered { AreNumbered stores.new.items }
    ensures tied { IsTrue W.tells → AreTied stores.new.items (W.outside world.new) }
    ensures undamaged { IfErr result IsNoDamage }
    ensures cause { HasCause (length stores.old.items) result (W.faults world.old) (W.faults world.new) }
    ensures counts { NoneFalls (W.faults world.old) (W.faults world.new) }
    ensures goes { W.goes world.old world.new }
    ensures shape { KeepsShape (W.shape world.old) (W.shape world.new) }
{
    let command = Command::Settle {
        to: to as u8,
        number,
        outcome,
    };
    match commit_own(alloc, world, stores, from as usize, command) {
        Ok(()) => Ok(CopyOutcome::Settled { number, outcome }),
        Err(fault) => Err(fault),
    }
}

// The fault is the receiver's, which isn't the sender.
fn is_missed(fault: DeskFault, from: u32, to: u32) -> bool
    ensures { result ≡ is_missed fault from to }
{
    match fault {
        DeskFault::Volume(_) => from != to,
        DeskFault::Full(_)
        | DeskFault::Damaged { .. }
        | DeskFault::Disagree { .. }
        | DeskFault::OutOfMemory => false,
    }
}

// Carries a task: has it received, and settles it; or notes that the receiver failed.
fn carry<W: World>(
    alloc: Global,
    world: &mut W,
    stores: &mut Vec<Store>,
    from: u32,
    to: u32,
    due: Due,
) -> Result<CopyOutcome, DeskFault>
    requires from { from < length stores.old.items }
    requires to { to < length stores.old.items }
    requires volumes { length stores.old.items ≤ (W.shape world.old).volumes }
    requires few { length stores.old.items ≤ 8 }
    requires numbered { AreNumbered stores.old.items }
    requires tied { IsTrue W.tells → AreTied stores.old.items (W.outside world.old) }
    requires read_from { IsReadAt stores.old.items from }
    requires read_to { IsReadAt stores.old.items to }
    requires compared { seen_fault stores.old.items from to ≡ None }
    requires due { IsDueAt stores.old.items from to due }
    requires fits { IsCommand (command.Receive from due.number due.effect) }
    requires attempts { due.attempts ≤ 7 }
    ensures told { IsTrue W.tells → (before : Events) → Keeps before stores.old.items (W.outside world.old)
        → Happened (Carries (W.shape world.old).room from to before result (W.faults world.old) (W.faults world.new)) before stores.old.items
        stores.new.items (W.outside world.old) (W.outside world.new) }
    ensures count { length stores.new.items ≡ length stores.old.items }
    ensures numbered { AreNumbered stores.new.items }
    ensures tied { IsTrue W.tells → AreTied stores.new.items (W.outside world.new) }
    ensures undamaged { IfErr result IsNoDamage }
    ensures cause { HasCause (length stores.old.items) result (W.faults world.old) (W.faults world.new) }
    ensures counts { NoneFalls (W.faults world.old) (W.faults world.new) }
    ensures goes { W.goes world.old world.new }
    ensures shape { KeepsShape (W.shape world.old) (W.shape world.new) }
{
    let (number, attempts) = (due.number, due.attempts);
    match deliver(alloc, world, stores, from, to, due) {
        Ok(outcome) => settle(alloc, world, stores, from, to, number, outcome),
        Err(fault) => {
            if is_missed(fault, from, to) {
                note_attempt(alloc, world, stores, from, to, number, attempts)
            } else {
                Err(fault)
            }
        }
    }
}

// The first pending task from one region to another.
fn first_due<W: World>(
    alloc: Global,
    world: &mut W,
    stores: &mut Vec<Store>,
    from: u32,
    to: u32,
) -> Result<Option<Due>, DeskFault>
    requires from { from < length stores.old.items }
    requires few { length stores.old.items ≤ 8 }
    requires numbered { AreNumbered stores.old.items }
    requires read { IsReadAt stores.old.items from }
    ensures due { IfOk result (λ due. IsFirstDueAt stores.old.items from to due) }
    ensures fits { IfOk result (λ due. IfSome due (λ due. IsCommand (command.Receive from due.number due.effect))) }
    ensures attempts { IfOk result (λ due. IfSome due (λ due. due.attempts ≤ 7)) }
    ensures fault { IfErr result (λ fault. fault ≡ DeskFault.OutOfMemory) }
    ensures stores { stores.new.items ≡ stores.old.items }
    ensures world { world.new ≡ world.old }
{
    match stores[from as usize].first_due(alloc, world, to) {
        Ok(due) => Ok(due),
        Err(_) => Err(DeskFault::OutOfMemory),
    }
}

// Compares a pair, and carries its first pending task.
fn carry_first<W: World>(
    alloc: Global,
    world: &mut W,
    stores: &mut Vec<Store>,
    from: u32,
    to: u32,
) -> Result<CopyOutcome, DeskFault>
    requires from { from < length stores.old.items }
    requires to { to < length stores.old.items }
    requires volumes { length stores.old.items ≤ (W.shape world.old).volumes }
    requires few { length stores.old.items ≤ 8 }
    requires numbered { AreNumbered stores.old.items }
    requires tied { IsTrue W.tells → AreTied stores.old.items (W.outside world.old) }
    requires read_from { IsReadAt stores.old.items from }
    requires read_to { IsReadAt stores.old.items to }
    ensures told { IsTrue W.tells → (before : Events) → Keeps before stores.old.items (W.outside world.old)
        → Happened (Carries (W.shape world.old).room from to before result (W.faults world.old) (W.faults world.new)) before stores.old.items
        stores.new.items (W.outside world.old) (W.outside world.new) }
    ensures count { length stores.new.items ≡ length stores.old.items }
    ensures numbered { AreNumbered stores.new.items }
    ensures tied { IsTrue W.tells → AreTied stores.new.items (W.outside world.new) }
    ensures undamaged { IfErr result IsNoDamage }
    ensures cause { HasCause (length stores.old.items) result (W.faults world.old) (W.faults world.new) }
    ensures counts { NoneFalls (W.faults world.old) (W.faults world.new) }
    ensures goes { W.goes world.old world.new }
    ensures shape { KeepsShape (W.shape world.old) (W.shape world.new) }
{
    if let Some(fault) = pair_fault(stores, from, to) {
        return Err(fault);
    }
    match first_due(alloc, world, stores, from, to) {
        Ok(Some(due)) => carry(alloc, world, stores, from, to, due),
        Ok(None) => Ok(CopyOutcome::Idle),
        Err(fault) => Err(fault),
    }
}

// Notes that the receiver could not be read, where a task is pending.
fn miss<W: World>(
    alloc: Global,
    world: &mut W,
    stores: &mut Vec<Store>,
    from: u32,
    to: u32,
) -> Result<CopyOutcome, DeskFault>
    requires apart { from ≢ to }
    requires from { from < length stores.old.items }
    requires to { to < length stores.old.items }
    requires volumes { length stores.old.items ≤ (W.shape world.old).volumes }
    requires few { length stores.old.items ≤ 8 }
    requires numbered { AreNumbered stores.old.items }
    requires tied { IsTrue W.tells → AreTied stores.old.items (W.outside world.old) }
    requires read_from { IsReadAt stores.old.items from }
    requires unread { StoreHas (λ store. store.held ≡ None) stores.old.items to }
    ensures told { IsTrue W.tells → (before : Events) → Keeps before stores.old.items (W.outside world.old)
        → Happened (Misses (W.shape world.old).room from to before result (W.faults world.old) (W.faults world.new)) before stores.old.items
        stores.new.items (W.outside world.old) (W.outside world.new) }
    ensures count { length stores.new.items ≡ length stores.old.items }
    ensures numbered { AreNumbered stores.new.items }
    ensures tied { IsTrue W.tells → AreTied stores.new.items (W.outside world.new) }
    ensures undamaged { IfErr result IsNoDamage }
    ensures cause { result ≡ Err (DeskFault.Volume to) ⊎ HasCause (length stores.old.items) result (W.faults world.old) (W.faults world.new) }
    ensures counts { NoneFalls (W.faults world.old) (W.faults world.new) }
    ensures goes { W.goes world.old world.new }
    ensures shape { KeepsShape (W.shape world.old) (W.shape world.new) }
{
    match first_due(alloc, world, stores, from, to) {
        Ok(Some(due)) => {
            let (number, attempts) = (due.number, due.attempts);
            drop(due);
            note_attempt(alloc, world, stores, from, to, number, attempts)
        }
        Ok(None) => Err(DeskFault::Volume(to)),
        Err(fault) => Err(fault),
    }
}

/// One turn of the copier: both regions are touched, `from` first, and compared, and the first pending task is received at
/// one and settled at the other.
///
/// Where a call on the receiver fails, which isn't the sender, the sender notes an attempt, and at the eighth the task is
/// given up. After each fault the task is pending or in doubt: the volumes decide at the next touch.
pub fn copy_turn<W: World>(
    alloc: Global,
    world: &mut W,
    stores: &mut Vec<Store>,
    from: u32,
    to: u32,
) -> Result<CopyOutcome, DeskFault>
    requires from { from < length stores.old.items }
    requires to { to < length stores.old.items }
    requires volumes { length stores.old.items ≤ (W.shape world.old).volumes }
    requires few { length stores.old.items ≤ 8 }
    requires numbered { AreNumbered stores.old.items }
    requires tied { IsTrue W.tells → AreTied stores.old.items (W.outside world.old) }
    ensures told { IsTrue W.tells → (before : Events) → Keeps before stores.old.items (W.outside world.old)
        → Happened (Copies (AsRead (length stores.old.items) (W.outside world.old)) (W.shape world.old).room from to before result
        (W.faults world.old) (W.faults world.new)) before stores.old.items stores.new.items (W.outside world.old) (W.outside world.new) }
    ensures damage { IsTrue W.tells → IsDamage (length stores.old.items) (W.outside world.old).as_read result }
    ensures count { length stores.new.items ≡ length stores.old.items }
    ensures numbered { AreNumbered stores.new.items }
    ensures tied { IsTrue W.tells → AreTied stores.new.items (W.outside world.new) }
    ensures cause { HasCause (length stores.old.items) result (W.faults world.old) (W.faults world.new) }
    ensures counts { NoneFalls (W.faults world.old) (W.faults world.new) }
    ensures goes { W.goes world.old world.new }
    ensures shape { KeepsShape (W.shape world.old) (W.shape world.new) }
{
    match touch_region(alloc, world, stores, from as usize) {
        Ok(()) => match touch_region(alloc, world, stores, to as usize) {
            Ok(()) => carry_first(alloc, world, stores, from, to),
            Err(fault) => {
                if is_missed(fault, from, to) {
                    miss(alloc, world, stores, from, to)
                } else {
                    Err(fault)
                }
            }
        },
        Err(fault) => Err(fault),
    }
}
