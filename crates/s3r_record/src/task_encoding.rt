//! The spellings of the commands about tasks.

ghost use Rattle.std.specs.Prelude.{◌≡◌, ◌∷◌, ◌++◌, OnOk};
ghost use Rattle.s3r_record.specs.Fields.{number_bytes, outcome_byte};
ghost use Rattle.s3r_record.specs.Spelling.{spelling, IsCommand, IsTask, EffectMeetsLimits};
ghost use Rattle.s3r_record.specs.declared.command.Command.{Command};

use crate::command::Command;
use crate::effect::Effect;
use crate::effect_encoding::write_effect;
use crate::kinds;
use crate::writing::write_number;
use s3r_names::{Bytes, Outcome, Reason};
use std::alloc::AllocError;

/// What every command about a task begins with.
fn write_task(out: &mut Vec<u8>, kind: u8, region: u8, number: u64) -> Result<(), AllocError>
    ensures { OnOk result (out.new.items ≡ out.old.items ++ kind ∷ region ∷ number_bytes number) }
{
    out.push(kind)?;
    out.push(region)?;
    write_number(out, number)
}

fn outcome_byte(outcome: Outcome) -> u8
    ensures { result ≡ outcome_byte outcome }
{
    match outcome {
        Outcome::Applied => 0,
        Outcome::Refused(Reason::NoSuchDestination) => 1,
        Outcome::Refused(Reason::DestinationSuspended) => 2,
        Outcome::Refused(Reason::VersionRemoved) => 3,
        Outcome::Refused(Reason::NoSuchVersion) => 4,
        Outcome::Refused(Reason::DestinationNotLocked) => 5,
    }
}

pub(crate) fn write_receive(
    out: &mut Vec<u8>,
    from: u8,
    number: u64,
    effect: &Effect<Bytes>,
) -> Result<(), AllocError>
    requires task { IsTask from number }
    requires limits { EffectMeetsLimits effect.now }
    ensures spelled { OnOk result (out.new.items ≡ out.old.items ++ spelling (Command.Receive from number effect.now)) }
    ensures fits { OnOk result (IsCommand (Command.Receive from number effect.now)) }
{
    write_task(out, kinds::RECEIVE, from, number)?;
    write_effect(out, effect)
}

pub(crate) fn write_settle(
    out: &mut Vec<u8>,
    to: u8,
    number: u64,
    outcome: Outcome,
) -> Result<(), AllocError>
    requires { IsTask to number }
    ensures spelled { OnOk result (out.new.items ≡ out.old.items ++ spelling (Command.Settle to number outcome)) }
    ensures fits { OnOk result (IsCommand (Command.Settle to number outcome)) }
{
    write_task(out, kinds::SETTLE, to, number)?;
    out.push(outcome_byte(outcome))?;
    Ok(())
}

pub(crate) fn write_attempt(out: &mut Vec<u8>, to: u8, number: u64) -> Result<(), AllocError>
    requires { IsTask to number }
    ensures spelled { OnOk result (out.new.items ≡ out.old.items ++ spelling (Command.Attempt to number)) }
    ensures fits { OnOk result (IsCommand (Command.Attempt to number)) }
{
    write_task(out, kinds::ATTEMPT, to, number)
}
