//! The spellings of the commands about a bucket's replication.

ghost use Rattle.std.specs.Prelude.{◌≡◌, ◌≤◌, ◌∷◌, ◌++◌, ℕ, List, length, IsTrue, OnOk, IfOk};
ghost use Rattle.std.specs.List.{list_all};
ghost use Rattle.s3r_names.specs.Bucket.{is_bucket_name};
ghost use Rattle.s3r_rules.specs.declared.rule.Rule.{Rule};
ghost use Rattle.s3r_rules.specs.Rules.{is_config};
ghost use Rattle.s3r_record.specs.Fields.{text, rules_bytes};
ghost use Rattle.s3r_record.specs.Placing.{IsPlaced, has_texts};
ghost use Rattle.s3r_record.specs.Spelling.{spelling, IsCommand, fits_record};
ghost use Rattle.s3r_record.specs.declared.command.Command.{Command};
ghost use Rattle.s3r_record.specs.declared.command.Command.TheVariants as command;

use crate::kinds;
use crate::rule_writing::write_rules;
use crate::writing::write_text;
use s3r_names::{BucketName, Bytes};
use s3r_rules::Config;
use std::alloc::{AllocError, Global};

/// The most bytes of a command's spelling.
const SPELLING_LIMIT: usize = 16_777_216;

fn write_config(out: &mut Vec<u8>, config: &Config, regions: &[u8]) -> Result<(), AllocError>
    requires { length regions.now ≡ length config.now }
    ensures spelled { OnOk result (out.new.items ≡ out.old.items ++ rules_bytes config.now regions.now) }
    ensures lawful { OnOk result (IsTrue (is_config config.now)) }
    ensures texts { OnOk result (IsTrue (list_all has_texts config.now)) }
{
    let rules = config.as_slice();
    out.extend_from_slice(&(rules.len() as u16).to_be_bytes())?;
    write_rules(out, rules, regions)
}

/// Whatever its length.
fn write_replication(
    out: &mut Vec<u8>,
    name: &BucketName,
    config: &Config,
    regions: &[u8],
) -> Result<(), AllocError>
    requires { length regions.now ≡ length config.now }
    ensures spelled { OnOk result
        (out.new.items ≡ out.old.items ++ spelling (Command.SetReplication name.now config.now regions.now)) }
    ensures named { OnOk result (IsTrue (is_bucket_name name.now)) }
    ensures lawful { OnOk result (IsTrue (is_config config.now)) }
    ensures texts { OnOk result (IsTrue (list_all has_texts config.now)) }
{
    out.push(kinds::SET_REPLICATION)?;
    write_text(out, name.as_bytes())?;
    write_config(out, config, regions)
}

pub(crate) fn write_set_replication(
    out: &mut Vec<u8>,
    name: &BucketName,
    config: &Config,
    regions: &Bytes,
) -> Result<(), AllocError>
    requires placed { IsPlaced config.now regions.now }
    requires short { length (spelling (Command.SetReplication name.now config.now regions.now)) ≤ 16777216 }
    ensures spelled { OnOk result
        (out.new.items ≡ out.old.items ++ spelling (Command.SetReplication name.now config.now regions.now)) }
    ensures fits { OnOk result (IsCommand (Command.SetReplication name.now config.now regions.now)) }
{
    write_replication(out, name, config, regions.as_slice())
}

pub(crate) fn write_drop_replication(out: &mut Vec<u8>, name: &BucketName) -> Result<(), AllocError>
    ensures spelled { OnOk result (out.new.items ≡ out.old.items ++ spelling (Command.DropReplication name.now)) }
    ensures fits { OnOk result (IsCommand (Command.DropReplication name.now)) }
{
    out.push(kinds::DROP_REPLICATION)?;
    write_text(out, name.as_bytes())
}

/// Whether a configuration's command is short enough for a record. Regions take the same room whatever they are.
pub fn fits_record(alloc: Global, name: &BucketName, config: &Config) -> Result<bool, AllocError>
    ensures { IfOk result (λ b. b ≡ fits_record name.now config.now) }
{
    let regions: Vec<u8> = config.as_slice().iter().map(|_| 0).collect(alloc)?;
    let mut spelling = Vec::new(alloc);
    write_replication(&mut spelling, name, config, &regions)?;
    Ok(spelling.len() <= SPELLING_LIMIT)
}

/// A configuration that fits a record fits it with any regions.
pub fn regions_keep_length()
    ensures { (name : List ℕ) (rules : List Rule) (regions : List ℕ) → length regions ≡ length rules → IsTrue (fits_record name rules)
        → length (spelling (command.SetReplication name rules regions)) ≤ 16777216 }
{}
