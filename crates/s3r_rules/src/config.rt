//! A configuration.
ghost use Rattle.std.specs.Prelude.{◌≡◌, ◌≤◌, length, []};
ghost use Rattle.s3r_rules.specs.Faults.{Gives};
ghost use Rattle.s3r_rules.specs.Reading.{rules_from, config_from};

use crate::draft::Draft;
use crate::fault::{ConfigFault, Kind};
use crate::lawful::{LIMIT, is_config};
use crate::reading::rules_from;
use crate::rule::Rule;
use std::alloc::{AllocError, Global};
use std::marker::Model;

/// The replication rules of a bucket in their order, seen as their list: 1 to 1,000, no two with one ID, nor with one
/// priority to the same bucket.
#[derive(Drop)]
pub struct Config {
    rules: Vec<Rule>,
}

impl Model for Config {
    ghost use Rattle.std.specs.Prelude.{List, IsTrue};
    ghost use Rattle.s3r_rules.specs.declared.rule.Rule.{Rule};
    ghost use Rattle.s3r_rules.specs.Rules.{is_config};

    ghost Value = { List Rule };

    ghost view = { λ config. config.rules.items };

    ghost invariant = { λ config. IsTrue (is_config config.rules.items) };
}

impl Config {
    ghost use Rattle.std.specs.Prelude.{◌≡◌, if◌then◌else◌, Some, None, IsTrue};
    ghost use Rattle.s3r_rules.specs.Rules.{is_config};
    ghost use Rattle.s3r_rules.specs.Faults.{Gives};
    ghost use Rattle.s3r_rules.specs.Reading.{config_from};

    /// The configuration of these rules, if they are one.
    pub fn from_rules(rules: Vec<Rule>) -> Option<Config>
        ensures { result ≡ (if is_config rules.items then Some rules.items else None) }
    {
        if !is_config(&rules) {
            return None;
        }
        Some(Config { rules })
    }

    /// The configuration of rules that are written so. InvalidRequest with the first rule that is wrong, and what is wrong
    /// of it first; rule 0 where there is no rule, or more than 1,000.
    pub fn from_drafts(alloc: Global, drafts: &[Draft]) -> Result<Config, ConfigFault>
        ensures { Gives result (config_from drafts.now) }
    {
        config_from(alloc, drafts)
    }

    pub fn as_slice(&self) -> &[Rule]
        ensures listed { result.now ≡ self.now }
        ensures lawful { IsTrue (is_config self.now) }
    {
        self.rules.as_slice()
    }
}

/// The configuration of 1 to 1,000 rules that are written so.
fn config_with(alloc: Global, drafts: &[Draft]) -> Result<Config, ConfigFault>
    requires some { 1 ≤ length drafts.now }
    requires few { length drafts.now ≤ 1000 }
    ensures { Gives result (rules_from [] drafts.now) }
{
    let rules = rules_from(alloc, drafts)?;
    Ok(Config { rules })
}

fn config_from(alloc: Global, drafts: &[Draft]) -> Result<Config, ConfigFault>
    ensures { Gives result (config_from drafts.now) }
{
    if drafts.is_empty() {
        return Err(ConfigFault::InvalidRequest(0, Kind::NoRule));
    }
    if drafts.len() > LIMIT {
        return Err(ConfigFault::InvalidRequest(0, Kind::TooManyRules));
    }
    config_with(alloc, drafts)
}

impl Clone for Config {
    ghost use Rattle.std.specs.Prelude.{◌≡◌};

    ghost is_clone = { λ config copy. copy ≡ config };

    fn clone(&self) -> Result<Config, AllocError> {
        Ok(Config {
            rules: self.rules.clone()?,
        })
    }
}
