//! A configuration's body, read and printed.

ghost use Rattle.std.specs.Prelude.{◌≡◌, IfOk, Ok, string_bytes};
ghost use Rattle.serde_json.specs.View.{view};
ghost use Rattle.serde_json.specs.Written.{compact_text};
ghost use Rattle.s3r_json.specs.Bodies.{body_value};
ghost use Rattle.s3r_rules.specs.Faults.{Gives, GivesBy, or_malformed};
ghost use Rattle.s3r_rules_json.specs.Printing.{config_data};
ghost use Rattle.s3r_rules_json.specs.Reading.{config_body};

use crate::drafts::drafts_in;
use crate::printing::config_value;
use s3r_json::{BodyFault, read_value};
use s3r_rules::{Config, ConfigFault};
use serde_json::Value;
use std::alloc::{AllocError, Global};

fn value_of(alloc: Global, body: &[u8]) -> Result<Value, ConfigFault>
    ensures { GivesBy view result (or_malformed (body_value body.now)) }
{
    match read_value(alloc, body) {
        Ok(value) => Ok(value),
        Err(BodyFault::OutOfMemory) => Err(ConfigFault::OutOfMemory),
        Err(_) => Err(ConfigFault::MalformedJson),
    }
}

/// The configuration that a body is. MalformedJson where it isn't of a configuration's form, else InvalidRequest with
/// the first rule that is wrong, and what is wrong of it first.
pub fn read_config(alloc: Global, body: &[u8]) -> Result<Config, ConfigFault>
    ensures { Gives result (config_body body.now) }
{
    let value = value_of(alloc, body)?;
    let drafts = drafts_in(alloc, &value)?;
    Config::from_drafts(alloc, &drafts)
}

/// A configuration's text, in which each rule has its members by name: the shortest filter, and
/// `SourceSelectionCriteria` only where changes of replicas are copied.
pub fn print_config(alloc: Global, config: &Config) -> Result<String, AllocError>
    ensures text { IfOk result (λ text. string_bytes text ≡ compact_text (config_data config.now)) }
    ensures reads { IfOk result (λ text. config_body (string_bytes text) ≡ Ok config.now) }
{
    config_value(alloc, config.as_slice())?.to_string(alloc)
}
