//! A configuration's rules, written at the end of a spelling.

ghost use Rattle.std.specs.Prelude.{◌≡◌, ◌≤◌, ◌<◌, ◌^◌, ◌++◌, length, nat_le, true, IsTrue, OnOk};
ghost use Rattle.std.specs.Int.{w32, to_be_bytes};
ghost use Rattle.std.specs.List.{list_all, flat_map, zip};
ghost use Rattle.std.specs.Str.{chars, is_utf8};
ghost use Rattle.s3r_rules.specs.Rules.{is_rule};
ghost use Rattle.s3r_record.specs.Fields.{text, flag, tags_bytes, option_text, rule_bytes};
ghost use Rattle.s3r_record.specs.Placing.{has_texts};

use crate::writing::{write_flag, write_tags, write_text};
use s3r_names::ClassName;
use s3r_rules::Rule;
use std::alloc::AllocError;

/// Text is known to be UTF-8 here, as its type says.
fn write_str(out: &mut Vec<u8>, word: &str) -> Result<(), AllocError>
    requires { length word.now < 2 ^ 16 }
    ensures spelled { OnOk result (out.new.items ≡ out.old.items ++ text word.now) }
    ensures utf8 { OnOk result (IsTrue (is_utf8 word.now)) }
{
    write_text(out, word.as_bytes())
}

fn write_rule_id(out: &mut Vec<u8>, word: &str) -> Result<(), AllocError>
    requires { nat_le (length (chars word.now)) 255 ≡ true }
    ensures spelled { OnOk result (out.new.items ≡ out.old.items ++ text word.now) }
    ensures utf8 { OnOk result (IsTrue (is_utf8 word.now)) }
{
    write_str(out, word)
}

fn write_class(out: &mut Vec<u8>, class: &Option<ClassName>) -> Result<(), AllocError>
    ensures { OnOk result (out.new.items ≡ out.old.items ++ option_text class.now) }
{
    match class {
        None => write_flag(out, false),
        Some(name) => {
            write_flag(out, true)?;
            write_text(out, name.as_bytes())
        }
    }
}

/// Its fields before the region.
fn write_front(out: &mut Vec<u8>, rule: &Rule) -> Result<(), AllocError>
    requires { IsTrue (is_rule rule.now) }
    ensures spelled { OnOk result (out.new.items ≡ out.old.items
        ++ (text rule.now.id
        ++ to_be_bytes w32 rule.now.priority
        ++ flag rule.now.enabled
        ++ text rule.now.prefix
        ++ tags_bytes rule.now.tags
        ++ flag rule.now.markers
        ++ text rule.now.bucket)) }
    ensures texts { OnOk result (IsTrue (has_texts rule.now)) }
{
    write_rule_id(out, rule.id.as_str())?;
    out.extend_from_slice(&rule.priority.to_be_bytes())?;
    write_flag(out, rule.enabled)?;
    write_str(out, rule.prefix.as_str())?;
    write_tags(out, &rule.tags)?;
    write_flag(out, rule.markers)?;
    write_text(out, rule.bucket.as_bytes())
}

fn write_rule(out: &mut Vec<u8>, rule: &Rule, region: u8) -> Result<(), AllocError>
    requires { IsTrue (is_rule rule.now) }
    ensures spelled { OnOk result (out.new.items ≡ out.old.items ++ rule_bytes (rule.now, region)) }
    ensures texts { OnOk result (IsTrue (has_texts rule.now)) }
{
    write_front(out, rule)?;
    out.push(region)?;
    write_class(out, &rule.class)?;
    write_flag(out, rule.replica_modifications)
}

/// Each rule beside its region.
pub(crate) fn write_rules(
    out: &mut Vec<u8>,
    rules: &[Rule],
    regions: &[u8],
) -> Result<(), AllocError>
    requires ruled { IsTrue (list_all is_rule rules.now) }
    requires paired { length regions.now ≡ length rules.now }
    ensures spelled { OnOk result (out.new.items ≡ out.old.items ++ flat_map rule_bytes (zip rules.now regions.now)) }
    ensures texts { OnOk result (IsTrue (list_all has_texts rules.now)) }
{
    for (index, rule) in rules.iter().enumerate() {
        write_rule(out, rule, regions[index])?;
    }
    Ok(())
}
