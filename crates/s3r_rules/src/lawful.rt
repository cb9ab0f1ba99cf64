//! The test that rules are a configuration.

ghost use Rattle.std.specs.Prelude.{◌≡◌, true, not};
ghost use Rattle.s3r_rules.specs.Rules.{is_class, is_rule, has_id, has_priority, are_apart, is_config};
ghost use Rattle.std.specs.List.{list_all};

use crate::rule::{Rule, char_count};
use s3r_names::ClassName;

/// The most rules of a configuration.
pub(crate) const LIMIT: usize = 1000;

/// A class is one by its type.
fn class_is_one(class: &Option<ClassName>) -> bool
    ensures holds { result ≡ true }
    ensures lawful { is_class class.now ≡ true }
{
    if let Some(name) = class {
        let _name = name.as_bytes();
    }
    true
}

/// Whether the rule meets what the types of its fields leave open.
fn is_rule(rule: &Rule) -> bool
    ensures { result ≡ is_rule rule.now }
{
    let tags = rule.tags.as_slice();
    let _bucket = rule.bucket.as_bytes();
    char_count(rule.id.as_str()) <= 255
        && rule.priority <= 2_147_483_647
        && rule.prefix.as_bytes().len() <= 1024
        && class_is_one(&rule.class)
        && !(rule.markers && !tags.is_empty())
}

fn are_rules(rules: &[Rule]) -> bool
    ensures { result ≡ list_all is_rule rules.now }
{
    rules.iter().all(|rule| is_rule(rule))
}

fn is_id_free(rule: &Rule, others: &[Rule]) -> bool
    ensures { result ≡ list_all (λ other. not (has_id other rule.now)) others.now }
{
    others.iter().all(|other| !(other.id == rule.id))
}

fn have_own_ids(rules: &[Rule]) -> bool
    ensures { result ≡ are_apart has_id rules.now }
{
    match rules {
        [] => true,
        [rule, rest @ ..] => is_id_free(rule, rest) && have_own_ids(rest),
    }
}

fn is_priority_free(rule: &Rule, others: &[Rule]) -> bool
    ensures { result ≡ list_all (λ other. not (has_priority other rule.now)) others.now }
{
    others.iter().all(|other| !(other.bucket == rule.bucket && other.priority == rule.priority))
}

fn have_own_priorities(rules: &[Rule]) -> bool
    ensures { result ≡ are_apart has_priority rules.now }
{
    match rules {
        [] => true,
        [rule, rest @ ..] => is_priority_free(rule, rest) && have_own_priorities(rest),
    }
}

/// Whether the rules are a configuration.
pub(crate) fn is_config(rules: &[Rule]) -> bool
    ensures { result ≡ is_config rules.now }
{
    1 <= rules.len()
        && rules.len() <= LIMIT
        && are_rules(rules)
        && have_own_ids(rules)
        && have_own_priorities(rules)
}
