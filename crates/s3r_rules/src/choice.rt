//! Which rule decides a copy (S3 User Guide, "Replication configuration").

ghost use Rattle.std.specs.Prelude.{◌≡◌, option_map, find};
ghost use Rattle.std.specs.Str.{bytes_eq};
ghost use Rattle.std.specs.List.{list_all};
ghost use Rattle.s3r_rules.specs.Choice.{has_tag, matches, begins, is_to, fits, greatest, greatest_from, with_priority, choice};
ghost use Rattle.s3r_rules.specs.Writes.{seen};
ghost use Rattle.s3r_rules.specs.Choice as asked;

use crate::config::Config;
use crate::rule::Rule;
use s3r_names::{BucketName, Key, Tag, TagSet};

/// What is to be copied.
#[derive(Clone, Copy)]
pub enum Write<'a> {
    /// A version of this key with these tags.
    Put(&'a Key, &'a TagSet),
    /// A delete marker of this key.
    Marker(&'a Key),
    /// New tags or a new hold of a version of this key.
    Meta(&'a Key),
}

fn has_tag(tags: &[Tag], tag: &Tag) -> bool
    ensures { result ≡ has_tag tags.now tag.now }
{
    tags.iter()
        .any(|t| t.key == tag.key && t.value == tag.value)
}

fn has_tags(tags: &[Tag], wanted: &[Tag]) -> bool
    ensures { result ≡ list_all (has_tag tags.now) wanted.now }
{
    wanted.iter().all(|tag| has_tag(tags, tag))
}

fn begins(rule: &Rule, key: &Key) -> bool
    ensures { result ≡ begins key.now rule.now }
{
    key.as_bytes().starts_with(rule.prefix.as_bytes())
}

/// Whether the rule's prefix begins the key, and each of its tags is among the tags.
pub fn matches(rule: &Rule, key: &Key, tags: &TagSet) -> bool
    ensures { result ≡ matches key.now tags.now rule.now }
{
    begins(rule, key) && has_tags(tags.as_slice(), rule.tags.as_slice())
}

/// Whether the rule is enabled, and to this bucket.
fn is_to(rule: &Rule, to: &BucketName) -> bool
    ensures { result ≡ is_to to.now rule.now }
{
    rule.enabled && rule.bucket == *to
}

pub(crate) fn fits(rule: &Rule, write: &Write, to: &BucketName) -> bool
    ensures { result ≡ fits to.now (seen write.now) rule.now }
{
    if !is_to(rule, to) {
        return false;
    }
    match write {
        Write::Put(key, tags) => matches(rule, key, tags),
        Write::Marker(key) => rule.tags.as_slice().is_empty() && begins(rule, key),
        Write::Meta(key) => begins(rule, key),
    }
}

/// The greatest priority of the rules that fit.
fn greatest(rules: &[Rule], write: &Write, to: &BucketName) -> Option<u32>
    ensures { result ≡ greatest (fits to.now (seen write.now)) rules.now }
{
    let mut most: Option<u32> = None;
    for rule in rules {
        if fits(rule, write, to) {
            most = above(most, rule.priority);
        }
    }
    most
}

fn above(most: Option<u32>, priority: u32) -> Option<u32>
    ensures { result ≡ asked.above most priority }
{
    match most {
        Some(most) if most > priority => Some(most),
        _ => Some(priority),
    }
}

/// The first rule that fits and has this priority.
fn with_priority<'a>(
    rules: &'a [Rule],
    write: &Write,
    to: &BucketName,
    most: u32,
) -> Option<&'a Rule>
    ensures { option_map (λ rule. rule.now) result ≡ find (with_priority (fits to.now (seen write.now)) most) rules.now }
{
    rules
        .iter()
        .find(|rule| fits(rule, write, to) && rule.priority == most)
}

fn choice<'a>(rules: &'a [Rule], write: &Write, to: &BucketName) -> Option<&'a Rule>
    ensures { option_map (λ rule. rule.now) result ≡ choice (fits to.now (seen write.now)) rules.now }
{
    match greatest(rules, write, to) {
        Some(most) => with_priority(rules, write, to, most),
        None => None,
    }
}

/// The rule by which a version with these tags is copied to a bucket: of the enabled ones that match, the one of greatest
/// priority.
pub fn choice_put<'a>(
    config: &'a Config,
    key: &Key,
    tags: &TagSet,
    to: &BucketName,
) -> Option<&'a Rule>
    ensures { option_map (λ rule. rule.now) result ≡ asked.choice_put config.now key.now tags.now to.now }
{
    choice(config.as_slice(), &Write::Put(key, tags), to)
}

/// The same for a delete marker, among the rules without tags.
pub fn choice_marker<'a>(config: &'a Config, key: &Key, to: &BucketName) -> Option<&'a Rule>
    ensures { option_map (λ rule. rule.now) result ≡ asked.choice_marker config.now key.now to.now }
{
    choice(config.as_slice(), &Write::Marker(key), to)
}

/// The same for new tags or a new hold, with each rule's tags left aside.
pub fn choice_meta<'a>(config: &'a Config, key: &Key, to: &BucketName) -> Option<&'a Rule>
    ensures { option_map (λ rule. rule.now) result ≡ asked.choice_meta config.now key.now to.now }
{
    choice(config.as_slice(), &Write::Meta(key), to)
}
