//! Rules that are written in a body's form, each looked at beside those before it.

ghost use Rattle.std.specs.Prelude.{◌≡◌, ◌≤◌, length, IfOk, []};
ghost use Rattle.s3r_rules.specs.Faults.{Gives, GivesBy};
ghost use Rattle.s3r_rules.specs.Reading as read;

use crate::draft::Draft;
use crate::fault::{ConfigFault, Kind};
use crate::rule::{Rule, char_count, has_id, has_priority};
use s3r_names::{BucketName, ClassName, NameFault, TagSet, Text};
use std::alloc::{AllocError, Global};

fn id_text(alloc: Global, number: u32, id: &Option<Text>) -> Result<Text, AllocError>
    ensures { IfOk result (λ text. text ≡ read.id_text number id.now) }
{
    match id {
        Some(id) => id.clone(),
        None => Ok(Text::from_string(format!(in alloc; "rule-{number}")?)),
    }
}

fn id_from(alloc: Global, number: u32, id: &Option<Text>) -> Result<Text, ConfigFault>
    ensures { Gives result (read.id_from number id.now) }
{
    let text = id_text(alloc, number, id)?;
    if char_count(text.as_str()) <= 255 {
        Ok(text)
    } else {
        Err(ConfigFault::InvalidRequest(number, Kind::IdTooLong))
    }
}

fn priority_from(number: u32, priority: Option<u64>) -> Result<u32, ConfigFault>
    ensures { result ≡ read.priority_from number priority }
{
    match priority {
        Some(priority) if priority <= 2_147_483_647 => Ok(priority as u32),
        _ => Err(ConfigFault::InvalidRequest(number, Kind::BadPriority)),
    }
}

fn prefix_from(number: u32, prefix: &Text) -> Result<Text, ConfigFault>
    ensures { Gives result (read.prefix_from number prefix.now) }
{
    if prefix.as_bytes().len() <= 1024 {
        Ok(prefix.clone()?)
    } else {
        Err(ConfigFault::InvalidRequest(number, Kind::PrefixTooLong))
    }
}

fn tags_from(number: u32, tags: &Option<TagSet>) -> Result<TagSet, ConfigFault>
    ensures { Gives result (read.tags_from number tags.now) }
{
    let Some(set) = tags else {
        return Err(ConfigFault::InvalidRequest(number, Kind::BadTags));
    };
    // (it is a set)
    let _tags = set.as_slice();
    Ok(set.clone()?)
}

fn bucket_from(number: u32, bucket: &Option<BucketName>) -> Result<BucketName, ConfigFault>
    ensures { Gives result (read.bucket_from number bucket.now) }
{
    let Some(name) = bucket else {
        return Err(ConfigFault::InvalidRequest(number, Kind::BadArn));
    };
    // (it is a name)
    let _name = name.as_bytes();
    Ok(name.clone()?)
}

fn class_from(
    alloc: Global,
    number: u32,
    class: &Option<Text>,
) -> Result<Option<ClassName>, ConfigFault>
    ensures { Gives result (read.class_from number class.now) }
{
    let Some(name) = class else {
        return Ok(None);
    };
    match ClassName::read(alloc, name.as_bytes()) {
        Ok(class) => Ok(Some(class)),
        Err(NameFault::InvalidStorageClass) => {
            Err(ConfigFault::InvalidRequest(number, Kind::BadClass))
        }
        Err(_) => Err(ConfigFault::OutOfMemory),
    }
}

/// What is wrong of a rule beside those before it.
fn wrong_beside(rule: &Rule, earlier: &[Rule]) -> Option<Kind>
    ensures { result ≡ read.wrong_beside earlier.now rule.now }
{
    if rule.markers && !rule.tags.as_slice().is_empty() {
        Some(Kind::TagWithMarkers)
    } else if has_id(rule, earlier) {
        Some(Kind::SameId)
    } else if has_priority(rule, earlier) {
        Some(Kind::SamePriority)
    } else {
        None
    }
}

fn rule_beside(number: u32, earlier: &[Rule], rule: Rule) -> Result<Rule, ConfigFault>
    ensures { result ≡ read.rule_beside number earlier.now rule }
{
    match wrong_beside(&rule, earlier) {
        None => Ok(rule),
        Some(kind) => {
            drop(rule);
            Err(ConfigFault::InvalidRequest(number, kind))
        }
    }
}

/// The rule of this number that is written so, behind these. InvalidRequest with its number and what is wrong of it first.
#[tactic(auto, unfolding(crate::specs::Reading::rule_from))]
pub fn rule_from(
    alloc: Global,
    number: u32,
    earlier: &[Rule],
    draft: &Draft,
) -> Result<Rule, ConfigFault>
    ensures { Gives result (read.rule_from number earlier.now draft.now) }
{
    let id = id_from(alloc, number, &draft.id)?;
    let priority = priority_from(number, draft.priority)?;
    let prefix = prefix_from(number, &draft.filter.prefix)?;
    let tags = tags_from(number, &draft.filter.tags)?;
    let bucket = bucket_from(number, &draft.destination.bucket)?;
    let class = class_from(alloc, number, &draft.destination.class)?;
    let rule = Rule {
        id,
        priority,
        enabled: draft.enabled,
        prefix,
        tags,
        markers: draft.markers,
        bucket,
        class,
        replica_modifications: draft.replica_modifications,
    };
    rule_beside(number, earlier, rule)
}

/// The rules that are written so, each beside those before it.
pub fn rules_from(alloc: Global, drafts: &[Draft]) -> Result<Vec<Rule>, ConfigFault>
    requires few { length drafts.now ≤ 1000 }
    ensures { GivesBy (λ rules. rules.items) result (read.rules_from [] drafts.now) }
{
    let mut rules = Vec::new(alloc);
    let mut number = 1;
    for draft in drafts {
        let rule = rule_from(alloc, number, rules.as_slice(), draft)?;
        rules.push(rule)?;
        number += 1;
    }
    Ok(rules)
}
