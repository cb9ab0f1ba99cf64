//! A configuration's rules, read from the front of what is left, each beside its bucket's region.

ghost use Rattle.std.specs.Prelude.{◌≡◌, Ok, []};
ghost use Rattle.std.specs.List.{list_all, zip};
ghost use Rattle.s3r_names.specs.Bucket.{is_bucket_name};
ghost use Rattle.s3r_names.specs.Tags.{is_tag_set};
ghost use Rattle.s3r_rules.specs.Reading.{rule_from};
ghost use Rattle.s3r_record.specs.Placing.{have_one_region};
ghost use Rattle.s3r_record.specs.Reading.{Gives, unread, place};
ghost use Rattle.s3r_record.specs.ReadingRules.{front_at, back_at, draft_of, or_at, placed_beside, rule_at, rules_after, count_at, rules_at};
ghost use Rattle.s3r_record.specs.ReadingTexts.{passed};

use crate::fault::RecordFault;
use crate::fields::{flag_of, u16_of, u32_of};
use crate::id_fields::region_of;
use crate::reading::Rest;
use crate::rule_parts::{Back, Front};
use crate::tag_fields::tags_of;
use crate::tag_rule::TagRule;
use crate::tags::Tags;
use crate::text_fields::{any_text_of, option_text_of};
use s3r_names::{BucketName, Bytes, NameFault, TagSet, Text};
use s3r_rules::{Config, ConfigFault, Destination, Draft, Filter, Rule, rule_from};
use std::alloc::Global;

/// The most rules of a configuration.
const RULE_LIMIT: u16 = 1000;

#[tactic(auto, unfolding(crate::specs::ReadingRules::front_at))]
fn front_of(alloc: Global, left: Rest<'_>) -> Result<(Front, Rest<'_>), RecordFault>
    ensures { Gives (λ x. (x.0, unread x.1)) result (front_at (unread left.entry)) }
{
    let (id, rest) = any_text_of(alloc, left)?;
    let (priority, rest) = u32_of(rest)?;
    let (enabled, rest) = flag_of(rest)?;
    let (prefix, rest) = any_text_of(alloc, rest)?;
    let (tags, rest) = tags_of(alloc, TagRule::Any, rest)?;
    let (markers, rest) = flag_of(rest)?;
    let (bucket, rest) = any_text_of(alloc, rest)?;
    let front = Front {
        id,
        priority,
        enabled,
        prefix,
        tags,
        markers,
        bucket,
    };
    Ok((front, rest))
}

#[tactic(auto, unfolding(crate::specs::ReadingRules::back_at))]
fn back_of(alloc: Global, left: Rest<'_>) -> Result<(Back, Rest<'_>), RecordFault>
    ensures { Gives (λ x. (x.0, unread x.1)) result (back_at (unread left.entry)) }
{
    let (region, rest) = region_of(left)?;
    let (class, rest) = option_text_of(alloc, rest)?;
    let (replica_modifications, rest) = flag_of(rest)?;
    let back = Back {
        region,
        class,
        replica_modifications,
    };
    Ok((back, rest))
}

fn set_in(tags: Tags) -> Option<TagSet>
    ensures { result ≡ passed is_tag_set tags }
{
    match TagSet::from_tags(tags.into_vec()) {
        Ok(set) => Some(set),
        Err(_) => None,
    }
}

fn name_in(alloc: Global, text: &Text) -> Result<Option<BucketName>, RecordFault>
    ensures { Gives (λ name. name) result (Ok (passed is_bucket_name text.now)) }
{
    match BucketName::read(alloc, text.as_bytes()) {
        Ok(name) => Ok(Some(name)),
        Err(NameFault::OutOfMemory) => Err(RecordFault::OutOfMemory),
        Err(_) => Ok(None),
    }
}

fn draft_of(alloc: Global, front: Front, back: Back) -> Result<Draft, RecordFault>
    ensures { Gives (λ draft. draft) result (Ok (draft_of front back)) }
{
    let bucket = name_in(alloc, &front.bucket)?;
    Ok(Draft {
        id: Some(front.id),
        priority: Some(u64::from(front.priority)),
        enabled: front.enabled,
        filter: Filter {
            prefix: front.prefix,
            tags: set_in(front.tags),
        },
        markers: front.markers,
        destination: Destination {
            bucket,
            class: back.class,
        },
        replica_modifications: back.replica_modifications,
    })
}

/// The rule that is written so, behind these. What is wrong of it is wrong where it begins.
fn rule_beside(
    alloc: Global,
    rules: &[Rule],
    draft: &Draft,
    left: Rest<'_>,
) -> Result<Rule, RecordFault>
    ensures { Gives (λ rule. rule) result (or_at (place (unread left.entry)) (rule_from 0 rules.now draft.now)) }
{
    match rule_from(alloc, 0, rules, draft) {
        Ok(rule) => Ok(rule),
        Err(ConfigFault::OutOfMemory) => Err(RecordFault::OutOfMemory),
        Err(_) => Err(left.fault()),
    }
}

/// Whether the earlier rules to the same bucket have this region.
fn has_their_region(rules: &[Rule], regions: &[u8], rule: &Rule, region: u8) -> bool
    ensures { result ≡ list_all (λ other. have_one_region other (rule.now, region)) (zip rules.now regions.now) }
{
    rules.iter().zip(regions).all(|(other, theirs)| other.bucket != rule.bucket
        || *theirs == region)
}

/// The rule beside its region, if that is told of it.
fn placed_beside(
    rules: &[Rule],
    regions: &[u8],
    rule: Rule,
    region: u8,
    at_region: Rest<'_>,
) -> Result<(Rule, u8), RecordFault>
    ensures { Gives (λ x. x) result (placed_beside (zip rules.now regions.now) (rule, region) (place (unread at_region.entry))) }
{
    if has_their_region(rules, regions, &rule, region) {
        Ok((rule, region))
    } else {
        drop(rule);
        Err(at_region.fault())
    }
}

#[tactic(auto, unfolding(crate::specs::ReadingRules::rule_at))]
fn rule_of<'a>(
    alloc: Global,
    rules: &[Rule],
    regions: &[u8],
    left: Rest<'a>,
) -> Result<(Rule, u8, Rest<'a>), RecordFault>
    ensures { Gives (λ x. ((x.0, x.1), unread x.2)) result (rule_at rules.now regions.now (unread left.entry)) }
{
    let (front, at_region) = front_of(alloc, left)?;
    let (back, rest) = back_of(alloc, at_region)?;
    let region = back.region;
    let draft = draft_of(alloc, front, back)?;
    let rule = rule_beside(alloc, rules, &draft, left)?;
    let (rule, region) = placed_beside(rules, regions, rule, region, at_region)?;
    Ok((rule, region, rest))
}

/// So many rules.
fn rules_after(
    alloc: Global,
    count: u16,
    left: Rest<'_>,
) -> Result<(Vec<Rule>, Vec<u8>, Rest<'_>), RecordFault>
    ensures { Gives (λ x. ((x.0.items, x.1.items), unread x.2)) result (rules_after count [] [] (unread left.entry)) }
{
    let mut rules = Vec::new(alloc);
    let mut regions = Vec::new(alloc);
    let mut rest = left;
    for _ in 0..count {
        let (rule, region, after) = rule_of(alloc, &rules, &regions, rest)?;
        rules.push(rule)?;
        regions.push(region)?;
        rest = after;
    }
    Ok((rules, regions, rest))
}

#[tactic(auto, unfolding(crate::specs::ReadingRules::count_at))]
fn count_of(left: Rest<'_>) -> Result<(u16, Rest<'_>), RecordFault>
    ensures { Gives (λ x. (x.0, unread x.1)) result (count_at (unread left.entry)) }
{
    let (count, rest) = u16_of(left)?;
    if 1 <= count && count <= RULE_LIMIT {
        Ok((count, rest))
    } else {
        Err(left.fault())
    }
}

/// A configuration, and the region of each rule's bucket.
#[tactic(auto, unfolding(crate::specs::ReadingRules::rules_at))]
pub(crate) fn rules_of(
    alloc: Global,
    left: Rest<'_>,
) -> Result<(Config, Bytes, Rest<'_>), RecordFault>
    ensures { Gives (λ x. ((x.0, x.1), unread x.2)) result (rules_at (unread left.entry)) }
{
    let (count, rest) = count_of(left)?;
    let (rules, regions, rest) = rules_after(alloc, count, rest)?;
    match Config::from_rules(rules) {
        Some(config) => Ok((config, Bytes::from_vec(regions), rest)),
        None => unreachable!(),
    }
}
