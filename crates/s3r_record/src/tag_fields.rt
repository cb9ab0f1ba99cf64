//! Tags, read from the front of what is left.

ghost use Rattle.std.specs.Prelude.{◌≡◌, None, option_copied, Ok};
ghost use Rattle.std.specs.Int.{w16};
ghost use Rattle.s3r_names.specs.Tags.{is_tag_key, is_tag_value};
ghost use Rattle.s3r_record.specs.declared.tag_rule.TagRule.TheVariants as allowed;
ghost use Rattle.s3r_record.specs.Reading.{Gives, unread, tested_at};
ghost use Rattle.s3r_record.specs.ReadingTexts.{passed};
ghost use Rattle.s3r_record.specs.ReadingTags.{may_be_key, may_be_value, most_tags, rises_above, key_follows, tag_at, tags_after, tags_at};

use crate::fault::RecordFault;
use crate::fields::{byte_of, text_of};
use crate::reading::Rest;
use crate::tag_rule::TagRule;
use crate::tags::Tags;
use crate::text_fields::text_in;
use s3r_names::{NameFault, Tag, TagSet, Text, is_key_below};
use std::alloc::Global;

fn most_tags(rule: TagRule) -> u8
    ensures { result ≡ most_tags rule }
{
    match rule {
        TagRule::Lawful => 10,
        TagRule::Any => 255,
    }
}

/// Whether the key may stand after that tag.
fn rises_above(before: Option<&Tag>, key: &[u8]) -> bool
    ensures { result ≡ rises_above (option_copied before.entry) key.now }
{
    match before {
        None => true,
        Some(tag) => is_key_below(tag.key.as_bytes(), key),
    }
}

fn lawful_key(alloc: Global, bytes: &[u8]) -> Result<Option<Text>, RecordFault>
    ensures { Gives (λ key. key) result (Ok (passed is_tag_key bytes.now)) }
{
    match Tag::read_key(alloc, bytes) {
        Ok(key) => Ok(Some(key)),
        Err(NameFault::OutOfMemory) => Err(RecordFault::OutOfMemory),
        Err(_) => Ok(None),
    }
}

fn lawful_value(alloc: Global, bytes: &[u8]) -> Result<Option<Text>, RecordFault>
    ensures { Gives (λ value. value) result (Ok (passed is_tag_value bytes.now)) }
{
    match Tag::read_value(alloc, bytes) {
        Ok(value) => Ok(Some(value)),
        Err(NameFault::OutOfMemory) => Err(RecordFault::OutOfMemory),
        Err(_) => Ok(None),
    }
}

fn key_in(alloc: Global, rule: TagRule, bytes: &[u8]) -> Result<Option<Text>, RecordFault>
    ensures { Gives (λ key. key) result (Ok (passed (may_be_key rule) bytes.now)) }
{
    match rule {
        TagRule::Lawful => lawful_key(alloc, bytes),
        TagRule::Any => text_in(alloc, bytes),
    }
}

fn value_in(alloc: Global, rule: TagRule, bytes: &[u8]) -> Result<Option<Text>, RecordFault>
    ensures { Gives (λ value. value) result (Ok (passed (may_be_value rule) bytes.now)) }
{
    match rule {
        TagRule::Lawful => lawful_value(alloc, bytes),
        TagRule::Any => text_in(alloc, bytes),
    }
}

#[tactic(auto, unfolding(crate::specs::Reading::tested_at))]
fn tag_key_of<'a>(
    alloc: Global,
    rule: TagRule,
    before: Option<&Tag>,
    left: Rest<'a>,
) -> Result<(Text, Rest<'a>), RecordFault>
    ensures { Gives (λ x. (x.0, unread x.1)) result (tested_at w16 (key_follows rule (option_copied before.entry)) (unread left.entry)) }
{
    let (text, rest) = text_of(left)?;
    if !rises_above(before, text) {
        return Err(left.fault());
    }
    match key_in(alloc, rule, text)? {
        Some(key) => Ok((key, rest)),
        None => Err(left.fault()),
    }
}

#[tactic(auto, unfolding(crate::specs::Reading::tested_at))]
fn tag_value_of(
    alloc: Global,
    rule: TagRule,
    left: Rest<'_>,
) -> Result<(Text, Rest<'_>), RecordFault>
    ensures { Gives (λ x. (x.0, unread x.1)) result (tested_at w16 (may_be_value rule) (unread left.entry)) }
{
    let (text, rest) = text_of(left)?;
    match value_in(alloc, rule, text)? {
        Some(value) => Ok((value, rest)),
        None => Err(left.fault()),
    }
}

#[tactic(auto, unfolding(crate::specs::ReadingTags::tag_at))]
fn tag_of<'a>(
    alloc: Global,
    rule: TagRule,
    before: Option<&Tag>,
    left: Rest<'a>,
) -> Result<(Tag, Rest<'a>), RecordFault>
    ensures { Gives (λ x. (x.0, unread x.1)) result (tag_at rule (option_copied before.entry) (unread left.entry)) }
{
    let (key, rest) = tag_key_of(alloc, rule, before, left)?;
    let (value, rest) = tag_value_of(alloc, rule, rest)?;
    Ok((Tag { key, value }, rest))
}

/// So many tags.
fn tags_after(
    alloc: Global,
    rule: TagRule,
    count: u8,
    left: Rest<'_>,
) -> Result<(Vec<Tag>, Rest<'_>), RecordFault>
    ensures { Gives (λ x. (x.0.items, unread x.1)) result (tags_after rule count None (unread left.entry)) }
{
    let mut tags = Vec::new(alloc);
    let mut rest = left;
    for _ in 0..count {
        let (tag, after) = tag_of(alloc, rule, tags.last(), rest)?;
        tags.push(tag)?;
        rest = after;
    }
    Ok((tags, rest))
}

#[tactic(auto, unfolding(crate::specs::ReadingTags::tags_at))]
pub(crate) fn tags_of(
    alloc: Global,
    rule: TagRule,
    left: Rest<'_>,
) -> Result<(Tags, Rest<'_>), RecordFault>
    ensures { Gives (λ x. (x.0, unread x.1)) result (tags_at rule (unread left.entry)) }
{
    let (count, rest) = byte_of(most_tags(rule), left)?;
    let (tags, rest) = tags_after(alloc, rule, count, rest)?;
    Ok((Tags::from_vec(tags), rest))
}

pub(crate) fn tag_set_of(alloc: Global, left: Rest<'_>) -> Result<(TagSet, Rest<'_>), RecordFault>
    ensures { Gives (λ x. (x.0, unread x.1)) result (tags_at allowed.Lawful (unread left.entry)) }
{
    let (tags, rest) = tags_of(alloc, TagRule::Lawful, left)?;
    match TagSet::from_tags(tags.into_vec()) {
        Ok(set) => Ok((set, rest)),
        Err(_) => unreachable!(),
    }
}
