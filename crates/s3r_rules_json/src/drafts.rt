//! The form of a configuration's body (S3 API Reference, ReplicationConfiguration). What Amazon's clients send besides,
//! as `Role`, is let pass and not looked at.

ghost use Rattle.std.specs.Prelude.{◌≡◌, Ok};
ghost use Rattle.serde_json.specs.View.{view, items_view};
ghost use Rattle.serde_json.specs.Find.{as_number};
ghost use Rattle.s3r_names.specs.Arn.{arn_of};
ghost use Rattle.s3r_rules.specs.Faults.{Gives, GivesBy};
ghost use Rattle.s3r_rules_json.specs.Drafts as form;

use s3r_json::{
    flag_of, has_only, list_at, optional_text_at, status_at, tag_at, tag_list_at, text_at,
};
use s3r_names::{Arn, BucketName, NameFault, Tag, TagSet, Text};
use s3r_rules::{ConfigFault, Destination, Draft, Filter};
use serde_json::Value;
use std::alloc::Global;

fn optional_text(alloc: Global, value: &Value, name: &str) -> Result<Option<Text>, ConfigFault>
    ensures { Gives result (form.optional_text name.now (view value.now)) }
{
    match optional_text_at(value, name) {
        Some(Some(text)) => Ok(Some(Text::from_str(alloc, text)?)),
        Some(None) => Ok(None),
        None => Err(ConfigFault::MalformedJson),
    }
}

/// A member that says Enabled or Disabled, Disabled where it is missing.
fn status_of(value: &Value, name: &str) -> Result<bool, ConfigFault>
    ensures { result ≡ form.status_at name.now (view value.now) }
{
    let Some(member) = value.get(name) else {
        return Ok(false);
    };
    match status_at(member, "Enabled", "Disabled") {
        Some(flag) => Ok(flag),
        None => Err(ConfigFault::MalformedJson),
    }
}

fn number_of(value: &Value) -> Result<Option<u64>, ConfigFault>
    ensures { result ≡ form.number_of (as_number (view value.now)) }
{
    if let Some(number) = value.as_u64() {
        return Ok(Some(number));
    }
    match value.as_i64() {
        Some(_) => Ok(None),
        None => Err(ConfigFault::MalformedJson),
    }
}

fn priority_of(value: &Value) -> Result<Option<u64>, ConfigFault>
    ensures { result ≡ form.priority_of (view value.now) }
{
    match value.get("Priority") {
        Some(member) => number_of(member),
        None => Ok(Some(0)),
    }
}

fn enabled_of(value: &Value) -> Result<bool, ConfigFault>
    ensures { result ≡ form.enabled_of (view value.now) }
{
    let Some(word) = text_at(value, "Status") else {
        return Err(ConfigFault::MalformedJson);
    };
    match flag_of(word, "Enabled", "Disabled") {
        Some(flag) => Ok(flag),
        None => Err(ConfigFault::MalformedJson),
    }
}

fn set_of(tags: Vec<Tag>) -> Option<TagSet>
    ensures { result ≡ form.set_of tags.items }
{
    match TagSet::from_pairs(tags) {
        Ok(set) => Some(set),
        Err(_) => None,
    }
}

fn filter_with(
    alloc: Global,
    prefix: Option<Text>,
    tags: Option<TagSet>,
) -> Result<Filter, ConfigFault>
    ensures { Gives result (Ok (form.filter_with prefix tags)) }
{
    let prefix = match prefix {
        Some(text) => text,
        None => Text::from_str(alloc, "")?,
    };
    Ok(Filter { prefix, tags })
}

fn prefix_filter(alloc: Global, value: &Value) -> Result<Filter, ConfigFault>
    ensures { Gives result (form.prefix_filter (view value.now)) }
{
    let prefix = optional_text(alloc, value, "Prefix")?;
    filter_with(alloc, prefix, Some(TagSet::none(alloc)))
}

fn one_tag(alloc: Global, value: &Value) -> Result<Tag, ConfigFault>
    ensures { Gives result (form.tag_of (view value.now)) }
{
    let Some(member) = value.get("Tag") else {
        return Err(ConfigFault::MalformedJson);
    };
    match tag_at(alloc, member)? {
        Some(tag) => Ok(tag),
        None => Err(ConfigFault::MalformedJson),
    }
}

fn tag_filter(alloc: Global, value: &Value) -> Result<Filter, ConfigFault>
    ensures { Gives result (form.tag_filter (view value.now)) }
{
    let mut tags = Vec::new(alloc);
    tags.push(one_tag(alloc, value)?)?;
    filter_with(alloc, None, set_of(tags))
}

fn tags_of(alloc: Global, value: &Value) -> Result<Vec<Tag>, ConfigFault>
    ensures { GivesBy (λ tags. tags.items) result (form.tags_at (view value.now)) }
{
    let Some(member) = value.get("Tags") else {
        return Ok(Vec::new(alloc));
    };
    match tag_list_at(alloc, member)? {
        Some(tags) => Ok(tags),
        None => Err(ConfigFault::MalformedJson),
    }
}

fn both_filter(alloc: Global, value: &Value) -> Result<Filter, ConfigFault>
    ensures { Gives result (form.both_filter (view value.now)) }
{
    if !has_only(value, &["Prefix", "Tags"]) {
        return Err(ConfigFault::MalformedJson);
    }
    let prefix = optional_text(alloc, value, "Prefix")?;
    let tags = tags_of(alloc, value)?;
    filter_with(alloc, prefix, set_of(tags))
}

fn and_filter(alloc: Global, value: &Value) -> Result<Filter, ConfigFault>
    ensures { Gives result (form.and_filter (view value.now)) }
{
    match value.get("And") {
        Some(member) => both_filter(alloc, member),
        None => Err(ConfigFault::MalformedJson),
    }
}

/// A filter has at most one member.
fn filter_of(alloc: Global, value: &Value) -> Result<Filter, ConfigFault>
    ensures { Gives result (form.filter_of (view value.now)) }
{
    if has_only(value, &["Prefix"]) {
        prefix_filter(alloc, value)
    } else if has_only(value, &["Tag"]) {
        tag_filter(alloc, value)
    } else if has_only(value, &["And"]) {
        and_filter(alloc, value)
    } else {
        Err(ConfigFault::MalformedJson)
    }
}

fn filter_at(alloc: Global, value: &Value) -> Result<Filter, ConfigFault>
    ensures { Gives result (form.filter_at (view value.now)) }
{
    match value.get("Filter") {
        Some(member) => filter_of(alloc, member),
        None => filter_with(alloc, None, Some(TagSet::none(alloc))),
    }
}

/// The bucket whose ARN the text is.
fn bucket_in(alloc: Global, text: &str) -> Result<Option<BucketName>, ConfigFault>
    ensures { Gives result (Ok (form.bucket_in (arn_of text.now))) }
{
    match Arn::read(alloc, text) {
        Ok(Arn::Bucket(name)) => Ok(Some(name)),
        Ok(Arn::Object(name, key)) => {
            drop(name);
            drop(key);
            Ok(None)
        }
        Err(NameFault::InvalidArn) => Ok(None),
        Err(_) => Err(ConfigFault::OutOfMemory),
    }
}

fn destination_of(alloc: Global, value: &Value) -> Result<Destination, ConfigFault>
    ensures { Gives result (form.destination_of (view value.now)) }
{
    if !has_only(value, &["Bucket", "StorageClass", "Account", "Metrics"]) {
        return Err(ConfigFault::MalformedJson);
    }
    let Some(bucket) = text_at(value, "Bucket") else {
        return Err(ConfigFault::MalformedJson);
    };
    let bucket = bucket_in(alloc, bucket)?;
    let class = optional_text(alloc, value, "StorageClass")?;
    Ok(Destination { bucket, class })
}

fn destination_at(alloc: Global, value: &Value) -> Result<Destination, ConfigFault>
    ensures { Gives result (form.destination_at (view value.now)) }
{
    match value.get("Destination") {
        Some(member) => destination_of(alloc, member),
        None => Err(ConfigFault::MalformedJson),
    }
}

fn modifications_at(value: &Value) -> Result<bool, ConfigFault>
    ensures { result ≡ form.modifications_at (view value.now) }
{
    let Some(member) = value.get("SourceSelectionCriteria") else {
        return Ok(false);
    };
    if !has_only(member, &["ReplicaModifications"]) {
        return Err(ConfigFault::MalformedJson);
    }
    status_of(member, "ReplicaModifications")
}

fn members_of(alloc: Global, value: &Value) -> Result<Draft, ConfigFault>
    ensures { Gives result (form.members_of (view value.now)) }
{
    let priority = priority_of(value)?;
    let enabled = enabled_of(value)?;
    let markers = status_of(value, "DeleteMarkerReplication")?;
    let replica_modifications = modifications_at(value)?;
    let id = optional_text(alloc, value, "ID")?;
    let filter = filter_at(alloc, value)?;
    let destination = destination_at(alloc, value)?;
    Ok(Draft {
        id,
        priority,
        enabled,
        filter,
        markers,
        destination,
        replica_modifications,
    })
}

#[tactic(auto, unfolding(crate::specs::Drafts::draft_of))]
fn draft_of(alloc: Global, value: &Value) -> Result<Draft, ConfigFault>
    ensures { Gives result (form.draft_of (view value.now)) }
{
    let names = [
        "ID",
        "Priority",
        "Status",
        "Filter",
        "DeleteMarkerReplication",
        "Destination",
        "SourceSelectionCriteria",
        "ExistingObjectReplication",
    ];
    if !has_only(value, &names) {
        return Err(ConfigFault::MalformedJson);
    }
    members_of(alloc, value)
}

fn drafts_of(alloc: Global, list: &[Value]) -> Result<Vec<Draft>, ConfigFault>
    ensures { GivesBy (λ drafts. drafts.items) result (form.drafts_of (items_view list.now)) }
{
    let mut drafts = Vec::new(alloc);
    for value in list {
        drafts.push(draft_of(alloc, value)?)?;
    }
    Ok(drafts)
}

/// The rules of a body in their order. MalformedJson where it isn't of a configuration's form.
pub fn drafts_in(alloc: Global, value: &Value) -> Result<Vec<Draft>, ConfigFault>
    ensures { GivesBy (λ drafts. drafts.items) result (form.drafts_in (view value.now)) }
{
    if !has_only(value, &["Rules", "Role"]) {
        return Err(ConfigFault::MalformedJson);
    }
    match list_at(value, "Rules") {
        Some(list) => drafts_of(alloc, list),
        None => Err(ConfigFault::MalformedJson),
    }
}
