//! A configuration as JSON (S3 API Reference, ReplicationConfiguration).

ghost use Rattle.std.specs.Prelude.{◌≡◌, IfOk, map};
ghost use Rattle.serde_json.specs.View.{view};
ghost use Rattle.s3r_rules_json.specs.Printing.{flag_word, destination_data, prefix_data, both_data, one_tag_data, filter_data, rule_data, config_data};

use s3r_json::{tag_list_value, tag_value};
use s3r_names::{Arn, BucketName, ClassName, Tag, TagSet, Text};
use s3r_rules::Rule;
use serde_json::{Value, json};
use std::alloc::{AllocError, Global};

fn flag_word(flag: bool) -> &'static str
    ensures { result.now ≡ flag_word flag }
{
    if flag { "Enabled" } else { "Disabled" }
}

fn destination_value(
    alloc: Global,
    bucket: &BucketName,
    class: &Option<ClassName>,
) -> Result<Value, AllocError>
    ensures { IfOk result (λ value. view value ≡ destination_data bucket.now class.now) }
{
    let arn = Arn::Bucket(bucket.clone()?).print(alloc)?;
    match class {
        Some(class) => json!(in alloc; {"Bucket": arn.as_str(), "StorageClass": class.as_str()}),
        None => json!(in alloc; {"Bucket": arn.as_str()}),
    }
}

fn prefix_value(alloc: Global, prefix: &Text) -> Result<Value, AllocError>
    ensures { IfOk result (λ value. view value ≡ prefix_data prefix.now) }
{
    json!(in alloc; {"Prefix": prefix.as_str()})
}

fn both_value(alloc: Global, prefix: &Text, tags: &[Tag]) -> Result<Value, AllocError>
    ensures { IfOk result (λ value. view value ≡ both_data prefix.now tags.now) }
{
    let list = tag_list_value(alloc, tags)?;
    json!(in alloc; {"And": {"Prefix": prefix.as_str(), "Tags": list}})
}

fn one_tag_value(alloc: Global, tag: &Tag) -> Result<Value, AllocError>
    ensures { IfOk result (λ value. view value ≡ one_tag_data tag.now) }
{
    let value = tag_value(alloc, tag)?;
    json!(in alloc; {"Tag": value})
}

fn filter_value(alloc: Global, prefix: &Text, tags: &TagSet) -> Result<Value, AllocError>
    ensures { IfOk result (λ value. view value ≡ filter_data prefix.now tags.now) }
{
    match tags.as_slice() {
        [] => prefix_value(alloc, prefix),
        [tag] if prefix.as_bytes().is_empty() => one_tag_value(alloc, tag),
        tags => both_value(alloc, prefix, tags),
    }
}

#[tactic(auto, unfolding(crate::specs::Printing::rule_data))]
fn rule_value(alloc: Global, rule: &Rule) -> Result<Value, AllocError>
    ensures { IfOk result (λ value. view value ≡ rule_data rule.now) }
{
    let destination = destination_value(alloc, &rule.bucket, &rule.class)?;
    let filter = filter_value(alloc, &rule.prefix, &rule.tags)?;
    if rule.replica_modifications {
        json!(in alloc; {
            "DeleteMarkerReplication": {"Status": flag_word(rule.markers)},
            "Destination": destination,
            "Filter": filter,
            "ID": rule.id.as_str(),
            "Priority": rule.priority,
            "SourceSelectionCriteria": {"ReplicaModifications": {"Status": "Enabled"}},
            "Status": flag_word(rule.enabled)
        })
    } else {
        json!(in alloc; {
            "DeleteMarkerReplication": {"Status": flag_word(rule.markers)},
            "Destination": destination,
            "Filter": filter,
            "ID": rule.id.as_str(),
            "Priority": rule.priority,
            "Status": flag_word(rule.enabled)
        })
    }
}

fn rule_values(alloc: Global, rules: &[Rule]) -> Result<Vec<Value>, AllocError>
    ensures { IfOk result (λ values. map view values.items ≡ map rule_data rules.now) }
{
    let mut values = Vec::new(alloc);
    for rule in rules {
        values.push(rule_value(alloc, rule)?)?;
    }
    Ok(values)
}

/// Rules as a configuration's value.
pub fn config_value(alloc: Global, rules: &[Rule]) -> Result<Value, AllocError>
    ensures { IfOk result (λ value. view value ≡ config_data rules.now) }
{
    let values = rule_values(alloc, rules)?;
    json!(in alloc; {"Rules": values})
}
