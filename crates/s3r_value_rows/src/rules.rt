//! Configurations of replication.

use crate::cells::Cells;
use crate::fault::Fault;
use crate::texts::{add, truth};
use s3r_names::{BucketName, Key, TagSet};
use s3r_rules::{
    Config, Kind, Rule, choice_marker, choice_meta, choice_put, destinations, matches,
};
use s3r_rules_json::{print_config, read_config};
use std::alloc::{AllocError, Global};

/// A configuration that is read, printed again.
pub fn config(alloc: Global, cells: &Cells) -> Result<String, Fault> {
    let config = read_config(alloc, cells.bytes(0))?;
    Ok(print_config(alloc, &config)?)
}

fn push_rule(rules: &mut String, alloc: Global, priority: u32) -> Result<(), AllocError> {
    let rule = format!(in alloc;
        "{{\"Status\":\"Enabled\",\"Priority\":{priority},\"Destination\":{{\"Bucket\":\"arn:aws:s3:::dst\"}}}}"
    )?;
    add(rules, ",", rule.as_str())
}

/// The body of so many rules to one bucket, each of its own priority.
fn many_rules(alloc: Global, count: u32) -> Result<String, AllocError> {
    let mut rules = String::new(alloc);
    for priority in 0..count {
        push_rule(&mut rules, alloc, priority)?;
    }
    format!(in alloc; "{{\"Rules\":[{rules}]}}")
}

/// How many rules a configuration of so many has.
pub fn many(alloc: Global, cells: &Cells) -> Result<String, Fault> {
    let body = many_rules(alloc, cells.number(0))?;
    let config = read_config(alloc, body.as_bytes())?;
    let count = config.as_slice().len();
    Ok(format!(in alloc; "{count}")?)
}

fn push_copies(copies: &mut Vec<Rule>, rule: &Rule, times: u32) -> Result<(), AllocError> {
    for _ in 0..times {
        copies.push(rule.clone()?)?;
    }
    Ok(())
}

/// So many copies of each of these rules.
fn copies_of(alloc: Global, rules: &[Rule], times: u32) -> Result<Vec<Rule>, AllocError> {
    let mut copies = Vec::new(alloc);
    for rule in rules {
        push_copies(&mut copies, rule, times)?;
    }
    Ok(copies)
}

/// Whether so many copies of each rule of a body are a configuration.
pub fn copies(alloc: Global, cells: &Cells) -> Result<String, Fault> {
    let config = read_config(alloc, cells.bytes(1))?;
    let rules = copies_of(alloc, config.as_slice(), cells.number(0))?;
    truth(alloc, Config::from_rules(rules).is_some())
}

/// What can be wrong of a rule where the buckets are known.
pub fn kinds(alloc: Global) -> Result<String, Fault> {
    let mut text = String::new(alloc);
    for kind in [
        Kind::SameBucket,
        Kind::NoDestination,
        Kind::DestinationNotVersioned,
    ] {
        add(&mut text, " ", kind.as_str())?;
    }
    Ok(text)
}

fn priority_text(alloc: Global, rule: Option<&Rule>) -> Result<String, AllocError> {
    match rule {
        Some(rule) => {
            let priority = rule.priority;
            format!(in alloc; "{priority}")
        }
        None => String::from_str(alloc, "none"),
    }
}

/// The priorities of the rules that decide a version, a marker, and new tags.
fn chosen(
    alloc: Global,
    config: &Config,
    key: &Key,
    tags: &TagSet,
    to: &BucketName,
) -> Result<String, AllocError> {
    let put = priority_text(alloc, choice_put(config, key, tags, to))?;
    let marker = priority_text(alloc, choice_marker(config, key, to))?;
    let meta = priority_text(alloc, choice_meta(config, key, to))?;
    format!(in alloc; "put {put}, marker {marker}, meta {meta}")
}

fn choice_of(alloc: Global, config: &Config, cells: &Cells) -> Result<String, Fault> {
    let key = Key::read(alloc, cells.bytes(0))?;
    let tags = TagSet::read_query(alloc, cells.bytes(1))?;
    let to = BucketName::read(alloc, cells.bytes(2))?;
    Ok(chosen(alloc, config, &key, &tags, &to)?)
}

/// Which rules of a body decide for a key with these tags and a bucket.
pub fn choice(alloc: Global, cells: &Cells) -> Result<String, Fault> {
    let config = read_config(alloc, cells.bytes(3))?;
    choice_of(alloc, &config, cells)
}

/// The buckets to which a body copies.
pub fn destinations_text(alloc: Global, cells: &Cells) -> Result<String, Fault> {
    let config = read_config(alloc, cells.bytes(0))?;
    let mut text = String::new(alloc);
    for name in &destinations(alloc, &config)? {
        add(&mut text, " ", name.as_str())?;
    }
    Ok(text)
}

fn priorities(
    alloc: Global,
    config: &Config,
    key: &Key,
    tags: &TagSet,
) -> Result<String, AllocError> {
    let mut text = String::new(alloc);
    for rule in config.as_slice() {
        if matches(rule, key, tags) {
            add(&mut text, " ", priority_text(alloc, Some(rule))?.as_str())?;
        }
    }
    Ok(text)
}

fn matching_of(alloc: Global, config: &Config, cells: &Cells) -> Result<String, Fault> {
    let key = Key::read(alloc, cells.bytes(0))?;
    let tags = TagSet::read_query(alloc, cells.bytes(1))?;
    Ok(priorities(alloc, config, &key, &tags)?)
}

/// The priorities of the rules of a body that are for a key with these tags.
pub fn matching(alloc: Global, cells: &Cells) -> Result<String, Fault> {
    let config = read_config(alloc, cells.bytes(2))?;
    matching_of(alloc, &config, cells)
}
