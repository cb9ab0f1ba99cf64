//! What requests about a bucket's replication come to.
ghost use Rattle.std.specs.Prelude.{◌≡◌, ◌<◌, ◌≤◌, ℕ, IsTrue, IfOk, IfSome, option_map, length};
ghost use Rattle.s3r_names.specs.Bucket.{is_bucket_name};
ghost use Rattle.s3r_desk.specs.Steps.{IsRequest, FitsIn, location, at_location, wrong_rule, first_wrong, not_taken, region_of, regions_of, replication, configuration, dropping};
ghost use Rattle.s3r_desk.specs.Lookups.{views_of, seen_location};
ghost use Rattle.s3r_desk.specs.declared.request.Request.{Request};

use crate::Answer;
use crate::bucket_location::BucketLocation;
use crate::finding::location_of;
use crate::planning::{Plan, Reply, refuses};
use s3r_history::Refusal;
use s3r_names::{BucketName, Bytes};
use s3r_record::{Command, are_texts};
use s3r_rules::{Config, Kind, Rule};
use s3r_store::Store;
use std::alloc::{AllocError, Global};

// What is wrong with the destination of a rule of this bucket.
fn wrong_rule(stores: &[Store], name: &BucketName, rule: &Rule) -> Option<Kind>
    ensures { result ≡ wrong_rule (location (length stores.now) (views_of stores.now)) name.now rule.now }
{
    if rule.bucket == *name {
        return Some(Kind::SameBucket);
    }
    match location_of(stores, &rule.bucket) {
        Some(location) if location.bucket.enabled => None,
        Some(_) => Some(Kind::DestinationNotVersioned),
        None => Some(Kind::NoDestination),
    }
}

// The first rule that is wrong so, counted from 1.
fn first_wrong(stores: &[Store], name: &BucketName, rules: &[Rule]) -> Option<Refusal>
    requires { length rules.now ≤ 1000 }
    ensures { result ≡ first_wrong (wrong_rule (location (length stores.now) (views_of stores.now)) name.now) 1 rules.now }
{
    let mut number = 1;
    for rule in rules {
        if let Some(kind) = wrong_rule(stores, name, rule) {
            return Some(Refusal::InvalidRequest { rule: number, kind });
        }
        number += 1;
    }
    None
}

// Why the bucket can't have the configuration.
fn not_taken(
    stores: &[Store],
    at: BucketLocation<'_>,
    name: &BucketName,
    config: &Config,
) -> Option<Refusal>
    ensures { result ≡ not_taken (location (length stores.now) (views_of stores.now)) name.now config.now (seen_location at.entry) }
{
    if !at.bucket.enabled {
        return Some(Refusal::InvalidBucketState);
    }
    first_wrong(stores, name, config.as_slice())
}

// The region of a bucket, 0 where it isn't there.
fn region_of(stores: &[Store], name: &BucketName) -> u8
    requires { length stores.now ≤ 8 }
    ensures { result ≡ region_of (location (length stores.now) (views_of stores.now) name.now) }
{
    match location_of(stores, name) {
        Some(location) => location.region as u8,
        None => 0,
    }
}

fn regions_of(alloc: Global, stores: &[Store], rules: &[Rule]) -> Result<Vec<u8>, AllocError>
    requires { length stores.now ≤ 8 }
    ensures { IfOk result (λ regions. regions.items ≡ regions_of (location (length stores.now) (views_of stores.now)) rules.now) }
{
    let mut regions = Vec::new(alloc);
    for rule in rules {
        regions.push(region_of(stores, &rule.bucket))?;
    }
    Ok(regions)
}

// The command that gives the bucket this configuration.
fn set_replication(
    alloc: Global,
    stores: &[Store],
    region: usize,
    name: BucketName,
    config: Config,
) -> Result<Plan, AllocError>
    requires few { length stores.now ≤ 8 }
    requires fits { IsRequest (Request.PutReplication name config) }
    ensures planned { IfOk result (λ p. p ≡ Plan.Commits region (Command.SetReplication name config
        (regions_of (location (length stores.now) (views_of stores.now)) config)) (Reply.Is Answer.Done)) }
    ensures fits { (n : ℕ) → region < n → IfOk result (λ p. FitsIn n p) }
{
    let regions = regions_of(alloc, stores, config.as_slice())?;
    // (they are UTF-8)
    let _texts = are_texts(&config);
    Ok(Plan::Commits {
        region,
        command: Command::SetReplication {
            name,
            config,
            regions: Bytes::from_vec(regions),
        },
        reply: Reply::Is(Answer::Done),
    })
}

/// The bucket has this configuration from now on, unless it or a destination can't have it.
pub(crate) fn put_replication(
    alloc: Global,
    stores: &[Store],
    name: BucketName,
    config: Config,
) -> Result<Plan, AllocError>
    requires few { length stores.now ≤ 8 }
    requires fits { IsRequest (Request.PutReplication name config) }
    ensures planned { IfOk result (λ p. p ≡ at_location (replication (location (length stores.now) (views_of stores.now)) name config)
        (location (length stores.now) (views_of stores.now) name)) }
    ensures fits { IfOk result (λ p. FitsIn (length stores.now) p) }
{
    let Some(location) = location_of(stores, &name) else {
        drop(config);
        return Ok(refuses(Refusal::NoSuchBucket));
    };
    match not_taken(stores, location, &name, &config) {
        None => set_replication(alloc, stores, location.region, name, config),
        Some(why) => {
            drop(config);
            Ok(refuses(why))
        }
    }
}

/// The bucket's configuration.
pub(crate) fn get_replication(location: Option<BucketLocation<'_>>) -> Result<Plan, AllocError>
    ensures planned { IfOk result (λ p. p ≡ at_location (λ h. configuration h.told.config) (option_map seen_location location.entry)) }
    ensures fits { (n : ℕ) → IfOk result (λ p. FitsIn n p) }
{
    let Some(location) = location else {
        return Ok(refuses(Refusal::NoSuchBucket));
    };
    match &location.bucket.config {
        Some(replication) => Ok(Plan::Shows(Answer::Configuration(replication.config.clone()?))),
        None => Ok(refuses(Refusal::NoReplication)),
    }
}

/// The bucket's configuration is taken away, where it has one.
pub(crate) fn delete_replication(location: Option<BucketLocation<'_>>, name: BucketName) -> Plan
    requires { IsTrue (is_bucket_name name) }
    ensures planned { result ≡ at_location (λ h. dropping name h h.told.config) (option_map seen_location location.entry) }
    ensures fits { (n : ℕ) → IfSome location.entry (λ h. h.region < n) → FitsIn n result }
{
    let Some(location) = location else {
        return refuses(Refusal::NoSuchBucket);
    };
    let gone = Answer::Gone {
        id: None,
        marker: false,
    };
    if location.bucket.config.is_some() {
        Plan::Commits {
            region: location.region,
            command: Command::DropReplication { name },
            reply: Reply::Is(gone),
        }
    } else {
        Plan::Shows(gone)
    }
}
