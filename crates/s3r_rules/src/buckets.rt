//! The buckets to which a configuration copies.

ghost use Rattle.std.specs.Prelude.{◌≡◌, ◌≤◌, IfOk, OnOk, IsTrue, length};
ghost use Rattle.s3r_rules.specs.Destinations.{place_of, is_first, with_name, destinations, rise, AreBuckets};

use crate::config::Config;
use crate::rule::Rule;
use s3r_names::{BucketName, is_key_below};
use std::alloc::{AllocError, Global};

/// How many of the names at the front are below this one.
fn place_of(names: &[BucketName], name: &BucketName) -> usize
    ensures at { result ≡ place_of name.now names.now }
    ensures within { result ≤ length names.now }
{
    names
        .iter()
        .take_while(|other| is_key_below(other.as_bytes(), name.as_bytes()))
        .count()
}

fn is_first(name: &BucketName, names: &[BucketName]) -> bool
    ensures { result ≡ is_first name.now names.now }
{
    match names {
        [] => false,
        [other, ..] => other == name,
    }
}

/// Puts a name in its place among rising ones, where it isn't there.
fn add_name(names: &mut Vec<BucketName>, name: &BucketName) -> Result<(), AllocError>
    ensures { OnOk result (names.new.items ≡ with_name name.now names.old.items) }
{
    let place = place_of(names.as_slice(), name);
    if is_first(name, &names.as_slice()[place..]) {
        return Ok(());
    }
    let copy = name.clone()?;
    names.insert(place, copy)?;
    Ok(())
}

fn names_of(alloc: Global, rules: &[Rule]) -> Result<Vec<BucketName>, AllocError>
    ensures { IfOk result (λ names. names.items ≡ destinations rules.now) }
{
    let mut names = Vec::new(alloc);
    for rule in rules {
        add_name(&mut names, &rule.bucket)?;
    }
    Ok(names)
}

/// The distinct buckets to which a configuration has rules, rising by their bytes.
pub fn destinations(alloc: Global, config: &Config) -> Result<Vec<BucketName>, AllocError>
    ensures value { IfOk result (λ names. names.items ≡ destinations config.now) }
    ensures rising { IfOk result (λ names. IsTrue (rise names.items)) }
    ensures complete { IfOk result (λ names. AreBuckets config.now names.items) }
{
    names_of(alloc, config.as_slice())
}
