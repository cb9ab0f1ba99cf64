//! What a write sends to the destinations of its bucket.

ghost use Rattle.std.specs.Prelude.{◌≡◌, ◌++◌, [], IfOk, OnOk, option_copied, slice_get, unwrap_or};
ghost use Rattle.std.specs.List.{filter_map, cons_option};
ghost use Rattle.std.specs.Option.{option_and_then};
ghost use Rattle.s3r_record.specs.declared.effect.Effect.{Effect};
ghost use Rattle.s3r_rules.specs.Writes as rules;
ghost use Rattle.s3r_rules.specs.Destinations.{destinations};
ghost use Rattle.s3r_history.specs.Sending.{replica_by, marker_by, copies, came_from};
ghost use Rattle.s3r_region.specs.Written.{seen};
ghost use Rattle.s3r_region.specs.Prescribing.{asked_of, was_prescribed, goes_on, effect_by, choice_sends, choices_of};

use s3r_history::{Prescribed, Replication, Sent};
use s3r_names::{BucketName, ClassName, Kept, Key, Stamp, TagSet};
use s3r_queue::{Outbox, Task};
use s3r_record::Effect;
use s3r_rules::{Choice, Rule, Write, choices};
use s3r_versions::{Origin, Row};
use std::alloc::{AllocError, Global};

/// What a command wrote of a row.
#[derive(Clone, Copy)]
pub(crate) enum Written<'a> {
    /// The row itself, a version.
    Version(&'a Row<Kept>),
    /// The row itself, a marker.
    Marker(&'a Row<Kept>),
    Tags(&'a Row<Kept>, &'a TagSet, Stamp),
    Hold(&'a Row<Kept>, bool, Stamp),
}

fn asked_of<'a>(written: &Written<'a>) -> Write<'a>
    ensures { rules.seen result ≡ asked_of (seen written.now) }
{
    match written {
        Written::Version(row) => Write::Put(&row.key, &row.tags),
        Written::Marker(row) => Write::Marker(&row.key),
        Written::Tags(row, _, _) | Written::Hold(row, _, _) => Write::Meta(&row.key),
    }
}

/// Whether the effect copies the row of the bucket as a whole to that bucket.
fn copies(effect: &Effect<Kept>, bucket: &BucketName, row: &Row<Kept>, to: &BucketName) -> bool
    ensures { result ≡ copies bucket.now row.now (record { bucket = to.now; region = 0 }) effect.now }
{
    match effect {
        Effect::Replica {
            from,
            to: target,
            key,
            id,
            ..
        } => *target == *to && (*from == *bucket && (row.key == *key && row.id == *id)),
        Effect::Marker { .. } | Effect::Tags { .. } | Effect::Hold { .. } => false,
    }
}

/// Whether one of these tasks carries the row to that bucket, prescribed since it was added.
fn was_prescribed(
    tasks: &[Task<Prescribed>],
    bucket: &BucketName,
    row: &Row<Kept>,
    to: &BucketName,
) -> bool
    ensures { result ≡ was_prescribed bucket.now row.now (record { bucket = to.now; region = 0 }) tasks.now }
{
    tasks.iter().any(|task| row.place <= task.effect.place
        && copies(&task.effect.effect, bucket, row, to))
}

/// Whether the row came from that bucket of the region.
fn came_from(origin: &Option<Origin>, region: u8, to: &BucketName) -> bool
    ensures { result ≡ came_from (record { bucket = to.now; region = region }) origin.now }
{
    match origin {
        Some(origin) => origin.region == region && origin.bucket == *to,
        None => false,
    }
}

/// Whether a change of the row's tags or hold goes to the destination, by the rule that is chosen.
fn goes_on(
    outbox: &Outbox<Prescribed>,
    bucket: &BucketName,
    row: &Row<Kept>,
    region: u8,
    rule: &Rule,
) -> bool
    ensures { result ≡ goes_on outbox.now bucket.now row.now (record { bucket = rule.now.bucket; region = region }) rule.now }
{
    let tasks = outbox.tasks(u32::from(region));
    (came_from(&row.origin, region, &rule.bucket)
        || was_prescribed(tasks, bucket, row, &rule.bucket))
        && (row.origin.is_none() || rule.replica_modifications)
}

/// The class of a copy: the rule's, else the version's own.
fn class_of(row: &Row<Kept>, rule: &Rule) -> Result<ClassName, AllocError>
    ensures { IfOk result (λ class. class ≡ unwrap_or rule.now.class row.now.class) }
{
    match &rule.class {
        Some(class) => class.clone(),
        None => row.class.clone(),
    }
}

/// What every effect begins with: the bucket that it is from, the one that it goes to, and the key.
#[derive(Drop)]
struct Front {
    from: BucketName,
    to: BucketName,
    key: Key,
}

fn front_of(bucket: &BucketName, row: &Row<Kept>, rule: &Rule) -> Result<Front, AllocError>
    ensures { IfOk result (λ front. front ≡ record { from = bucket.now; to = rule.now.bucket; key = row.now.key }) }
{
    Ok(Front {
        from: bucket.clone()?,
        to: rule.bucket.clone()?,
        key: row.key.clone()?,
    })
}

/// A version as a whole, by the rule that is chosen.
fn replica(bucket: &BucketName, row: &Row<Kept>, rule: &Rule) -> Result<Effect<Kept>, AllocError>
    ensures { IfOk result (λ effect. effect ≡ replica_by bucket.now row.now rule.now.bucket rule.now) }
{
    let class = class_of(row, rule)?;
    let tags = row.tags.clone()?;
    let body = row.body.clone()?;
    let front = front_of(bucket, row, rule)?;
    Ok(Effect::Replica {
        from: front.from,
        to: front.to,
        key: front.key,
        id: row.id,
        n: row.n,
        tags,
        tags_stamp: row.tags_stamp,
        hold: row.hold,
        hold_stamp: row.hold_stamp,
        class,
        body,
    })
}

/// A marker, where the rule that is chosen copies markers.
fn marker(
    bucket: &BucketName,
    row: &Row<Kept>,
    rule: &Rule,
) -> Result<Option<Effect<Kept>>, AllocError>
    ensures { IfOk result (λ effect. effect ≡ marker_by bucket.now row.now rule.now.bucket rule.now) }
{
    if !rule.markers {
        return Ok(None);
    }
    let front = front_of(bucket, row, rule)?;
    Ok(Some(Effect::Marker {
        from: front.from,
        to: front.to,
        key: front.key,
        id: row.id,
        n: row.n,
    }))
}

/// New tags of a row.
fn new_tags(
    bucket: &BucketName,
    row: &Row<Kept>,
    tags: &TagSet,
    stamp: Stamp,
    rule: &Rule,
) -> Result<Effect<Kept>, AllocError>
    ensures { IfOk result (λ effect. effect ≡ Effect.Tags bucket.now rule.now.bucket row.now.key row.now.id tags.now stamp) }
{
    let tags = tags.clone()?;
    let front = front_of(bucket, row, rule)?;
    Ok(Effect::Tags {
        from: front.from,
        to: front.to,
        key: front.key,
        id: row.id,
        tags,
        stamp,
    })
}

/// A new hold of a row.
fn new_hold(
    bucket: &BucketName,
    row: &Row<Kept>,
    hold: bool,
    stamp: Stamp,
    rule: &Rule,
) -> Result<Effect<Kept>, AllocError>
    ensures { IfOk result (λ effect. effect ≡ Effect.Hold bucket.now rule.now.bucket row.now.key row.now.id hold stamp) }
{
    let front = front_of(bucket, row, rule)?;
    Ok(Effect::Hold {
        from: front.from,
        to: front.to,
        key: front.key,
        id: row.id,
        hold,
        stamp,
    })
}

/// What goes to the destination of the rule that is chosen.
fn effect_by(
    outbox: &Outbox<Prescribed>,
    bucket: &BucketName,
    written: &Written<'_>,
    region: u8,
    rule: &Rule,
) -> Result<Option<Effect<Kept>>, AllocError>
    ensures { IfOk result (λ effect. effect ≡ effect_by outbox.now bucket.now (seen written.now)
        (record { bucket = rule.now.bucket; region = region }) rule.now) }
{
    match written {
        Written::Version(row) => Ok(Some(replica(bucket, row, rule)?)),
        Written::Marker(row) => marker(bucket, row, rule),
        Written::Tags(row, tags, stamp) if goes_on(outbox, bucket, row, region, rule) => {
            Ok(Some(new_tags(bucket, row, tags, *stamp, rule)?))
        }
        Written::Hold(row, hold, stamp) if goes_on(outbox, bucket, row, region, rule) => {
            Ok(Some(new_hold(bucket, row, *hold, *stamp, rule)?))
        }
        Written::Tags(..) | Written::Hold(..) => Ok(None),
    }
}

/// The rule that a destination's choice names.
fn rule_at(config: &Replication, choice: Choice) -> Option<&Rule>
    ensures { option_copied result ≡ option_and_then (slice_get config.now.config) choice.chosen }
{
    config.config.as_slice().get(choice.chosen?)
}

/// The region of a destination: it stands beside the first rule to it.
fn region_at(config: &Replication, choice: Choice) -> u8
    ensures { result ≡ unwrap_or (slice_get config.now.regions choice.first) 0 }
{
    match config.regions.as_slice().get(choice.first) {
        Some(region) => *region,
        None => 0,
    }
}

/// Puts what goes to one destination behind the others.
fn push_choice(
    sends: &mut Vec<Sent>,
    outbox: &Outbox<Prescribed>,
    bucket: &BucketName,
    config: &Replication,
    written: &Written<'_>,
    choice: Choice,
) -> Result<(), AllocError>
    ensures { OnOk result (sends.new.items ≡ sends.old.items ++ cons_option (choice_sends outbox.now bucket.now (seen written.now) config.now choice) []) }
{
    let Some(rule) = rule_at(config, choice) else {
        return Ok(());
    };
    let region = region_at(config, choice);
    if let Some(effect) = effect_by(outbox, bucket, written, region, rule)? {
        sends.push(Sent { region, effect })?;
    }
    Ok(())
}

/// What a write of the bucket's row sends to each destination of its configuration, in rising order of their names.
pub(crate) fn sends_of(
    alloc: Global,
    outbox: &Outbox<Prescribed>,
    bucket: &BucketName,
    config: &Replication,
    written: &Written<'_>,
) -> Result<Vec<Sent>, AllocError>
    ensures { IfOk result (λ sends. sends.items ≡ filter_map (choice_sends outbox.now bucket.now (seen written.now) config.now)
        (choices_of (seen written.now) config.now)) }
{
    let choices = choices(alloc, &config.config, &asked_of(written))?;
    let mut sends = Vec::new(alloc);
    for choice in &choices {
        push_choice(&mut sends, outbox, bucket, config, written, *choice)?;
    }
    Ok(sends)
}
