//! Buckets, made and looked for.
ghost use Rattle.std.specs.Prelude.{◌≡◌, ◌<◌, ℕ, IfSome, option_map, length};
ghost use Rattle.s3r_record.specs.Spelling.{IsCommand};
ghost use Rattle.s3r_desk.specs.Steps.{FitsIn, location, at_location, creation};
ghost use Rattle.s3r_desk.specs.Lookups.{views_of, seen_location, region_in};

use crate::Answer;
use crate::bucket_location::BucketLocation;
use crate::finding::location_of;
use crate::planning::{Plan, Reply, refuses};
use s3r_history::Refusal;
use s3r_names::BucketName;
use s3r_record::Command;
use s3r_store::Store;

// A region by its number, where it has a store.
fn region_in(region: Option<u32>, regions: usize) -> Option<usize>
    ensures is { result ≡ region_in region regions }
    ensures within { IfSome result (λ r. r < regions) }
{
    let region = region? as usize;
    if region < regions { Some(region) } else { None }
}

// A bucket in the region that is asked for, where no region has it.
pub(crate) fn create_bucket(
    stores: &[Store],
    name: BucketName,
    region: Option<u32>,
    locked: bool,
) -> Plan
    requires { IsCommand (Command.CreateBucket name locked) }
    ensures planned { result ≡ creation (length stores.now) name locked (location (length stores.now) (views_of stores.now) name) region }
    ensures fits { FitsIn (length stores.now) result }
{
    let Some(region) = region_in(region, stores.len()) else {
        return refuses(Refusal::InvalidLocation);
    };
    if location_of(stores, &name).is_some() {
        return refuses(Refusal::BucketAlreadyExists);
    }
    Plan::Commits {
        region,
        command: Command::CreateBucket { name, locked },
        reply: Reply::Is(Answer::Done),
    }
}

pub(crate) fn head_bucket(location: Option<BucketLocation<'_>>) -> Plan
    ensures planned { result ≡ at_location (λ h. Plan.Shows Answer.Done) (option_map seen_location location.entry) }
    ensures fits { (n : ℕ) → FitsIn n result }
{
    match location {
        Some(_) => Plan::Shows(Answer::Done),
        None => refuses(Refusal::NoSuchBucket),
    }
}
