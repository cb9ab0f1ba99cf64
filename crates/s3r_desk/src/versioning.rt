//! A bucket's versioning, shown.
ghost use Rattle.std.specs.Prelude.{◌≡◌, ℕ, option_map};
ghost use Rattle.s3r_desk.specs.Steps.{FitsIn, at_location};
ghost use Rattle.s3r_desk.specs.Lookups.{seen_location};

use crate::Answer;
use crate::bucket_location::BucketLocation;
use crate::planning::{Plan, refuses};
use s3r_history::Refusal;

pub(crate) fn get_versioning(location: Option<BucketLocation<'_>>) -> Plan
    ensures planned { result ≡ at_location (λ h. Plan.Shows (Answer.Versioning h.told.enabled)) (option_map seen_location location.entry) }
    ensures fits { (n : ℕ) → FitsIn n result }
{
    match location {
        Some(location) => Plan::Shows(Answer::Versioning(location.bucket.enabled)),
        None => refuses(Refusal::NoSuchBucket),
    }
}
