//! Tags of a version.
ghost use Rattle.std.specs.Prelude.{◌≡◌, ◌<◌, ℕ, IsTrue, IfOk, IfSome, option_map};
ghost use Rattle.s3r_names.specs.Tags.{is_tag_set};
ghost use Rattle.s3r_record.specs.Spelling.{IsCommand};
ghost use Rattle.s3r_desk.specs.Steps.{FitsIn, at_location, commits_at, object_at, with_object, tags_reply};
ghost use Rattle.s3r_desk.specs.Lookups.{seen_location};

use crate::Answer;
use crate::bucket_location::BucketLocation;
use crate::object::object_at;
use crate::planning::{Plan, Reply, refuses};
use s3r_history::Refusal;
use s3r_names::{BucketName, Key, TagSet, VersionId};
use s3r_record::Command;
use std::alloc::AllocError;

fn tags_reply(gone: bool, id: VersionId) -> Reply
    ensures { result ≡ tags_reply gone id }
{
    if gone {
        Reply::Is(Answer::Gone {
            id: Some(id),
            marker: false,
        })
    } else {
        Reply::Is(Answer::Written(id))
    }
}

pub(crate) fn put_tags(
    location: Option<BucketLocation<'_>>,
    bucket: BucketName,
    key: Key,
    version: Option<VersionId>,
    tags: TagSet,
    gone: bool,
) -> Plan
    requires fits { IsCommand (Command.Marker bucket key) × IsTrue (is_tag_set tags) }
    ensures planned { result ≡ at_location (λ h. with_object (λ row. commits_at h (Command.SetTags bucket key row.id tags) (tags_reply gone row.id))
        (object_at key version h)) (option_map seen_location location.entry) }
    ensures fits { (n : ℕ) → IfSome location.entry (λ h. h.region < n) → FitsIn n result }
{
    let Some(location) = location else {
        return refuses(Refusal::NoSuchBucket);
    };
    match object_at(location, &key, version) {
        Ok(row) => {
            let id = row.id;
            Plan::Commits {
                region: location.region,
                command: Command::SetTags {
                    bucket,
                    key,
                    id,
                    tags,
                },
                reply: tags_reply(gone, id),
            }
        }
        Err(why) => refuses(why),
    }
}

pub(crate) fn get_tags(
    location: Option<BucketLocation<'_>>,
    key: Key,
    version: Option<VersionId>,
) -> Result<Plan, AllocError>
    ensures planned { IfOk result (λ p. p ≡ at_location (λ h. with_object (λ row. Plan.Shows (Answer.TagSet row.tags)) (object_at key version h))
        (option_map seen_location location.entry)) }
    ensures fits { (n : ℕ) → IfOk result (λ p. FitsIn n p) }
{
    let Some(location) = location else {
        return Ok(refuses(Refusal::NoSuchBucket));
    };
    match object_at(location, &key, version) {
        Ok(row) => Ok(Plan::Shows(Answer::TagSet(row.tags.clone()?))),
        Err(why) => Ok(refuses(why)),
    }
}
