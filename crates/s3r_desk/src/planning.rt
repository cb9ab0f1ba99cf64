//! What each request comes to, by what the regions tell of its bucket.
ghost use Rattle.std.specs.Prelude.{◌≡◌, ◌<◌, ◌≤◌, ℕ, IfOk, IfSome, option_map, length};
ghost use Rattle.s3r_record.specs.Spelling.{IsCommand};
ghost use Rattle.s3r_desk.specs.Steps.{IsRequest, FitsIn, refuses, at_location, commits_at, plan};
ghost use Rattle.s3r_desk.specs.Lookups.{views_of, statuses_of, jobs_of, seen_location};

use crate::bucket::{create_bucket, head_bucket};
use crate::bucket_location::BucketLocation;
use crate::finding::location_of;
use crate::job::{create_job, set_job_priority, set_job_status};
use crate::legal_hold::{get_hold, put_hold};
use crate::listing::list_versions;
use crate::object::{delete_object, get_object};
use crate::replication::{delete_replication, get_replication, put_replication};
use crate::tagging::{get_tags, put_tags};
use crate::versioning::get_versioning;
use crate::{Answer, ObjectMetadata, Request};
use s3r_history::Refusal;
use s3r_names::Kept;
use s3r_record::Command;
use s3r_store::Store;
use std::alloc::{AllocError, Global};

/// What is to be answered, and what is to be committed before.
#[derive(Drop)]
pub enum Plan {
    /// The answer, and nothing is committed.
    Shows(Answer),
    /// A version of a region is shown, its body is to be fetched, and nothing is committed.
    Fetches {
        region: usize,
        object: ObjectMetadata,
        body: Kept,
    },
    /// A command to a region, and the answer once it is committed.
    Commits {
        region: usize,
        command: Command,
        reply: Reply,
    },
}

/// The answer to a commit.
#[derive(Drop)]
pub enum Reply {
    Is(Answer),
    /// The id that the command gives to its version.
    Written,
    /// The id that it gives to its marker.
    Marked,
    /// The id that it gives to its job.
    Created,
}

pub(crate) fn refuses(why: Refusal) -> Plan
    ensures { result ≡ refuses why }
{
    Plan::Shows(Answer::Refused(why))
}

// The command goes to the bucket's region.
fn commits(location: Option<BucketLocation<'_>>, command: Command, reply: Reply) -> Plan
    requires { IsCommand command }
    ensures planned { result ≡ at_location (λ h. commits_at h command reply) (option_map seen_location location.entry) }
    ensures fits { (n : ℕ) → IfSome location.entry (λ h. h.region < n) → FitsIn n result }
{
    match location {
        Some(location) => Plan::Commits {
            region: location.region,
            command,
            reply,
        },
        None => refuses(Refusal::NoSuchBucket),
    }
}

/// What the request comes to, by what the stores tell of its bucket. The error is want of memory.
pub fn plan_of(alloc: Global, stores: &[Store], request: Request) -> Result<Plan, AllocError>
    requires few { length stores.now ≤ 8 }
    requires fits { IsRequest request }
    ensures planned { IfOk result (λ p. p ≡ plan (length stores.now) (views_of stores.now) (statuses_of stores.now) (jobs_of stores.now) request) }
    ensures fits { IfOk result (λ p. FitsIn (length stores.now) p) }
{
    match request {
        Request::CreateBucket {
            name,
            region,
            locked,
        } => Ok(create_bucket(stores, name, region, locked)),
        Request::HeadBucket { name } => Ok(head_bucket(location_of(stores, &name))),
        Request::DeleteBucket { name } => {
            let location = location_of(stores, &name);
            let gone = Answer::Gone {
                id: None,
                marker: false,
            };
            Ok(commits(location, Command::DeleteBucket { name }, Reply::Is(gone)))
        }
        Request::PutVersioning { name, enabled } => {
            let location = location_of(stores, &name);
            let command = Command::SetVersioning { name, enabled };
            Ok(commits(location, command, Reply::Is(Answer::Done)))
        }
        Request::GetVersioning { name } => Ok(get_versioning(location_of(stores, &name))),
        Request::PutReplication { name, config } => put_replication(alloc, stores, name, config),
        Request::GetReplication { name } => get_replication(location_of(stores, &name)),
        Request::DeleteReplication { name } => {
            let location = location_of(stores, &name);
            Ok(delete_replication(location, name))
        }
        Request::ListVersions {
            name,
            prefix,
            after,
            limit,
        } => list_versions(alloc, stores, name, prefix, after, limit),
        Request::PutObject {
            bucket,
            key,
            body,
            tags,
            hold,
            class,
        } => {
            let location = location_of(stores, &bucket);
            let command = Command::Put {
                bucket,
                key,
                tags,
                hold,
                class,
                body,
            };
            Ok(commits(location, command, Reply::Written))
        }
        Request::GetObject {
            bucket,
            key,
            version,
            head,
        } => get_object(alloc, stores, bucket, key, version, head),
        Request::DeleteObject {
            bucket,
            key,
            version,
        } => {
            let location = location_of(stores, &bucket);
            Ok(delete_object(location, bucket, key, version))
        }
        Request::PutTags {
            bucket,
            key,
            version,
            tags,
            gone,
        } => {
            let location = location_of(stores, &bucket);
            Ok(put_tags(location, bucket, key, version, tags, gone))
        }
        Request::GetTags {
            bucket,
            key,
            version,
        } => get_tags(location_of(stores, &bucket), key, version),
        Request::PutHold {
            bucket,
            key,
            version,
            hold,
        } => {
            let location = location_of(stores, &bucket);
            Ok(put_hold(location, bucket, key, version, hold))
        }
        Request::GetHold {
            bucket,
            key,
            version,
        } => Ok(get_hold(location_of(stores, &bucket), key, version)),
        Request::CreateJob { spec } => Ok(create_job(stores, spec)),
        Request::SetJobPriority { id, priority } => {
            Ok(set_job_priority(stores.len(), id, priority))
        }
        Request::SetJobStatus { id, ready } => Ok(set_job_status(stores.len(), id, ready)),
        // A turn of the copier or of a region's jobs, or rounds of them, is no step over all regions.
        Request::Copy { .. } | Request::JobTurn { .. } | Request::Work { .. } => {
            Ok(refuses(Refusal::InvalidArgument))
        }
    }
}
