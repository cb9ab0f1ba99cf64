//! A framed request as a request of the desk.

ghost use Rattle.std.specs.Prelude.{◌≡◌, ◌≤◌, length, IfOk, IfErr};
ghost use Rattle.s3r_desk.specs.Steps.{IsRequest};
ghost use Rattle.s3r_routes.specs.Places.{seen};
ghost use Rattle.s3r_api.specs.Problems.{Gives, GivesBy, IsOfRequest};
ghost use Rattle.s3r_api.specs.Asking.{asked_seen};
ghost use Rattle.s3r_api.specs.Request.{is_head, create_request, versioning_request, if_recorded, replication_request, bucket_asked, written_by, put_request, tags_request, hold_request, version_asked, is_put, object_asked, asked_at, bucket_request, object_request, desk_asked, other_request, request_at, request_of};

use crate::jobs::{
    job_at, job_request, priority_request, status_request, turn_request, work_request,
};
use crate::lines::{class_by, hold_by, locked_by, tags_by};
use crate::location::region_of;
use crate::page::list_request;
use crate::pair::copy_request;
use crate::problem::Problem;
use s3r_desk::Request;
use s3r_http::RawRequest;
use s3r_json::{status_of, tags_of};
use s3r_names::{BucketName, Bytes, ClassName, Key, TagSet, VersionId};
use s3r_record::fits_record;
use s3r_routes::{
    Query, Route, Routes, Target, bucket_named, key_written, path_of, route_of, version_of,
};
use s3r_rules::Config;
use s3r_rules_json::read_config;
use std::alloc::Global;

/// Whether the method is HEAD.
pub fn is_head(raw: &RawRequest) -> bool
    ensures { result ≡ is_head raw.now }
{
    raw.method.as_str() == "HEAD"
}

/// The words of a target, and the row that they fit.
#[derive(Drop)]
struct Asked {
    words: Query,
    route: Route,
}

fn asked_at(alloc: Global, raw: &RawRequest, place: &Target) -> Result<Asked, Problem>
    ensures { GivesBy asked_seen result (asked_at raw.now (seen place.now)) }
{
    let words = Query::read(alloc, raw.target.as_bytes())?;
    let route = route_of(place, raw.method.as_str(), &words)?;
    Ok(Asked { words, route })
}

fn create_request(alloc: Global, raw: &RawRequest, name: BucketName) -> Result<Request, Problem>
    ensures { Gives result (create_request raw.now name) }
{
    let locked = locked_by(raw)?;
    let region = region_of(alloc, raw.body.as_slice())?;
    Ok(Request::CreateBucket {
        name,
        region,
        locked,
    })
}

fn versioning_request(alloc: Global, raw: &RawRequest, name: BucketName) -> Result<Request, Problem>
    ensures { Gives result (versioning_request raw.now name) }
{
    let enabled = status_of(alloc, raw.body.as_slice(), "Enabled", "Suspended")?;
    Ok(Request::PutVersioning { name, enabled })
}

/// A configuration that a record can hold.
fn if_recorded(alloc: Global, name: BucketName, config: Config) -> Result<Request, Problem>
    ensures { Gives result (if_recorded name config) }
{
    match fits_record(alloc, &name, &config) {
        Ok(true) => Ok(Request::PutReplication { name, config }),
        Ok(false) => {
            drop(config);
            Err(Problem::ConfigurationTooLong)
        }
        Err(_) => {
            drop(config);
            Err(Problem::OutOfMemory)
        }
    }
}

fn replication_request(
    alloc: Global,
    raw: &RawRequest,
    name: BucketName,
) -> Result<Request, Problem>
    ensures { Gives result (replication_request raw.now name) }
{
    let config = read_config(alloc, raw.body.as_slice())?;
    if_recorded(alloc, name, config)
}

/// What a row asks of a bucket.
fn bucket_asked(
    alloc: Global,
    raw: &RawRequest,
    words: &Query,
    name: BucketName,
    route: Route,
) -> Result<Request, Problem>
    ensures { Gives result (bucket_asked raw.now words.now name route) }
{
    match route {
        Route::CreateBucket => create_request(alloc, raw, name),
        Route::HeadBucket => Ok(Request::HeadBucket { name }),
        Route::DeleteBucket => Ok(Request::DeleteBucket { name }),
        Route::PutVersioning => versioning_request(alloc, raw, name),
        Route::GetVersioning => Ok(Request::GetVersioning { name }),
        Route::PutReplication => replication_request(alloc, raw, name),
        Route::GetReplication => Ok(Request::GetReplication { name }),
        Route::DeleteReplication => Ok(Request::DeleteReplication { name }),
        Route::ListVersions => list_request(alloc, words, name),
        _ => Err(Problem::UnknownQuery),
    }
}

/// What a put writes.
#[derive(Drop)]
pub struct Written {
    pub body: Bytes,
    pub tags: TagSet,
    pub hold: bool,
    pub class: ClassName,
}

/// What a put's lines and its body say.
fn written_by(alloc: Global, raw: &RawRequest) -> Result<Written, Problem>
    ensures { Gives result (written_by raw.now) }
{
    let tags = tags_by(alloc, raw)?;
    let hold = hold_by(raw)?;
    let class = class_by(alloc, raw)?;
    Ok(Written {
        body: raw.body.clone()?,
        tags,
        hold,
        class,
    })
}

fn put_request(
    alloc: Global,
    raw: &RawRequest,
    bucket: BucketName,
    key: Key,
) -> Result<Request, Problem>
    ensures { Gives result (put_request raw.now bucket key) }
{
    let Written {
        body,
        tags,
        hold,
        class,
    } = written_by(alloc, raw)?;
    Ok(Request::PutObject {
        bucket,
        key,
        body,
        tags,
        hold,
        class,
    })
}

fn tags_request(
    alloc: Global,
    raw: &RawRequest,
    bucket: BucketName,
    key: Key,
    version: Option<VersionId>,
) -> Result<Request, Problem>
    ensures { Gives result (tags_request raw.now bucket key version) }
{
    let tags = tags_of(alloc, raw.body.as_slice())?;
    Ok(Request::PutTags {
        bucket,
        key,
        version,
        tags,
        gone: false,
    })
}

fn hold_request(
    alloc: Global,
    raw: &RawRequest,
    bucket: BucketName,
    key: Key,
    version: Option<VersionId>,
) -> Result<Request, Problem>
    ensures { Gives result (hold_request raw.now bucket key version) }
{
    let hold = status_of(alloc, raw.body.as_slice(), "ON", "OFF")?;
    Ok(Request::PutHold {
        bucket,
        key,
        version,
        hold,
    })
}

/// What a row asks of a version, or of the latest where none is named.
fn version_asked(
    alloc: Global,
    raw: &RawRequest,
    bucket: BucketName,
    key: Key,
    version: Option<VersionId>,
    route: Route,
) -> Result<Request, Problem>
    ensures { Gives result (version_asked raw.now bucket key version route) }
{
    match route {
        Route::GetObject => Ok(Request::GetObject {
            bucket,
            key,
            version,
            head: is_head(raw),
        }),
        Route::DeleteObject | Route::DeleteVersion => Ok(Request::DeleteObject {
            bucket,
            key,
            version,
        }),
        Route::PutTags => tags_request(alloc, raw, bucket, key, version),
        Route::GetTags => Ok(Request::GetTags {
            bucket,
            key,
            version,
        }),
        Route::DeleteTags => Ok(Request::PutTags {
            bucket,
            key,
            version,
            tags: TagSet::none(alloc),
            gone: true,
        }),
        Route::PutHold => hold_request(alloc, raw, bucket, key, version),
        Route::GetHold => Ok(Request::GetHold {
            bucket,
            key,
            version,
        }),
        _ => Err(Problem::UnknownQuery),
    }
}

fn is_put(route: Route) -> bool
    ensures { result ≡ is_put route }
{
    matches!(route, Route::PutObject)
}

/// What a row asks of an object.
fn object_asked(
    alloc: Global,
    raw: &RawRequest,
    words: &Query,
    bucket: BucketName,
    key: Key,
    route: Route,
) -> Result<Request, Problem>
    ensures { Gives result (object_asked raw.now words.now bucket key route) }
{
    if is_put(route) {
        return put_request(alloc, raw, bucket, key);
    }
    let version = version_of(words)?;
    version_asked(alloc, raw, bucket, key, version, route)
}

/// What is asked of a bucket.
#[tactic(auto, unfolding(crate::specs::Request::bucket_request))]
fn bucket_request(alloc: Global, raw: &RawRequest, bytes: &[u8]) -> Result<Request, Problem>
    ensures { Gives result (bucket_request raw.now bytes.now) }
{
    let name = bucket_named(alloc, bytes)?;
    let asked = asked_at(alloc, raw, &Target::Bucket(bytes))?;
    bucket_asked(alloc, raw, &asked.words, name, asked.route)
}

/// What is asked of an object, its key being as it was written.
#[tactic(auto, unfolding(crate::specs::Request::object_request))]
fn object_request(
    alloc: Global,
    raw: &RawRequest,
    bytes: &[u8],
    written: &[u8],
) -> Result<Request, Problem>
    ensures { Gives result (object_request raw.now bytes.now written.now) }
{
    let bucket = bucket_named(alloc, bytes)?;
    let key = key_written(alloc, written)?;
    let asked = asked_at(alloc, raw, &Target::Object(bytes, written))?;
    object_asked(alloc, raw, &asked.words, bucket, key, asked.route)
}

/// What a row asks of the desk itself. Two of its rows aren't built, and rows of buckets and objects are at no such place.
fn desk_asked(
    alloc: Global,
    raw: &RawRequest,
    place: &Target,
    words: &Query,
    route: Route,
) -> Result<Request, Problem>
    ensures { Gives result (desk_asked raw.now (seen place.now) words.now route) }
{
    match route {
        Route::CreateJob => job_request(alloc, raw),
        Route::SetJobPriority => priority_request(job_at(place), words),
        Route::SetJobStatus => status_request(job_at(place), words),
        Route::Copy => copy_request(words),
        Route::JobTurn => turn_request(words),
        Route::Work => work_request(words),
        Route::DescribeJob
        | Route::Check
        | Route::CreateBucket
        | Route::HeadBucket
        | Route::DeleteBucket
        | Route::PutVersioning
        | Route::GetVersioning
        | Route::PutReplication
        | Route::GetReplication
        | Route::DeleteReplication
        | Route::ListVersions
        | Route::PutObject
        | Route::GetObject
        | Route::DeleteObject
        | Route::DeleteVersion
        | Route::PutTags
        | Route::GetTags
        | Route::DeleteTags
        | Route::PutHold
        | Route::GetHold => Err(Problem::UnknownQuery),
    }
}

/// What is asked neither of a bucket nor of an object.
fn other_request(alloc: Global, raw: &RawRequest, place: &Target) -> Result<Request, Problem>
    ensures { Gives result (other_request raw.now (seen place.now)) }
{
    let asked = asked_at(alloc, raw, place)?;
    desk_asked(alloc, raw, place, &asked.words, asked.route)
}

fn request_at(alloc: Global, raw: &RawRequest, place: &Target) -> Result<Request, Problem>
    ensures { Gives result (request_at raw.now (seen place.now)) }
{
    match place {
        Target::Bucket(name) => bucket_request(alloc, raw, name),
        Target::Object(name, key) => object_request(alloc, raw, name, key),
        Target::Jobs
        | Target::Job(_)
        | Target::JobPriority(_)
        | Target::JobStatus(_)
        | Target::Copy
        | Target::JobTurn
        | Target::Work
        | Target::Check => other_request(alloc, raw, place),
    }
}

/// The request that a framed request is, or the first reason why it is none.
#[tactic(auto, unfolding(crate::specs::Request::request_of))]
pub fn to_request(alloc: Global, routes: &Routes, raw: &RawRequest) -> Result<Request, Problem>
    ensures exact { Gives result (request_of raw.now) }
    // A request's body is no longer than this once it is framed.
    ensures fits { length raw.now.body ≤ 4194304 → IfOk result IsRequest }
    ensures problems { IfErr result IsOfRequest }
{
    match routes.place_of(path_of(raw.target.as_str())) {
        Some(place) => request_at(alloc, raw, &place),
        None => Err(Problem::NoSuchRoute),
    }
}
