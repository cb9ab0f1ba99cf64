//! What the words of a listing ask for (S3 API Reference, ListObjectVersions).

ghost use Rattle.std.specs.Prelude.{◌≡◌, IfOk, option_map};
ghost use Rattle.s3r_api.specs.Problems.{Gives};
ghost use Rattle.s3r_api.specs.Request.{limit_asked, id_behind, place_behind, or_empty, list_request};
ghost use Rattle.s3r_routes.specs.Query.{value};
ghost use Rattle.s3r_routes.specs.declared.words.Word.TheVariants as word;

use crate::problem::Problem;
use s3r_desk::Request;
use s3r_names::{BucketName, Text, VersionId};
use s3r_routes::{Query, Word, given, key_named, limit_of, version_named};
use s3r_versions::ListPosition;
use std::alloc::{AllocError, Global};

/// How many entries are asked for. InvalidQuery where the words name the version of no key, too.
fn limit_asked(words: &Query) -> Result<u32, Problem>
    ensures { result ≡ limit_asked words.now }
{
    let limit = limit_of(words)?;
    if given(words, Word::VersionIdMarker).is_some() && given(words, Word::KeyMarker).is_none() {
        return Err(Problem::InvalidQuery);
    }
    Ok(limit)
}

fn id_behind(text: Option<&str>) -> Result<Option<VersionId>, Problem>
    ensures { result ≡ id_behind (option_map (λ t. t.now) text.entry) }
{
    match text {
        Some(id) => Ok(Some(version_named(id.as_bytes())?)),
        None => Ok(None),
    }
}

/// The place behind which the page begins.
fn place_behind(
    alloc: Global,
    key: Option<&str>,
    id: Option<&str>,
) -> Result<Option<ListPosition>, Problem>
    ensures { Gives result (place_behind (option_map (λ t. t.now) key.entry) (option_map (λ t. t.now) id.entry)) }
{
    let Some(key) = key else {
        return Ok(None);
    };
    let key = key_named(alloc, key.as_bytes())?;
    let id = id_behind(id)?;
    Ok(Some(ListPosition { key, id }))
}

fn prefix_of(alloc: Global, words: &Query) -> Result<Text, AllocError>
    ensures { IfOk result (λ prefix. prefix ≡ or_empty (value word.Prefix words.now)) }
{
    match words.value(Word::Prefix) {
        Some(prefix) => Text::from_str(alloc, prefix),
        None => Text::from_str(alloc, ""),
    }
}

/// A page of a bucket's versions.
pub fn list_request(alloc: Global, words: &Query, name: BucketName) -> Result<Request, Problem>
    ensures { Gives result (list_request words.now name) }
{
    let limit = limit_asked(words)? as usize;
    let key = given(words, Word::KeyMarker);
    let after = place_behind(alloc, key, given(words, Word::VersionIdMarker))?;
    let prefix = prefix_of(alloc, words)?;
    Ok(Request::ListVersions {
        name,
        prefix,
        after,
        limit,
    })
}
