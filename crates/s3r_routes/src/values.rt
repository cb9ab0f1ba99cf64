//! What words of a query say.

ghost use Rattle.std.specs.Prelude.{◌≡◌, ◌≤◌, option_map, IfOk};
ghost use Rattle.s3r_routes.specs.Values.{given, limit_of, version_of};

use crate::fault::RouteFault;
use crate::names::version_named;
use crate::numbers::number_named;
use crate::query::Query;
use crate::words::Word;
use s3r_names::VersionId;

/// The most entries of a listing, and how many it has where no other number is given.
const PAGE: u32 = 1000;

/// The value of a word. An empty one counts as missing.
pub fn given(query: &Query, word: Word) -> Option<&str>
    ensures { option_map (λ value. value.now) result ≡ given word query.now }
{
    match query.value(word) {
        Some(value) if !value.is_empty() => Some(value),
        _ => None,
    }
}

/// How many entries a listing may have, from 1 to 1,000. InvalidQuery where the word says another number or none.
pub fn limit_of(query: &Query) -> Result<u32, RouteFault>
    ensures value { result ≡ limit_of query.now }
    ensures least { IfOk result (λ limit. 1 ≤ limit) }
{
    let Some(value) = query.value(Word::MaxKeys) else {
        return Ok(PAGE);
    };
    match number_named(value, PAGE) {
        Some(limit) if limit > 0 => Ok(limit),
        _ => Err(RouteFault::InvalidQuery),
    }
}

/// The version that is named. InvalidVersionId where the word's value is no id's text, also where it is empty.
pub fn version_of(query: &Query) -> Result<Option<VersionId>, RouteFault>
    ensures { result ≡ version_of query.now }
{
    match query.value(Word::VersionId) {
        Some(id) => Ok(Some(version_named(id.as_bytes())?)),
        None => Ok(None),
    }
}
