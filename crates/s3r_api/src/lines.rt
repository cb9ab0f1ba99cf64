//! What header lines of a request say (S3 API Reference, CreateBucket and PutObject). Of a repeated line the first counts.

ghost use Rattle.std.specs.Prelude.{◌≡◌, option_map};
ghost use Rattle.s3r_http.specs.Lines.{is_alike};
ghost use Rattle.s3r_api.specs.Problems.{Gives};
ghost use Rattle.s3r_api.specs.Lines.{first_line, locked_by, tags_by, hold_by, class_by};

use crate::problem::Problem;
use s3r_http::{Field, RawRequest};
use s3r_names::{ClassName, NameFault, TagSet};
use std::alloc::Global;

fn is_named(field: &Field, name: &str) -> bool
    ensures { result ≡ is_alike field.now.name name.now }
{
    field.name.as_bytes().eq_ignore_ascii_case(name.as_bytes())
}

/// The value of the first line of this name.
fn first_line<'a>(raw: &'a RawRequest, name: &str) -> Option<&'a [u8]>
    ensures { option_map (λ value. value.now) result ≡ first_line name.now raw.now }
{
    let field = raw
        .fields
        .as_slice()
        .iter()
        .find(|field| is_named(field, name))?;
    Some(field.value.as_slice())
}

/// Whether a new bucket has Object Lock. InvalidQuery where the line says neither `true` nor `false`.
pub fn locked_by(raw: &RawRequest) -> Result<bool, Problem>
    ensures { result ≡ locked_by raw.now }
{
    match first_line(raw, "x-amz-bucket-object-lock-enabled") {
        None => Ok(false),
        Some(word) if word.eq_ignore_ascii_case(b"true") => Ok(true),
        Some(word) if word.eq_ignore_ascii_case(b"false") => Ok(false),
        Some(_) => Err(Problem::InvalidQuery),
    }
}

/// The tags of a new version. InvalidTag where the line isn't the web form of tags that a set may have.
pub fn tags_by(alloc: Global, raw: &RawRequest) -> Result<TagSet, Problem>
    ensures { Gives result (tags_by raw.now) }
{
    let Some(form) = first_line(raw, "x-amz-tagging") else {
        return Ok(TagSet::none(alloc));
    };
    match TagSet::read_query(alloc, form) {
        Ok(tags) => Ok(tags),
        Err(NameFault::InvalidTag) => Err(Problem::InvalidTag),
        Err(_) => Err(Problem::OutOfMemory),
    }
}

/// Whether a new version is held. InvalidHold where the line says neither `ON` nor `OFF`.
pub fn hold_by(raw: &RawRequest) -> Result<bool, Problem>
    ensures { result ≡ hold_by raw.now }
{
    match first_line(raw, "x-amz-object-lock-legal-hold") {
        None => Ok(false),
        Some(word) if word == b"ON".as_slice() => Ok(true),
        Some(word) if word == b"OFF".as_slice() => Ok(false),
        Some(_) => Err(Problem::InvalidHold),
    }
}

/// The storage class of a new version.
pub fn class_by(alloc: Global, raw: &RawRequest) -> Result<ClassName, Problem>
    ensures { Gives result (class_by raw.now) }
{
    let Some(name) = first_line(raw, "x-amz-storage-class") else {
        return Ok(ClassName::standard(alloc)?);
    };
    match ClassName::read(alloc, name) {
        Ok(class) => Ok(class),
        Err(NameFault::InvalidStorageClass) => Err(Problem::InvalidStorageClass),
        Err(_) => Err(Problem::OutOfMemory),
    }
}
