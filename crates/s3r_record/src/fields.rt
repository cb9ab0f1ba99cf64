//! Fields, read from the front of what is left.

ghost use Rattle.std.specs.Int.{w16, w32, w64};
ghost use Rattle.s3r_names.specs.Bucket.{is_bucket_name};
ghost use Rattle.s3r_names.specs.Key.{is_key};
ghost use Rattle.s3r_names.specs.Class.{is_class_name};
ghost use Rattle.s3r_record.specs.Reading.{Gives, unread, place, number_at, byte_at, flag_at, bytes_at, sized_at, tested_at, is_body};

use crate::fault::RecordFault;
use crate::reading::Rest;
use s3r_names::{BucketName, Bytes, ClassName, Key, NameFault};
use std::alloc::Global;

pub(crate) fn u16_of(left: Rest<'_>) -> Result<(u16, Rest<'_>), RecordFault>
    ensures { Gives (λ x. (x.0, unread x.1)) result (number_at w16 (unread left.entry)) }
{
    if left.bytes.len() < 2 {
        return Err(left.fault());
    }
    let (front, rest) = left.bytes.split_at(2);
    let number = u16::from_be_bytes([front[0], front[1]]);
    Ok((number, left.with(rest)))
}

pub(crate) fn u32_of(left: Rest<'_>) -> Result<(u32, Rest<'_>), RecordFault>
    ensures { Gives (λ x. (x.0, unread x.1)) result (number_at w32 (unread left.entry)) }
{
    if left.bytes.len() < 4 {
        return Err(left.fault());
    }
    let (front, rest) = left.bytes.split_at(4);
    let number = u32::from_be_bytes([front[0], front[1], front[2], front[3]]);
    Ok((number, left.with(rest)))
}

pub(crate) fn u64_of(left: Rest<'_>) -> Result<(u64, Rest<'_>), RecordFault>
    ensures { Gives (λ x. (x.0, unread x.1)) result (number_at w64 (unread left.entry)) }
{
    if left.bytes.len() < 8 {
        return Err(left.fault());
    }
    let (front, rest) = left.bytes.split_at(8);
    let number = u64::from_be_bytes([
        front[0], front[1], front[2], front[3], front[4], front[5], front[6], front[7],
    ]);
    Ok((number, left.with(rest)))
}

/// A byte that is at most `most`.
#[tactic(auto, unfolding(crate::specs::Reading::byte_at))]
pub(crate) fn byte_of(most: u8, left: Rest<'_>) -> Result<(u8, Rest<'_>), RecordFault>
    ensures { Gives (λ x. (x.0, unread x.1)) result (byte_at most (unread left.entry)) }
{
    match left.bytes {
        [byte, rest @ ..] if *byte <= most => Ok((*byte, left.with(rest))),
        [] | [_, ..] => Err(left.fault()),
    }
}

#[tactic(auto, unfolding(crate::specs::Reading::flag_at))]
pub(crate) fn flag_of(left: Rest<'_>) -> Result<(bool, Rest<'_>), RecordFault>
    ensures { Gives (λ x. (x.0, unread x.1)) result (flag_at (unread left.entry)) }
{
    match left.bytes {
        [0, rest @ ..] => Ok((false, left.with(rest))),
        [1, rest @ ..] => Ok((true, left.with(rest))),
        [] | [_, ..] => Err(left.fault()),
    }
}

/// The next `len` bytes, of a field that begins at `field`.
fn bytes_of<'a>(
    field: Rest<'a>,
    len: usize,
    rest: Rest<'a>,
) -> Result<(&'a [u8], Rest<'a>), RecordFault>
    ensures { Gives (λ x. (x.0.now, unread x.1)) result (bytes_at (place (unread field.entry)) len (unread rest.entry)) }
{
    if rest.bytes.len() < len {
        return Err(field.fault());
    }
    let (bytes, after) = rest.bytes.split_at(len);
    Ok((bytes, rest.with(after)))
}

#[tactic(auto, unfolding(crate::specs::Reading::sized_at))]
pub(crate) fn text_of(left: Rest<'_>) -> Result<(&[u8], Rest<'_>), RecordFault>
    ensures { Gives (λ x. (x.0.now, unread x.1)) result (sized_at w16 (unread left.entry)) }
{
    let (len, rest) = u16_of(left)?;
    bytes_of(left, len as usize, rest)
}

#[tactic(auto, unfolding(crate::specs::Reading::tested_at))]
pub(crate) fn bucket_name_of(
    alloc: Global,
    left: Rest<'_>,
) -> Result<(BucketName, Rest<'_>), RecordFault>
    ensures { Gives (λ x. (x.0, unread x.1)) result (tested_at w16 is_bucket_name (unread left.entry)) }
{
    let (text, rest) = text_of(left)?;
    match BucketName::read(alloc, text) {
        Ok(name) => Ok((name, rest)),
        Err(NameFault::OutOfMemory) => Err(RecordFault::OutOfMemory),
        Err(_) => Err(left.fault()),
    }
}

#[tactic(auto, unfolding(crate::specs::Reading::tested_at))]
pub(crate) fn key_of(alloc: Global, left: Rest<'_>) -> Result<(Key, Rest<'_>), RecordFault>
    ensures { Gives (λ x. (x.0, unread x.1)) result (tested_at w16 is_key (unread left.entry)) }
{
    let (text, rest) = text_of(left)?;
    match Key::read(alloc, text) {
        Ok(key) => Ok((key, rest)),
        Err(NameFault::OutOfMemory) => Err(RecordFault::OutOfMemory),
        Err(_) => Err(left.fault()),
    }
}

#[tactic(auto, unfolding(crate::specs::Reading::tested_at))]
pub(crate) fn class_of(alloc: Global, left: Rest<'_>) -> Result<(ClassName, Rest<'_>), RecordFault>
    ensures { Gives (λ x. (x.0, unread x.1)) result (tested_at w16 is_class_name (unread left.entry)) }
{
    let (text, rest) = text_of(left)?;
    match ClassName::read(alloc, text) {
        Ok(class) => Ok((class, rest)),
        Err(NameFault::OutOfMemory) => Err(RecordFault::OutOfMemory),
        Err(_) => Err(left.fault()),
    }
}

/// A body of at most so many bytes.
#[tactic(auto, unfolding(crate::specs::Reading::tested_at, crate::specs::Reading::sized_at))]
pub(crate) fn body_of(
    alloc: Global,
    most: usize,
    left: Rest<'_>,
) -> Result<(Bytes, Rest<'_>), RecordFault>
    ensures { Gives (λ x. (x.0, unread x.1)) result (tested_at w32 (is_body most) (unread left.entry)) }
{
    let (len, rest) = u32_of(left)?;
    let (bytes, rest) = bytes_of(left, len as usize, rest)?;
    if bytes.len() > most {
        return Err(left.fault());
    }
    Ok((Bytes::from_slice(alloc, bytes)?, rest))
}
