//! The tests that bytes are a tag's key or value, and that tags are a set.

ghost use Rattle.std.specs.Prelude.{◌≡◌, length, IfSome, is_some, nat_le, ◌&&◌};
ghost use Rattle.std.specs.List.{list_all};
ghost use Rattle.std.specs.Str.{chars};
ghost use Rattle.s3r_names.specs.Tags.{is_text, is_tag_key, is_tag_value, is_tag, is_key_below, has_rising_keys, is_tag_set};

use crate::Tag;
use std::str;

fn char_count(text: &str) -> usize
    ensures { result ≡ length (chars text.now) }
{
    text.chars().count()
}

fn is_within(count: usize, least: usize, most: usize) -> bool
    ensures { result ≡ (nat_le least count && nat_le count most) }
{
    least <= count && count <= most
}

/// The bytes as text, if they are text of so many characters.
fn text_of(bytes: &[u8], least: usize, most: usize) -> Option<&str>
    ensures text { IfSome result (λ text. text.now ≡ bytes.now) }
    ensures named { is_some result ≡ is_text least most bytes.now }
{
    match str::from_utf8(bytes) {
        Ok(text) => is_within(char_count(text), least, most).then_some(text),
        Err(_) => None,
    }
}

pub(crate) fn tag_key_of(bytes: &[u8]) -> Option<&str>
    ensures text { IfSome result (λ text. text.now ≡ bytes.now) }
    ensures named { is_some result ≡ is_tag_key bytes.now }
{
    text_of(bytes, 1, 128)
}

pub(crate) fn tag_value_of(bytes: &[u8]) -> Option<&str>
    ensures text { IfSome result (λ text. text.now ≡ bytes.now) }
    ensures named { is_some result ≡ is_tag_value bytes.now }
{
    text_of(bytes, 0, 256)
}

fn is_tag(tag: &Tag) -> bool
    ensures { result ≡ is_tag tag.now }
{
    tag_key_of(tag.key.as_bytes()).is_some() && tag_value_of(tag.value.as_bytes()).is_some()
}

/// Whether the first key is before the second by their bytes.
pub fn is_key_below(first: &[u8], second: &[u8]) -> bool
    ensures { result ≡ is_key_below first.now second.now }
{
    first.cmp(second).is_lt()
}

fn are_tags(tags: &[Tag]) -> bool
    ensures { result ≡ list_all is_tag tags.now }
{
    tags.iter().all(|tag| is_tag(tag))
}

fn is_tag_below(tag: &Tag, next: &Tag) -> bool
    ensures { result ≡ is_key_below tag.now.key next.now.key }
{
    is_key_below(tag.key.as_bytes(), next.key.as_bytes())
}

fn has_rising_keys(tags: &[Tag]) -> bool
    ensures { result ≡ has_rising_keys tags.now }
{
    tags.iter()
        .zip(tags.iter().skip(1))
        .all(|(tag, next)| is_tag_below(tag, next))
}

pub(crate) fn is_tag_set(tags: &[Tag]) -> bool
    ensures { result ≡ is_tag_set tags.now }
{
    tags.len() <= 10 && are_tags(tags) && has_rising_keys(tags)
}
