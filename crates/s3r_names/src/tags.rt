//! Tags.

ghost use Rattle.std.specs.Prelude.{◌≡◌, ◌↔◌, ◌⊎◌, [], IsTrue, IfOk, OnOk, IfErr, IsErrOf, Ok, Err, true, false, if◌then◌else◌, map, string_bytes};
ghost use Rattle.std.specs.List.{list_all};
ghost use Rattle.s3r_names.specs.Tags.{is_tag_key, is_tag_value, is_tag, is_tag_set, is_tag_list, in_key_order};
ghost use Rattle.s3r_names.specs.Query.{tag_of, query_tags, query_text};

use crate::tag_order::put_in_order;
use crate::tag_rule::{is_tag_set, tag_key_of, tag_value_of};
use crate::{Bytes, NameFault, Text, form_pairs};
use form_urlencoded::Serializer;
use std::alloc::{AllocError, Global};
use std::marker::Model;

/// The most tags of a set.
const LIMIT: usize = 10;

/// A tag's key and value.
#[derive(Debug, Drop)]
pub struct Tag {
    pub key: Text,
    pub value: Text,
}

impl Tag {
    /// The tag whose key and value the bytes spell.
    pub fn read(alloc: Global, key: &[u8], value: &[u8]) -> Result<Tag, NameFault>
        ensures ok { IfOk result (λ tag. tag ≡ tag_of (key.now, value.now)) }
        ensures named { OnOk result (IsTrue (is_tag (tag_of (key.now, value.now)))) }
        ensures refused { IsErrOf result NameFault.InvalidTag → is_tag (tag_of (key.now, value.now)) ≡ false }
        ensures faults { IfErr result (λ fault. (fault ≡ NameFault.InvalidTag) ⊎ (fault ≡ NameFault.OutOfMemory)) }
    {
        Ok(Tag {
            key: Tag::read_key(alloc, key)?,
            value: Tag::read_value(alloc, value)?,
        })
    }

    /// The key that the bytes spell.
    pub fn read_key(alloc: Global, bytes: &[u8]) -> Result<Text, NameFault>
        ensures ok { IfOk result (λ key. key ≡ bytes.now) }
        ensures named { OnOk result (IsTrue (is_tag_key bytes.now)) }
        ensures refused { IsErrOf result NameFault.InvalidTag ↔ (is_tag_key bytes.now ≡ false) }
        ensures faults { IfErr result (λ fault. (fault ≡ NameFault.InvalidTag) ⊎ (fault ≡ NameFault.OutOfMemory)) }
    {
        match tag_key_of(bytes) {
            Some(text) => Ok(Text::from_str(alloc, text)?),
            None => Err(NameFault::InvalidTag),
        }
    }

    /// The value that the bytes spell.
    pub fn read_value(alloc: Global, bytes: &[u8]) -> Result<Text, NameFault>
        ensures ok { IfOk result (λ value. value ≡ bytes.now) }
        ensures named { OnOk result (IsTrue (is_tag_value bytes.now)) }
        ensures refused { IsErrOf result NameFault.InvalidTag ↔ (is_tag_value bytes.now ≡ false) }
        ensures faults { IfErr result (λ fault. (fault ≡ NameFault.InvalidTag) ⊎ (fault ≡ NameFault.OutOfMemory)) }
    {
        match tag_value_of(bytes) {
            Some(text) => Ok(Text::from_str(alloc, text)?),
            None => Err(NameFault::InvalidTag),
        }
    }
}

impl Clone for Tag {
    ghost is_clone = { λ tag copy. copy ≡ tag };

    fn clone(&self) -> Result<Tag, AllocError> {
        Ok(Tag {
            key: self.key.clone()?,
            value: self.value.clone()?,
        })
    }
}

/// The pairs as tags.
fn tags_of(alloc: Global, pairs: &[(Bytes, Bytes)]) -> Result<Vec<Tag>, NameFault>
    ensures ok { IfOk result (λ tags. tags.items ≡ map tag_of pairs.now) }
    ensures refused { IsErrOf result NameFault.InvalidTag → list_all is_tag (map tag_of pairs.now) ≡ false }
    ensures faults { IfErr result (λ fault. (fault ≡ NameFault.InvalidTag) ⊎ (fault ≡ NameFault.OutOfMemory)) }
{
    let mut tags = Vec::new(alloc);
    for (key, value) in pairs {
        tags.push(Tag::read(alloc, key.as_slice(), value.as_slice())?)?;
    }
    Ok(tags)
}

/// The web form of these tags.
fn query_text(alloc: Global, tags: &[Tag]) -> Result<String, AllocError>
    ensures { IfOk result (λ text. string_bytes text ≡ query_text tags.now) }
{
    let mut form = Serializer::new(String::new(alloc));
    for tag in tags {
        form.append_pair(tag.key.as_str(), tag.value.as_str())?;
    }
    Ok(form.finish())
}

/// Tags in rising order of their keys, seen as their list.
#[derive(Debug, Drop)]
pub struct TagSet {
    tags: Vec<Tag>,
}

impl Model for TagSet {
    ghost use Rattle.std.specs.Prelude.{List, IsTrue};
    ghost use Rattle.s3r_names.specs.declared.tags.Tag.{Tag};
    ghost use Rattle.s3r_names.specs.Tags.{is_tag_set};

    ghost Value = { List Tag };

    ghost view = { λ set. set.tags.items };

    ghost invariant = { λ set. IsTrue (is_tag_set set.tags.items) };
}

impl TagSet {
    pub fn none(alloc: Global) -> TagSet
        ensures { result ≡ [] }
    {
        TagSet {
            tags: Vec::new(alloc),
        }
    }

    /// The set of these tags.
    pub fn from_tags(tags: Vec<Tag>) -> Result<TagSet, NameFault>
        ensures { result ≡ (if is_tag_set tags.items then Ok tags.items else Err NameFault.InvalidTag) }
    {
        if !is_tag_set(&tags) {
            return Err(NameFault::InvalidTag);
        }
        Ok(TagSet { tags })
    }

    /// The set of these tags, in whatever order they come.
    pub fn from_pairs(pairs: Vec<Tag>) -> Result<TagSet, NameFault>
        ensures { result ≡ (if is_tag_list pairs.items then Ok (in_key_order pairs.items) else Err NameFault.InvalidTag) }
    {
        let mut tags = pairs;
        if tags.len() > LIMIT {
            return Err(NameFault::InvalidTag);
        }
        put_in_order(&mut tags);
        TagSet::from_tags(tags)
    }

    /// The set of the pairs of a web form.
    pub fn read_query(alloc: Global, query: &[u8]) -> Result<TagSet, NameFault>
        ensures ok { IfOk result (λ set. set ≡ in_key_order (query_tags query.now)) }
        ensures named { OnOk result (IsTrue (is_tag_list (query_tags query.now))) }
        ensures refused { IsErrOf result NameFault.InvalidTag → is_tag_list (query_tags query.now) ≡ false }
        ensures faults { IfErr result (λ fault. (fault ≡ NameFault.InvalidTag) ⊎ (fault ≡ NameFault.OutOfMemory)) }
    {
        TagSet::from_pairs(tags_of(alloc, &form_pairs(alloc, query)?)?)
    }

    /// The web form of the tags, in their order.
    pub fn print_query(&self, alloc: Global) -> Result<String, AllocError>
        ensures text { IfOk result (λ text. string_bytes text ≡ query_text self.now) }
        ensures reads { IfOk result (λ text. IsTrue (is_tag_list (query_tags (string_bytes text)))
            × (in_key_order (query_tags (string_bytes text)) ≡ self.now)) }
    {
        query_text(alloc, self.as_slice())
    }

    pub fn as_slice(&self) -> &[Tag]
        ensures listed { result.now ≡ self.now }
        ensures named { IsTrue (is_tag_set self.now) }
    {
        self.tags.as_slice()
    }
}

impl Clone for TagSet {
    ghost is_clone = { λ set copy. copy ≡ set };

    fn clone(&self) -> Result<TagSet, AllocError> {
        Ok(TagSet {
            tags: self.tags.clone()?,
        })
    }
}
