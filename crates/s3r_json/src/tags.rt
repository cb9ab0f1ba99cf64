//! The body `{"TagSet":[{"Key":..,"Value":..},..]}`, and the tags of any value.

ghost use Rattle.std.specs.Prelude.{◌≡◌, IfOk, Ok, option_map, string_bytes};
ghost use Rattle.serde_json.specs.View.{view, items_view};
ghost use Rattle.serde_json.specs.Written.{compact_text};
ghost use Rattle.s3r_json.specs.Bodies.{Gives};
ghost use Rattle.s3r_json.specs.Tags.{tag_in, tag_list_in, item_tags, tags_in, tag_data, tag_list_data, tags_data, tags_body, set_of};

use crate::body::read_value;
use crate::fault::BodyFault;
use crate::members::{has_only, only_at, text_at};
use s3r_names::{Tag, TagSet, Text};
use serde_json::{Map, Value, json};
use std::alloc::{AllocError, Global};

/// The tag that a value is, an object of a key and a value and nothing else. None where it is another.
#[tactic(auto, unfolding(crate::specs::Tags::tag_in))]
pub fn tag_at(alloc: Global, value: &Value) -> Result<Option<Tag>, AllocError>
    ensures { IfOk result (λ tag. tag ≡ tag_in (view value.now)) }
{
    if !has_only(value, &["Key", "Value"]) {
        return Ok(None);
    }
    let Some(key) = text_at(value, "Key") else {
        return Ok(None);
    };
    let Some(text) = text_at(value, "Value") else {
        return Ok(None);
    };
    Ok(Some(Tag {
        key: Text::from_str(alloc, key)?,
        value: Text::from_str(alloc, text)?,
    }))
}

fn item_tags(alloc: Global, list: &[Value]) -> Result<Option<Vec<Tag>>, AllocError>
    ensures { IfOk result (λ tags. option_map (λ v. v.items) tags ≡ item_tags (items_view list.now)) }
{
    let mut tags = Vec::new(alloc);
    for item in list {
        let Some(tag) = tag_at(alloc, item)? else {
            return Ok(None);
        };
        tags.push(tag)?;
    }
    Ok(Some(tags))
}

/// The tags of a list, in its order. None where the value is no list of tags.
pub fn tag_list_at(alloc: Global, value: &Value) -> Result<Option<Vec<Tag>>, AllocError>
    ensures { IfOk result (λ tags. option_map (λ v. v.items) tags ≡ tag_list_in (view value.now)) }
{
    match value.as_array() {
        Some(list) => item_tags(alloc, list),
        None => Ok(None),
    }
}

/// The tags of `{"TagSet":[..]}`, in its order. None where the value is another.
pub fn tags_at(alloc: Global, value: &Value) -> Result<Option<Vec<Tag>>, AllocError>
    ensures { IfOk result (λ tags. option_map (λ v. v.items) tags ≡ tags_in (view value.now)) }
{
    match only_at(value, "TagSet") {
        Some(list) => tag_list_at(alloc, list),
        None => Ok(None),
    }
}

fn set_of(tags: Vec<Tag>) -> Result<TagSet, BodyFault>
    ensures { result ≡ set_of tags.items }
{
    match TagSet::from_pairs(tags) {
        Ok(set) => Ok(set),
        Err(_) => Err(BodyFault::InvalidTag),
    }
}

/// The tag set that a body is. MalformedJson where it isn't of this form, else InvalidTag where its tags are no set.
pub fn tags_of(alloc: Global, body: &[u8]) -> Result<TagSet, BodyFault>
    ensures { Gives result (tags_body body.now) }
{
    let value = read_value(alloc, body)?;
    match tags_at(alloc, &value)? {
        Some(tags) => set_of(tags),
        None => Err(BodyFault::MalformedJson),
    }
}

/// A tag as a value.
pub fn tag_value(alloc: Global, tag: &Tag) -> Result<Value, AllocError>
    ensures { IfOk result (λ value. view value ≡ tag_data tag.now) }
{
    json!(in alloc; {"Key": tag.key.as_str(), "Value": tag.value.as_str()})
}

/// Tags as a list, in their order.
pub fn tag_list_value(alloc: Global, tags: &[Tag]) -> Result<Value, AllocError>
    ensures { IfOk result (λ value. view value ≡ tag_list_data tags.now) }
{
    let mut list = Vec::new(alloc);
    for tag in tags {
        list.push(tag_value(alloc, tag)?)?;
    }
    Ok(Value::Array(list))
}

/// The text of a tag set, in the order of its keys.
pub fn tags_text(alloc: Global, tags: &TagSet) -> Result<String, AllocError>
    ensures text { IfOk result (λ text. string_bytes text ≡ compact_text (tags_data tags.now)) }
    ensures reads { IfOk result (λ text. tags_body (string_bytes text) ≡ Ok tags.now) }
{
    let list = tag_list_value(alloc, tags.as_slice())?;
    let mut members = Map::new(alloc);
    members.insert(String::from_str(alloc, "TagSet")?, list)?;
    Value::Object(members).to_string(alloc)
}
