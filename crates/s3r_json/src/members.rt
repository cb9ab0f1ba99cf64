//! What a value says. A getter answers None where the member is missing or of another type.

ghost use Rattle.std.specs.Prelude.{◌≡◌, map, option_map};
ghost use Rattle.serde_json.specs.View.{view, items_view, members_view};
ghost use Rattle.s3r_json.specs.Members.{is_named, are_named, has_only, only_in, only_text_in, text_in, optional_text_in, list_in, flag_of};

use serde_json::{Map, Value};

fn is_named(names: &[&str], key: &str) -> bool
    ensures { result ≡ is_named (map (λ n. n.now) names.now) key.now }
{
    names.contains(&key)
}

fn are_named(names: &[&str], members: &Map<String, Value>) -> bool
    ensures { result ≡ are_named (map (λ n. n.now) names.now) (members_view members.now.entries) }
{
    for (key, _) in members.iter() {
        if !is_named(names, key.as_str()) {
            return false;
        }
    }
    true
}

/// Whether the value is an object and each of its members has one of these names.
pub fn has_only(value: &Value, names: &[&str]) -> bool
    ensures { result ≡ has_only (map (λ n. n.now) names.now) (view value.now) }
{
    match value.as_object() {
        Some(members) => are_named(names, members),
        None => false,
    }
}

/// The one member of an object that has no other.
#[tactic(auto, unfolding(crate::specs::Members::only_in))]
pub fn only_at<'a>(value: &'a Value, name: &str) -> Option<&'a Value>
    ensures { option_map (λ v. view v.now) result ≡ only_in name.now (view value.now) }
{
    if has_only(value, &[name]) {
        value.get(name)
    } else {
        None
    }
}

/// The text of the one member of an object that has no other.
pub fn only_text_at<'a>(value: &'a Value, name: &str) -> Option<&'a str>
    ensures { option_map (λ s. s.now) result ≡ only_text_in name.now (view value.now) }
{
    let member = only_at(value, name)?;
    member.as_str()
}

/// The text of a member.
pub fn text_at<'a>(value: &'a Value, name: &str) -> Option<&'a str>
    ensures { option_map (λ s. s.now) result ≡ text_in name.now (view value.now) }
{
    let member = value.get(name)?;
    member.as_str()
}

/// The text of a member that may be missing. None where it is there and no text.
pub fn optional_text_at<'a>(value: &'a Value, name: &str) -> Option<Option<&'a str>>
    ensures { option_map (option_map (λ s. s.now)) result ≡ optional_text_in name.now (view value.now) }
{
    match value.get(name) {
        Some(member) => Some(Some(member.as_str()?)),
        None => Some(None),
    }
}

/// The list of a member.
pub fn list_at<'a>(value: &'a Value, name: &str) -> Option<&'a Vec<Value>>
    ensures { option_map (λ l. items_view l.now.items) result ≡ list_in name.now (view value.now) }
{
    let member = value.get(name)?;
    member.as_array()
}

/// Which of two words this is.
pub fn flag_of(word: &str, on: &str, off: &str) -> Option<bool>
    ensures { result ≡ flag_of on.now off.now word.now }
{
    if word == on {
        Some(true)
    } else if word == off {
        Some(false)
    } else {
        None
    }
}
