//! Which region the body of a new bucket's request names.

ghost use Rattle.std.specs.Prelude.{◌≡◌, option_map, option_and_then};
ghost use Rattle.serde_json.specs.Events.{members_len};
ghost use Rattle.serde_json.specs.Find.{get, as_str, as_object};
ghost use Rattle.serde_json.specs.View.{view};
ghost use Rattle.s3r_api.specs.Problems.{Gives};
ghost use Rattle.s3r_api.specs.Location.{location_in, region_named, region_of};

use crate::problem::Problem;
use serde_json::{Category, Value};
use std::alloc::Global;

fn member_count(value: &Value) -> Option<usize>
    ensures { result ≡ option_map members_len (as_object (view value.now)) }
{
    let members = value.as_object()?;
    Some(members.len())
}

fn text_at<'a>(value: &'a Value, name: &str) -> Option<&'a str>
    ensures { option_map (λ s. s.now) result ≡ option_and_then as_str (get name.now (view value.now)) }
{
    let member = value.get(name)?;
    member.as_str()
}

/// The text of the one member that the value may have.
fn location_in(value: &Value) -> Option<&str>
    ensures { option_map (λ s. s.now) result ≡ location_in (view value.now) }
{
    let count = member_count(value)?;
    let text = text_at(value, "LocationConstraint")?;
    if count == 1 { Some(text) } else { None }
}

/// The region that `r` and a digit name.
fn region_named(text: &str) -> Option<u32>
    ensures { result ≡ region_named text.now }
{
    match text.as_bytes() {
        [b'r', digit] if digit.is_ascii_digit() => Some(u32::from(*digit - b'0')),
        _ => None,
    }
}

/// An empty body names the first region.
#[tactic(auto, unfolding(crate::specs::Location::region_of))]
pub fn region_of(alloc: Global, body: &[u8]) -> Result<Option<u32>, Problem>
    ensures { Gives result (region_of body.now) }
{
    if body.is_empty() {
        return Ok(Some(0));
    }
    let value = match Value::from_slice(alloc, body) {
        Ok(value) => value,
        Err(e) => {
            return Err(match e.classify() {
                Category::Memory => Problem::OutOfMemory,
                _ => Problem::MalformedJson,
            });
        }
    };
    match location_in(&value) {
        Some(text) => Ok(region_named(text)),
        None => Err(Problem::MalformedJson),
    }
}
