//! A body as a value.

ghost use Rattle.std.specs.Prelude.{◌≡◌, Ok, string_bytes};
ghost use Rattle.serde_json.specs.View.{view};
ghost use Rattle.s3r_json.specs.Bodies.{GivesBy, of_body, text_body};

use crate::fault::BodyFault;
use crate::members::only_text_at;
use serde_json::{Category, Value};
use std::alloc::Global;

/// The value that a body is. MalformedJson where it isn't UTF-8, or isn't one value of JSON to its end, of at most 127 levels.
pub fn read_value(alloc: Global, body: &[u8]) -> Result<Value, BodyFault>
    ensures { GivesBy view result (of_body Ok body.now) }
{
    match Value::from_slice(alloc, body) {
        Ok(value) => Ok(value),
        Err(e) => match e.classify() {
            Category::Memory => Err(BodyFault::OutOfMemory),
            _ => Err(BodyFault::MalformedJson),
        },
    }
}

/// The text of a body that is an object with this one member, a text.
pub fn text_of(alloc: Global, body: &[u8], name: &str) -> Result<String, BodyFault>
    ensures { GivesBy string_bytes result (text_body name.now body.now) }
{
    let value = read_value(alloc, body)?;
    match only_text_at(&value, name) {
        Some(text) => Ok(String::from_str(alloc, text)?),
        None => Err(BodyFault::MalformedJson),
    }
}
