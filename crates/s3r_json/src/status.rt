//! The body `{"Status":WORD}`.

ghost use Rattle.std.specs.Prelude.{◌≡◌, IfOk, Ok, codes, string_bytes};
ghost use Rattle.serde_json.specs.View.{view};
ghost use Rattle.serde_json.specs.Written.{compact_text};
ghost use Rattle.s3r_json.specs.Bodies.{Gives, text_body};
ghost use Rattle.s3r_json.specs.Status.{status_in, status_data, status_body};

use crate::body::read_value;
use crate::fault::BodyFault;
use crate::members::{flag_of, only_text_at};
use serde_json::{Value, json};
use std::alloc::{AllocError, Global};

/// Whether a value's status is on or off.
pub fn status_at(value: &Value, on: &str, off: &str) -> Option<bool>
    ensures { result ≡ status_in on.now off.now (view value.now) }
{
    let word = only_text_at(value, "Status")?;
    flag_of(word, on, off)
}

/// Whether a body's status is on or off. MalformedJson where it has no such status.
pub fn status_of(alloc: Global, body: &[u8], on: &str, off: &str) -> Result<bool, BodyFault>
    ensures { Gives result (status_body on.now off.now body.now) }
{
    let value = read_value(alloc, body)?;
    match status_at(&value, on, off) {
        Some(flag) => Ok(flag),
        None => Err(BodyFault::MalformedJson),
    }
}

/// The text `{"Status":WORD}`.
pub fn status_text(alloc: Global, word: &str) -> Result<String, AllocError>
    ensures text { IfOk result (λ text. string_bytes text ≡ compact_text (status_data word.now)) }
    ensures reads { IfOk result (λ text. text_body (codes "Status") (string_bytes text) ≡ Ok word.now) }
{
    json!(in alloc; {"Status": word})?.to_string(alloc)
}
