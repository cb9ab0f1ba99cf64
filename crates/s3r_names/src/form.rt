//! The pairs of a web form.

ghost use Rattle.std.specs.Prelude.{◌≡◌, IfOk};
ghost use Rattle.form_urlencoded.specs.Form as form;

use crate::Bytes;
use form_urlencoded::raw_pairs;
use percent_encoding::percent_decode;
use std::alloc::{AllocError, Global};

/// The bytes that a name or a value stands for: `+` for a space, then each `%XX` for its byte.
fn decoded(alloc: Global, raw: &[u8]) -> Result<Bytes, AllocError>
    ensures { IfOk result (λ bytes. bytes ≡ form.decode raw.now) }
{
    let mut spaced = Vec::new(alloc);
    for byte in raw {
        spaced.push(if *byte == b'+' { b' ' } else { *byte })?;
    }
    let mut bytes = Vec::new(alloc);
    percent_decode(spaced.as_slice()).append_to(&mut bytes)?;
    Ok(Bytes::from_vec(bytes))
}

/// The decoded names and values of a form, in order.
pub fn form_pairs(alloc: Global, text: &[u8]) -> Result<Vec<(Bytes, Bytes)>, AllocError>
    ensures { IfOk result (λ pairs. pairs.items ≡ form.parse text.now) }
{
    let mut pairs = Vec::new(alloc);
    for (name, value) in raw_pairs(text) {
        pairs.push((decoded(alloc, name)?, decoded(alloc, value)?))?;
    }
    Ok(pairs)
}
