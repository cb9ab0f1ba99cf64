//! An answer, printed.
ghost use Rattle.std.specs.Prelude.{◌≡◌, ◌++◌, [], unwrap_or, if◌then◌else◌, IfOk, OnOk, flat_map};
ghost use Rattle.http.specs.StatusCode.{reason_phrase};
ghost use Rattle.s3r_http.specs.Response.{line, code_text, status_line, field_line, length_line, last_line, head_text, response_text};

use crate::message::Field;
use http::StatusCode;
use std::alloc::{AllocError, Global};

fn push_line(out: &mut Vec<u8>, text: &[u8]) -> Result<(), AllocError>
    ensures { OnOk result (out.new.items ≡ out.old.items ++ line text.now) }
{
    out.extend_from_slice(text)?;
    out.extend_from_slice(b"\r\n")
}

fn phrase_of(status: StatusCode) -> &'static str
    ensures { result.now ≡ unwrap_or (reason_phrase status) [] }
{
    match status.canonical_reason() {
        Some(phrase) => phrase,
        None => "",
    }
}

#[tactic(auto, unfolding(crate::specs::Response::code_text))]
fn push_code(out: &mut Vec<u8>, status: StatusCode) -> Result<(), AllocError>
    ensures { OnOk result (out.new.items ≡ out.old.items ++ code_text status) }
{
    out.extend_from_slice(status.as_str().as_bytes())
}

#[tactic(auto, unfolding(crate::specs::Response::status_line))]
fn push_status(out: &mut Vec<u8>, status: StatusCode) -> Result<(), AllocError>
    ensures { OnOk result (out.new.items ≡ out.old.items ++ status_line status) }
{
    out.extend_from_slice(b"HTTP/1.1 ")?;
    push_code(out, status)?;
    out.extend_from_slice(b" ")?;
    push_line(out, phrase_of(status).as_bytes())
}

#[tactic(auto, unfolding(crate::specs::Response::length_line))]
fn push_length(
    alloc: Global,
    out: &mut Vec<u8>,
    status: StatusCode,
    length: usize,
) -> Result<(), AllocError>
    ensures { OnOk result (out.new.items ≡ out.old.items ++ length_line status length) }
{
    if status.as_u16() == 204 {
        return Ok(());
    }
    let text = format!(in alloc; "Content-Length: {length}")?;
    push_line(out, text.as_bytes())
}

fn push_field(out: &mut Vec<u8>, field: &Field) -> Result<(), AllocError>
    ensures { OnOk result (out.new.items ≡ out.old.items ++ field_line field.now) }
{
    out.extend_from_slice(field.name.as_str().as_bytes())?;
    out.extend_from_slice(b": ")?;
    push_line(out, field.value.as_slice())
}

fn push_fields(out: &mut Vec<u8>, fields: &[Field]) -> Result<(), AllocError>
    ensures { OnOk result (out.new.items ≡ out.old.items ++ flat_map field_line fields.now) }
{
    for field in fields {
        push_field(out, field)?;
    }
    Ok(())
}

#[tactic(auto, unfolding(crate::specs::Response::last_line))]
fn push_last(out: &mut Vec<u8>, last: bool) -> Result<(), AllocError>
    ensures { OnOk result (out.new.items ≡ out.old.items ++ last_line last) }
{
    if last {
        push_line(out, b"Connection: close")?;
    }
    Ok(())
}

fn push_body(out: &mut Vec<u8>, body: &[u8], head: bool) -> Result<(), AllocError>
    ensures { OnOk result (out.new.items ≡ out.old.items ++ (if head then [] else body.now)) }
{
    if head {
        return Ok(());
    }
    out.extend_from_slice(body)
}

/// The head of an answer (RFC 9112, section 4) with a body of this length: the status line with the status's phrase,
/// `Content-Length` (not with 204), these lines in order, `Connection: close` on a last answer, and an empty line. It is
/// the whole answer to a HEAD request.
pub fn print_head(
    alloc: Global,
    status: StatusCode,
    fields: &[Field],
    length: usize,
    last: bool,
) -> Result<Vec<u8>, AllocError>
    ensures { IfOk result (λ text. text.items ≡ head_text status fields.now length last) }
{
    let mut out = Vec::new(alloc);
    push_status(&mut out, status)?;
    push_length(alloc, &mut out, status, length)?;
    push_fields(&mut out, fields)?;
    push_last(&mut out, last)?;
    push_line(&mut out, b"")?;
    Ok(out)
}

/// The text of an answer: its head, and its body. The answer to a HEAD request has no body.
pub fn print_response(
    alloc: Global,
    status: StatusCode,
    fields: &[Field],
    body: &[u8],
    head: bool,
    last: bool,
) -> Result<Vec<u8>, AllocError>
    ensures { IfOk result (λ text. text.items ≡ response_text status fields.now body.now head last) }
{
    let mut out = print_head(alloc, status, fields, body.len(), last)?;
    push_body(&mut out, body, head)?;
    Ok(out)
}
