//! A head, read by the parser, and what its lines say.
ghost use Rattle.std.specs.Prelude.{◌≡◌, ◌≤◌, ℕ, List, length, map, codes, IfOk, IfErr, IsErrOf, ◌&&◌};
ghost use Rattle.std.specs.List.{list_any};
ghost use Rattle.httparse.specs.Grammar.{RequestHead, IsToken};
ghost use Rattle.s3r_http.specs.Lines.{line_of, is_alike, says_close, has_line, is_last};
ghost use Rattle.s3r_http.specs.Request.{IsWholeHead, lines_of};
ghost use Rattle.s3r_http.specs.Parsed.{IsHeadOf};
ghost use Rattle.s3r_http.specs.Refusals.{HeadCause};

use crate::message::{Field, HttpFault};
use http::Method;
use http::method::MethodError;
use httparse::{EMPTY_HEADER, Header, Request, Status};
use s3r_names::{Bytes, Text};
use std::alloc::{AllocError, Global};

// A head's parts.
#[derive(Drop)]
pub struct ParsedHead {
    pub method: Method,
    pub target: Text,
    pub minor: u8,
    pub fields: Vec<Field>,
}

fn fields_of(alloc: Global, headers: &[Header<'_>]) -> Result<Vec<Field>, AllocError>
    ensures { IfOk result (λ v. map line_of v.items ≡ map (λ f. (f.name.now, f.value.now)) headers.now) }
{
    let mut fields = Vec::new(alloc);
    for header in headers {
        let name = Text::from_str(alloc, header.name)?;
        let value = Bytes::from_slice(alloc, header.value)?;
        fields.push(Field { name, value })?;
    }
    Ok(fields)
}

// The method of a request line.
#[tactic(auto, using(crate::proofs::Tokens::same_token))]
fn method_of(alloc: Global, bytes: &[u8]) -> Result<Method, AllocError>
    requires { IsToken bytes.now }
    ensures { IfOk result (λ m. m ≡ bytes.now) }
{
    match Method::from_bytes(alloc, bytes) {
        Ok(method) => Ok(method),
        Err(MethodError::Invalid) => unreachable!(),
        Err(MethodError::OutOfMemory) => Err(AllocError),
    }
}

/// The parts of a head that is all of the bytes.
#[tactic(auto, using(crate::proofs::Whole::not_all, crate::proofs::Whole::too_many, crate::proofs::Whole::overflows))]
pub fn parse_head(alloc: Global, bytes: &[u8]) -> Result<ParsedHead, HttpFault>
    ensures read { IfOk result (λ r. (h : RequestHead) × IsWholeHead bytes.now h × IsHeadOf h r) }
    ensures cause { IfErr result (λ fault. HeadCause fault bytes.now) }
    ensures input { IsErrOf result HttpFault.Input → ⊥ }
{
    let mut headers = [EMPTY_HEADER; 64];
    let mut request = Request::new(&mut headers);
    let len = match request.parse(bytes) {
        Ok(Status::Complete(len)) => len,
        Ok(Status::Partial) => return Err(HttpFault::BadHead),
        Err(_) => return Err(HttpFault::BadHead),
    };
    if len != bytes.len() {
        return Err(HttpFault::BadHead);
    }
    if request.headers.len() > 64 {
        return Err(HttpFault::BadHead);
    }
    let (Some(method), Some(path), Some(minor)) = (request.method, request.path, request.version)
    else {
        return Err(HttpFault::BadHead);
    };
    let Ok(method) = method_of(alloc, method.as_bytes()) else {
        return Err(HttpFault::OutOfMemory);
    };
    let Ok(target) = Text::from_str(alloc, path) else {
        return Err(HttpFault::OutOfMemory);
    };
    let Ok(fields) = fields_of(alloc, request.headers) else {
        return Err(HttpFault::OutOfMemory);
    };
    Ok(ParsedHead {
        method,
        target,
        minor,
        fields,
    })
}

// The same text without regard to case.
fn is_alike(a: &[u8], b: &[u8]) -> bool
    ensures { result ≡ is_alike a.now b.now }
{
    a.eq_ignore_ascii_case(b)
}

pub fn is_named(field: &Field, name: &[u8]) -> bool
    ensures { result ≡ is_alike (line_of field.now).0 name.now }
{
    is_alike(field.name.as_str().as_bytes(), name)
}

fn has_named(fields: &[Field], name: &[u8]) -> bool
    ensures { result ≡ list_any (λ field. is_alike (line_of field).0 name.now) fields.now }
{
    fields.iter().any(|field| is_named(field, name))
}

pub fn has_line(fields: &[Field], name: &[u8]) -> bool
    ensures { result ≡ has_line name.now (map line_of fields.now) }
{
    has_named(fields, name)
}

fn says_close(field: &Field) -> bool
    ensures { result ≡ says_close (line_of field.now) }
{
    is_named(field, b"connection") && is_alike(field.value.as_slice(), b"close")
}

fn any_says_close(fields: &[Field]) -> bool
    ensures { result ≡ list_any (λ field. says_close (line_of field)) fields.now }
{
    fields.iter().any(|field| says_close(field))
}

pub fn is_last(minor: u8, fields: &[Field]) -> bool
    ensures { result ≡ is_last minor (map line_of fields.now) }
{
    minor == 0 || any_says_close(fields)
}
