//! How long a body is by the Content-Length lines.
ghost use Rattle.std.specs.Prelude.{◌≡◌, ◌≤◌, ◌<◌, ◌&&◌, ℕ, List, ◌∷◌, true, length, map, codes, IfOk, IfSome, IfNone};
ghost use Rattle.std.specs.List.{list_all};
ghost use Rattle.s3r_http.specs.Lines.{line_of, is_digit, is_number, number_of, says_same, values_of};
ghost use Rattle.s3r_http.specs.Lengths.{significant, LengthIs};

use crate::lines::is_named;
use crate::message::Field;
use std::alloc::{AllocError, Global};

// A body has at most so many bytes.
const BODY_LIMIT: usize = 4_194_304;

// What the lines say of a body's length.
#[derive(Clone, Copy, Debug, PartialEq, Eq)]
pub enum Length {
    // It is no number, or there are two.
    Wrong,
    // It is above the limit.
    TooLarge,
    // So many bytes, 0 where no line says it.
    Known(usize),
}

fn is_digit(byte: u8) -> bool
    ensures { result ≡ is_digit byte }
{
    48 <= byte && byte <= 57
}

fn has_digits(text: &[u8]) -> bool
    ensures { result ≡ list_all is_digit text.now }
{
    text.iter().all(|byte| is_digit(*byte))
}

fn is_number(text: &[u8]) -> bool
    ensures { result ≡ is_number text.now }
{
    match text {
        [] => false,
        [_, ..] => has_digits(text),
    }
}

// Without the zeros in front.
fn significant(digits: &[u8]) -> &[u8]
    ensures { result.now ≡ significant digits.now }
{
    for (i, digit) in digits.iter().enumerate() {
        if *digit != b'0' {
            return &digits[i..];
        }
    }
    &[]
}

// The number that digits spell, where it is within the limit.
fn number_within(digits: &[u8]) -> Option<usize>
    requires { list_all is_digit digits.now ≡ true }
    ensures within { IfSome result (λ n. (number_of digits.now ≡ n) × (n ≤ 4194304)) }
    ensures above { IfNone result (4194304 < number_of digits.now) }
{
    let mut number = 0;
    for digit in digits {
        if number > BODY_LIMIT {
            return None;
        }
        number = number * 10 + usize::from(*digit).saturating_sub(48);
    }
    if number > BODY_LIMIT {
        None
    } else {
        Some(number)
    }
}

fn says_same(first: &[u8], value: &[u8]) -> bool
    requires { is_number first.now ≡ true }
    ensures { result ≡ says_same first.now value.now }
{
    is_number(value) && significant(value) == significant(first)
}

fn values_of<'a>(
    alloc: Global,
    fields: &'a [Field],
    name: &[u8],
) -> Result<Vec<&'a [u8]>, AllocError>
    ensures { IfOk result (λ v. map (λ value. value.now) v.items ≡ values_of name.now (map line_of fields.now)) }
{
    let mut values = Vec::new(alloc);
    for field in fields {
        if is_named(field, name) {
            values.push(field.value.as_slice())?;
        }
    }
    Ok(values)
}

fn others_say(first: &[u8], others: &[&[u8]]) -> bool
    requires { is_number first.now ≡ true }
    ensures { result ≡ list_all (λ other. says_same first.now other.now) others.now }
{
    others.iter().all(|other| says_same(first, other))
}

// By the first value and the others.
fn length_by(first: &[u8], others: &[&[u8]]) -> Length
    ensures { LengthIs (first.now ∷ map (λ other. other.now) others.now) result }
{
    if !is_number(first) {
        return Length::Wrong;
    }
    if !others_say(first, others) {
        return Length::Wrong;
    }
    match number_within(first) {
        Some(number) => Length::Known(number),
        None => Length::TooLarge,
    }
}

fn length_in(values: &[&[u8]]) -> Length
    ensures { LengthIs (map (λ value. value.now) values.now) result }
{
    match values.split_first() {
        None => Length::Known(0),
        Some((first, others)) => length_by(first, others),
    }
}

/// The length of the body, by the Content-Length lines.
pub fn length_of(alloc: Global, fields: &[Field]) -> Result<Length, AllocError>
    ensures { IfOk result (LengthIs (values_of (codes "content-length") (map line_of fields.now))) }
{
    let values = values_of(alloc, fields, b"content-length")?;
    Ok(length_in(&values))
}
