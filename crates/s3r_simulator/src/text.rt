// Bytes as a script writes them, and as they are printed.
ghost use Rattle.std.specs.Prelude.{◌<◌, length, IfSome};

use crate::bytes::split_once;
use std::alloc::{AllocError, Global};

// What a text says at its front.
#[derive(Clone, Copy)]
enum Piece {
    // so many times a byte
    Bytes(u8, usize),
    // the number of the repetition
    Number,
}

// The value of a digit.
fn hex_digit(digit: u8) -> Option<u8>
    ensures { IfSome result (λ value. value < 16) }
{
    let value = char::from(digit).to_digit(16)?;
    Some(value as u8)
}

// The byte of two digits, and what stands behind them.
fn hex_byte(text: &[u8]) -> Option<(u8, &[u8])>
    ensures { IfSome result (λ found. length found.1.now < length text.now) }
{
    let (high, rest) = text.split_first()?;
    let (low, rest) = rest.split_first()?;
    let byte = hex_digit(*high)? * 16 + hex_digit(*low)?;
    Some((byte, rest))
}

// The byte that a backslash begins, and what stands behind it.
fn escape(text: &[u8]) -> Option<(u8, &[u8])>
    ensures { IfSome result (λ found. length found.1.now < length text.now) }
{
    let (letter, rest) = text.strip_prefix(b"\\")?.split_first()?;
    match *letter {
        b'r' => Some((b'\r', rest)),
        b'n' => Some((b'\n', rest)),
        b'0' => Some((0, rest)),
        b'\\' => Some((b'\\', rest)),
        b'x' => hex_byte(rest),
        _ => None,
    }
}

fn number(digits: &[u8]) -> Option<usize> {
    std::str::from_utf8(digits).ok()?.parse().ok()
}

// `{c*N}`, and what stands behind it.
fn repeated(text: &[u8]) -> Option<(Piece, &[u8])>
    ensures { IfSome result (λ found. length found.1.now < length text.now) }
{
    let (byte, rest) = text.strip_prefix(b"{")?.split_first()?;
    let (digits, rest) = split_once(rest.strip_prefix(b"*")?, b"}")?;
    Some((Piece::Bytes(*byte, number(digits)?), rest))
}

// The piece at a text's front, and what stands behind it.
fn front(text: &[u8]) -> Option<(Piece, &[u8])>
    ensures { IfSome result (λ found. length found.1.now < length text.now) }
{
    if let Some(rest) = text.strip_prefix(b"{i}") {
        return Some((Piece::Number, rest));
    }
    if let Some(found) = repeated(text) {
        return Some(found);
    }
    let (byte, rest) = match escape(text) {
        Some(found) => found,
        None => first(text)?,
    };
    Some((Piece::Bytes(byte, 1), rest))
}

fn first(text: &[u8]) -> Option<(u8, &[u8])>
    ensures { IfSome result (λ found. length found.1.now < length text.now) }
{
    let (byte, rest) = text.split_first()?;
    Some((*byte, rest))
}

fn push_piece(
    bytes: &mut Vec<u8>,
    piece: Piece,
    repetition: Option<u64>,
) -> Result<(), AllocError> {
    match (piece, repetition) {
        (Piece::Bytes(byte, count), _) => {
            let length = bytes.len().saturating_add(count);
            bytes.resize(length, byte)
        }
        (Piece::Number, Some(number)) => {
            let digits = number.to_string(*bytes.allocator())?;
            bytes.extend_from_slice(digits.as_bytes())
        }
        (Piece::Number, None) => bytes.extend_from_slice(b"{i}"),
    }
}

/// Appends the bytes that a text says. `{i}` stands for itself where nothing is repeated.
pub fn push_text(
    bytes: &mut Vec<u8>,
    text: &str,
    repetition: Option<u64>,
) -> Result<(), AllocError> {
    let mut rest = text.as_bytes();
    while let Some((piece, behind)) = front(rest) {
        push_piece(bytes, piece, repetition)?;
        rest = behind;
    }
    Ok(())
}

/// The bytes that a text says.
pub fn bytes_of(alloc: Global, text: &str) -> Result<Vec<u8>, AllocError> {
    let mut bytes = Vec::new(alloc);
    push_text(&mut bytes, text, None)?;
    Ok(bytes)
}

// Prints a byte.
fn print_byte(out: &mut String, byte: u8) -> Result<(), AllocError> {
    match byte {
        b'\r' => out.push_str("\\r"),
        b'\n' => out.push_str("\\n"),
        0 => out.push_str("\\0"),
        b'\\' => out.push_str("\\\\"),
        b' '..=b'~' => out.push(char::from(byte)),
        _ => write!(out, "\\x{byte:02x}"),
    }
}

/// Prints bytes as a text that says them.
pub fn print_bytes(out: &mut String, bytes: &[u8]) -> Result<(), AllocError> {
    for at in 0..bytes.len() {
        if repeated(&bytes[at..]).is_some() {
            out.push_str("\\x7b")?;
        } else {
            print_byte(out, bytes[at])?;
        }
    }
    Ok(())
}
