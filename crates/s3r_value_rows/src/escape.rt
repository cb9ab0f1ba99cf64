//! Bytes that are written as text: `\n`, `\r`, `\0`, `\\` and `\xNN` are a byte, and `{TEXT*N}` is N times the text.

use std::alloc::{AllocError, Global};

/// Where the next byte of a text stands.
#[derive(Clone, Copy)]
enum Reading {
    Plain,
    BehindBackslash,
    FirstDigit,
    SecondDigit(u8),
}

/// The text and the number of a repetition, whose `{` is left out, and what follows it.
fn repetition(piece: &str) -> Option<(&str, u32, &str)> {
    let (inner, rest) = piece.split_once('}')?;
    let (unit, count) = inner.rsplit_once('*')?;
    let count = count.parse::<u32>().ok()?;
    Some((unit, count, rest))
}

fn push_times(out: &mut String, unit: &str, count: u32) -> Result<(), AllocError> {
    for _ in 0..count {
        out.push_str(unit)?;
    }
    Ok(())
}

/// Adds what stands behind a `{`.
fn push_piece(out: &mut String, piece: &str) -> Result<(), AllocError> {
    match repetition(piece) {
        Some((unit, count, rest)) => {
            push_times(out, unit, count)?;
            out.push_str(rest)
        }
        None => {
            out.push_str("{")?;
            out.push_str(piece)
        }
    }
}

/// The text with its repetitions written out.
fn repeated(alloc: Global, text: &str) -> Result<String, AllocError> {
    let mut out = String::new(alloc);
    for (number, piece) in text.split('{').enumerate() {
        if number == 0 {
            out.push_str(piece)?;
        } else {
            push_piece(&mut out, piece)?;
        }
    }
    Ok(out)
}

fn digit(byte: u8) -> u8 {
    match byte {
        b'0'..=b'9' => byte - b'0',
        b'a'..=b'f' => byte - b'a' + 10,
        _ => 0,
    }
}

/// The byte that a letter behind a backslash stands for.
fn letter(byte: u8) -> u8 {
    match byte {
        b'n' => b'\n',
        b'r' => b'\r',
        b'0' => 0,
        _ => byte,
    }
}

/// Where the byte after this one stands, and the byte that is complete with it.
fn step(place: Reading, byte: u8) -> (Reading, Option<u8>) {
    match place {
        Reading::Plain if byte == b'\\' => (Reading::BehindBackslash, None),
        Reading::Plain => (Reading::Plain, Some(byte)),
        Reading::BehindBackslash if byte == b'x' => (Reading::FirstDigit, None),
        Reading::BehindBackslash => (Reading::Plain, Some(letter(byte))),
        Reading::FirstDigit => (Reading::SecondDigit(digit(byte)), None),
        Reading::SecondDigit(high) => (Reading::Plain, Some(high << 4 | digit(byte))),
    }
}

/// The bytes that the text stands for.
pub fn bytes_of(alloc: Global, text: &str) -> Result<Vec<u8>, AllocError> {
    let text = repeated(alloc, text)?;
    let mut bytes = Vec::new(alloc);
    let mut place = Reading::Plain;
    for byte in text.as_bytes() {
        let (next, complete) = step(place, *byte);
        if let Some(byte) = complete {
            bytes.push(byte)?;
        }
        place = next;
    }
    Ok(bytes)
}
