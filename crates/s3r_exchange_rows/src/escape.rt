//! Bytes as texts: `\r`, `\n`, `\0`, `\\` and `\xNN` are a byte, and `{c*N}` is N times the byte `c`.

use std::alloc::{AllocError, Global};
use std::str;

/// A run of bytes of this length has the form `{c*N}` where it is printed.
const LONG: usize = 65;

/// What stands at the front of a text: so many times a byte, in so many bytes of the text.
#[derive(Clone, Copy)]
struct Token {
    byte: u8,
    times: usize,
    length: usize,
}

fn single(byte: u8, length: usize) -> Option<Token> {
    Some(Token {
        byte,
        times: 1,
        length,
    })
}

fn byte_of_digits(digits: &[u8]) -> Option<u8> {
    let digits = str::from_utf8(digits).ok()?;
    u8::from_str_radix(digits, 16).ok()
}

fn number_of(digits: &[u8]) -> Option<usize> {
    let digits = str::from_utf8(digits).ok()?;
    digits.parse::<usize>().ok()
}

/// A byte behind a backslash.
fn escape(text: &[u8]) -> Option<Token> {
    match text.strip_prefix(b"\\")?.first()? {
        b'r' => single(b'\r', 2),
        b'n' => single(b'\n', 2),
        b'0' => single(0, 2),
        b'\\' => single(b'\\', 2),
        b'x' => single(byte_of_digits(text.get(2..4)?)?, 4),
        _ => None,
    }
}

/// A byte and how often it stands there.
fn repetition(text: &[u8]) -> Option<Token> {
    let (byte, rest) = text.strip_prefix(b"{")?.split_first()?;
    let rest = rest.strip_prefix(b"*")?;
    let end = rest.iter().position(|byte| *byte == b'}')?;
    Some(Token {
        byte: *byte,
        times: number_of(rest.get(..end)?)?,
        length: end.saturating_add(4),
    })
}

/// What begins a text. All else stands for itself.
fn front_of(text: &[u8]) -> Option<Token> {
    escape(text)
        .or_else(|| repetition(text))
        .or_else(|| single(*text.first()?, 1))
}

fn push_times(out: &mut Vec<u8>, byte: u8, times: usize) -> Result<(), AllocError> {
    let length = out.len().saturating_add(times);
    out.resize(length, byte)
}

/// The bytes that a text stands for.
pub fn unescaped(alloc: Global, text: &str) -> Result<Vec<u8>, AllocError> {
    let text = text.as_bytes();
    let mut out = Vec::new(alloc);
    let mut next = 0;
    for i in 0..text.len() {
        if i != next {
            continue;
        }
        if let Some(token) = front_of(&text[i..]) {
            push_times(&mut out, token.byte, token.times)?;
            next = i.saturating_add(token.length);
        }
    }
    Ok(out)
}

fn push_byte(out: &mut String, byte: u8) -> Result<(), AllocError> {
    match byte {
        b'\r' => out.push_str("\\r"),
        b'\n' => out.push_str("\\n"),
        0 => out.push_str("\\0"),
        b'\\' => out.push_str("\\\\"),
        b' '..=b'~' => out.push(char::from(byte)),
        _ => write!(out, "\\x{byte:02x}"),
    }
}

fn push_run(out: &mut String, byte: u8, times: usize) -> Result<(), AllocError> {
    out.push('{')?;
    push_byte(out, byte)?;
    write!(out, "*{times}}}")
}

fn push_bytes(out: &mut String, bytes: &[u8]) -> Result<(), AllocError> {
    for byte in bytes {
        push_byte(out, *byte)?;
    }
    Ok(())
}

/// A text that stands for the bytes.
pub fn escaped(alloc: Global, bytes: &[u8]) -> Result<String, AllocError> {
    let mut out = String::new(alloc);
    for run in bytes.chunk_by(|a, b| a == b) {
        match run.first() {
            Some(byte) if run.len() >= LONG => push_run(&mut out, *byte, run.len())?,
            _ => push_bytes(&mut out, run)?,
        }
    }
    Ok(out)
}
