// What was put out, printed as lines and as answers.

use crate::bytes::{lines, parts, split_once};
use crate::text::print_bytes;
use std::alloc::{AllocError, Global};

// The bytes that an answer begins with.
const START: &[u8] = b"HTTP/1.1 ";

// Prints a mark, and bytes behind it where there are some.
fn print_marked(mark: &str, bytes: &[u8], out: &mut String) -> Result<(), AllocError> {
    out.push_str(mark)?;
    if !bytes.is_empty() {
        out.push(' ')?;
        print_bytes(out, bytes)?;
    }
    out.push('\n')
}

// Prints the lines of an answer, and the bytes behind the last line.
fn print_lines(alloc: Global, answer: &[u8], out: &mut String) -> Result<(), AllocError> {
    let lines = lines(alloc, answer)?;
    let Some((rest, ended)) = lines.split_last() else {
        return Ok(());
    };
    for line in ended {
        print_marked("<", line, out)?;
    }
    if rest.is_empty() {
        return Ok(());
    }
    print_marked("<<", rest, out)
}

/// Prints each line that was put out.
pub fn print_output(alloc: Global, output: &[u8], out: &mut String) -> Result<(), AllocError> {
    let answers = parts(alloc, output, START)?;
    for answer in &answers {
        print_lines(alloc, answer, out)?;
    }
    Ok(())
}

// Whether a header line says no more than the body shows.
fn is_shown_by(alloc: Global, line: &[u8], body: &[u8]) -> Result<bool, AllocError> {
    if line == b"Content-Type: application/json".as_slice() {
        return Ok(body.starts_with(b"{"));
    }
    let length = format!(in alloc; "Content-Length: {}", body.len())?;
    Ok(line == length.as_bytes())
}

// Prints the status of an answer, and the header lines that its body doesn't show.
fn print_head(alloc: Global, head: &[u8], body: &[u8], out: &mut String) -> Result<(), AllocError> {
    let lines = lines(alloc, head)?;
    let mut between = "";
    for line in &lines {
        if !is_shown_by(alloc, line, body)? {
            out.push_str(between)?;
            print_bytes(out, line)?;
            between = " | ";
        }
    }
    Ok(())
}

fn print_answer(alloc: Global, answer: &[u8], out: &mut String) -> Result<(), AllocError> {
    let answer = answer.strip_prefix(START).unwrap_or(answer);
    let (head, body) = split_once(answer, b"\r\n\r\n").unwrap_or((answer, b""));
    print_head(alloc, head, body, out)?;
    if !body.is_empty() {
        out.push_str(" | ")?;
        print_bytes(out, body)?;
    }
    out.push('\n')
}

/// Prints a line for each answer that was put out.
pub fn print_answers(alloc: Global, output: &[u8], out: &mut String) -> Result<(), AllocError> {
    let answers = parts(alloc, output, START)?;
    for answer in &answers {
        print_answer(alloc, answer, out)?;
    }
    Ok(())
}
