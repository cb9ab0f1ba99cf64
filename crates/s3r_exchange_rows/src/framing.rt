//! Requests that are read from an input.

use crate::answers::problem_text;
use crate::escape::{escaped, unescaped};
use crate::requests::request_text;
use crate::row::{RowFault, first_cell};
use s3r_api::{framing_problem, is_head, to_request};
use s3r_http::{Buffer, Field, HttpFault, RawRequest, has_more, read_request};
use s3r_routes::Routes;
use s3r_world::{MemoryWorld, Side};
use std::alloc::{AllocError, Global};

/// More than any request has.
pub const WHOLE: usize = 8_388_608;

/// A request as it was framed.
fn framed_text(alloc: Global, raw: &RawRequest) -> Result<String, AllocError> {
    let target = escaped(alloc, raw.target.as_bytes())?;
    let body = escaped(alloc, raw.body.as_slice())?;
    let lines = raw.fields.as_slice().len();
    let last = if raw.last { ", last" } else { "" };
    format!(in alloc;
        "{} {target}, lines {lines}, body '{body}'{last}",
        raw.method.as_str()
    )
}

fn push_line(alloc: Global, out: &mut String, field: &Field) -> Result<(), AllocError> {
    let value = escaped(alloc, field.value.as_slice())?;
    if !out.is_empty() {
        out.push_str(", ")?;
    }
    write!(out, "{}: '{value}'", field.name.as_str())
}

/// The header lines of a request.
fn lines_text(alloc: Global, raw: &RawRequest) -> Result<String, AllocError> {
    let mut out = String::new(alloc);
    for field in raw.fields.as_slice() {
        push_line(alloc, &mut out, field)?;
    }
    Ok(out)
}

/// The request of the desk that it is, or the problem.
fn asked_text(alloc: Global, raw: &RawRequest) -> Result<String, AllocError> {
    let routes = Routes::new(alloc)?;
    let request = to_request(alloc, &routes, raw);
    let text = match &request {
        Ok(request) => request_text(alloc, request),
        Err(problem) => format!(in alloc; "{problem:?}"),
    };
    drop(request);
    text
}

/// The answer to what is no request of the desk.
fn refused_text(alloc: Global, raw: &RawRequest) -> Result<String, AllocError> {
    let routes = Routes::new(alloc)?;
    let request = to_request(alloc, &routes, raw);
    let text = match &request {
        Ok(_) => String::from_str(alloc, "no problem"),
        Err(problem) => problem_text(alloc, *problem, is_head(raw), raw.last),
    };
    drop(request);
    text
}

/// The answer where no request was framed, which is its connection's last.
fn unframed_text(alloc: Global, fault: HttpFault) -> Result<String, AllocError> {
    match framing_problem(fault) {
        Some(problem) => problem_text(alloc, problem, false, true),
        None => String::from_str(alloc, "no answer"),
    }
}

/// What was read, as the step shows it.
fn told(
    alloc: Global,
    step: &str,
    outcome: &Result<Option<RawRequest>, HttpFault>,
) -> Result<String, AllocError> {
    match outcome {
        Ok(Some(raw)) => match step {
            "lines" => lines_text(alloc, raw),
            "ask" => asked_text(alloc, raw),
            "refuse" => refused_text(alloc, raw),
            _ => framed_text(alloc, raw),
        },
        Ok(None) => String::from_str(alloc, "none"),
        Err(fault) if step == "refuse" => unframed_text(alloc, *fault),
        Err(fault) => format!(in alloc; "{fault:?}"),
    }
}

fn read_text(
    alloc: Global,
    world: &mut MemoryWorld,
    buffer: &mut Buffer,
    step: &str,
) -> Result<String, AllocError> {
    let outcome = read_request(alloc, world, buffer);
    let text = told(alloc, step, &outcome);
    drop(outcome);
    text
}

fn more_text(
    alloc: Global,
    world: &mut MemoryWorld,
    buffer: &mut Buffer,
) -> Result<String, AllocError> {
    match has_more(world, buffer) {
        Ok(true) => String::from_str(alloc, "more"),
        Ok(false) => String::from_str(alloc, "over"),
        Err(fault) => format!(in alloc; "{fault:?}"),
    }
}

/// What a step prints.
fn step_text(
    alloc: Global,
    world: &mut MemoryWorld,
    buffer: &mut Buffer,
    step: &str,
) -> Result<String, RowFault> {
    match step {
        "fail" => {
            world.fail_next(Side::Input, 1);
            Ok(String::from_str(alloc, "fail")?)
        }
        "more" => Ok(more_text(alloc, world, buffer)?),
        "read" | "lines" | "ask" | "refuse" => Ok(read_text(alloc, world, buffer, step)?),
        _ => Err(RowFault::NoRow),
    }
}

/// Appends a text behind a mark, which doesn't stand before the first one.
fn push_text(out: &mut String, mark: &str, text: &str) -> Result<(), AllocError> {
    if !out.is_empty() {
        out.push_str(mark)?;
    }
    out.push_str(text)
}

fn steps_text(alloc: Global, world: &mut MemoryWorld, steps: &str) -> Result<String, RowFault> {
    let mut buffer = Buffer::new(alloc);
    let mut out = String::new(alloc);
    for step in steps.split(' ') {
        let text = step_text(alloc, world, &mut buffer, step)?;
        push_text(&mut out, "; ", text.as_str())?;
    }
    Ok(out)
}

/// What the steps print over an input that comes in pieces of this size.
pub fn taken(alloc: Global, size: usize, steps: &str, input: Vec<u8>) -> Result<String, RowFault> {
    let Ok(mut world) = MemoryWorld::new(alloc, 1, 64, input, Vec::new(alloc)) else {
        return Err(RowFault::OutOfMemory);
    };
    world.piece(size.max(1));
    let text = steps_text(alloc, &mut world, steps);
    drop(world);
    text
}

/// `framing | SIZES | STEPS | INPUT`: what the steps print over the input in pieces of each size. It is printed once
/// where it is the same for all.
pub fn framing(alloc: Global, cells: &str) -> Result<String, RowFault> {
    let (sizes, cells) = first_cell(cells);
    let (steps, input) = first_cell(cells);
    let mut out = String::new(alloc);
    for size in sizes.split(' ') {
        let size = size.parse::<usize>()?;
        let text = taken(alloc, size, steps, unescaped(alloc, input)?)?;
        if text.as_str() != out.as_str() {
            push_text(&mut out, " / ", text.as_str())?;
        }
    }
    Ok(out)
}
