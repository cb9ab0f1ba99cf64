// What is wanted of the runs of a loop and of their openings.

use crate::bytes::count;
use crate::text::bytes_of;
use crate::words::Words;
use std::alloc::{AllocError, Global};

// What is wanted of a run, or of what is opened behind it.
#[derive(Clone, Copy)]
enum Want<'a> {
    First(&'a str),
    Once(&'a str),
    Answered(&'a str),
    Opening(&'a str),
    Found(&'a str),
    Exactly(usize, &'a str),
    Never(&'a str),
}

/// What is seen of a run, or of an opening.
#[derive(Clone, Copy)]
pub struct Seen<'a> {
    pub opened: bool,
    pub status: u8,
    pub output: &'a [u8],
    /// How much the run answered.
    pub answered: usize,
}

fn exactly<'a>(words: &mut Words<'a>) -> Option<Want<'a>> {
    let count = words.number()? as usize;
    Some(Want::Exactly(count, words.some_text()?))
}

// Whether this is a list of statuses.
fn are_statuses(text: &str) -> bool {
    for word in text.split(' ') {
        if word.parse::<u8>().is_err() {
            return false;
        }
    }
    true
}

fn read_want(text: &str) -> Option<Want<'_>> {
    let mut words = Words::new(text);
    let kind = words.word()?;
    if kind == "exactly" {
        return exactly(&mut words);
    }
    let text = words.some_text()?;
    match kind {
        "first" if are_statuses(text) => Some(Want::First(text)),
        "once" => Some(Want::Once(text)),
        "answered" => Some(Want::Answered(text)),
        "opening" if are_statuses(text) => Some(Want::Opening(text)),
        "found" => Some(Want::Found(text)),
        "never" => Some(Want::Never(text)),
        _ => None,
    }
}

/// Whether something can be wanted so.
pub fn is_want(text: &str) -> bool {
    read_want(text).is_some()
}

fn is_among(statuses: &str, status: u8) -> bool {
    for word in statuses.split(' ') {
        if word.parse::<u8>() == Ok(status) {
            return true;
        }
    }
    false
}

/// How often a text stands in what was put out.
pub fn times_in(alloc: Global, output: &[u8], text: &str) -> Result<usize, AllocError> {
    let text = bytes_of(alloc, text)?;
    Ok(count(output, &text))
}

impl Want<'_> {
    // Whether it says something of openings.
    fn is_of_openings(self) -> bool {
        !matches!(self, Want::First(_) | Want::Once(_) | Want::Answered(_))
    }

    fn holds(self, alloc: Global, seen: Seen<'_>) -> Result<bool, AllocError> {
        match self {
            Want::First(statuses) | Want::Opening(statuses) => Ok(is_among(statuses, seen.status)),
            Want::Once(text) => Ok(seen.status != 0 || times_in(alloc, seen.output, text)? == 1),
            Want::Answered(_) => Ok(true),
            Want::Found(text) => {
                let found = times_in(alloc, seen.output, text)?;
                Ok(found == seen.answered || found == seen.answered.saturating_add(1))
            }
            Want::Exactly(count, text) => Ok(times_in(alloc, seen.output, text)? == count),
            Want::Never(text) => Ok(times_in(alloc, seen.output, text)? == 0),
        }
    }
}

/// The first want that doesn't hold of what is seen.
pub fn unmet<'a>(
    alloc: Global,
    wants: &'a [String],
    seen: Seen<'_>,
) -> Result<Option<&'a str>, AllocError> {
    for text in wants {
        let Some(want) = read_want(text.as_str()) else {
            continue;
        };
        if want.is_of_openings() == seen.opened && !want.holds(alloc, seen)? {
            return Ok(Some(text.as_str()));
        }
    }
    Ok(None)
}

/// How much a run answered that put out this.
pub fn answered_in(alloc: Global, wants: &[String], output: &[u8]) -> Result<usize, AllocError> {
    let mut answered = 0;
    for text in wants {
        if let Some(Want::Answered(text)) = read_want(text.as_str()) {
            answered = times_in(alloc, output, text)?;
        }
    }
    Ok(answered)
}
