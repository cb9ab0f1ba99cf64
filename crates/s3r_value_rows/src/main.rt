//! A text for each row of standard input: a word, and cells parted by `|`. A line that begins with `#` is passed over.
#![tactic(auto)]

mod cells;
mod escape;
mod fault;
mod job;
mod json;
mod names;
mod record;
mod routes;
mod rules;
mod steps;
mod texts;
mod versions;

use crate::cells::Cells;
use crate::fault::Fault;
use crate::texts::owned;
use std::alloc::{AllocError, Global};
use std::io::{self, BufRead, BufReader};

/// The text of a row with this word.
fn told(alloc: Global, word: &str, cells: &Cells) -> Result<String, Fault> {
    match word {
        "bucket" => names::bucket(alloc, cells),
        "key" => names::key(alloc, cells),
        "class" => names::class(alloc, cells),
        "standard" => names::standard(alloc),
        "text" => names::text(alloc, cells),
        "bytes" => names::bytes(alloc, cells),
        "tag" => names::tag(alloc, cells),
        "tags" => names::tags(alloc, cells),
        "pairs" => names::pairs(alloc, cells),
        "no-tags" => names::no_tags(alloc),
        "query" => names::query(alloc, cells),
        "form" => names::form(alloc, cells),
        "arn" => names::arn(alloc, cells),
        "id" => names::id(alloc, cells),
        _ => told_of_bodies(alloc, word, cells),
    }
}

fn told_of_bodies(alloc: Global, word: &str, cells: &Cells) -> Result<String, Fault> {
    match word {
        "value" => json::value(alloc, cells),
        "only" => json::only(alloc, cells),
        "member" => json::member(alloc, cells),
        "status" => json::status(alloc, cells),
        "status-text" => json::status_line(alloc, cells),
        "text-of" => json::member_text(alloc, cells),
        "tag-set" => json::tag_set(alloc, cells),
        "tags-text" => json::tag_lines(alloc, cells),
        _ => told_of_requests(alloc, word, cells),
    }
}

fn told_of_requests(alloc: Global, word: &str, cells: &Cells) -> Result<String, Fault> {
    match word {
        "route" => routes::route(alloc, cells),
        "limit" => routes::limit(alloc, cells),
        "prefix" => routes::prefix(alloc, cells),
        "key-marker" => routes::key_marker(alloc, cells),
        "version" => routes::version(alloc, cells),
        "named" => routes::named(alloc, cells),
        "written" => routes::written(alloc, cells),
        _ => told_of_histories(alloc, word, cells),
    }
}

fn told_of_histories(alloc: Global, word: &str, cells: &Cells) -> Result<String, Fault> {
    match word {
        "config" => rules::config(alloc, cells),
        "many" => rules::many(alloc, cells),
        "copies" => rules::copies(alloc, cells),
        "kinds" => rules::kinds(alloc),
        "choice" => rules::choice(alloc, cells),
        "destinations" => rules::destinations_text(alloc, cells),
        "matching" => rules::matching(alloc, cells),
        "decode" => record::decoded(alloc, cells),
        "frame" => record::frame(alloc, cells),
        "fits" => record::fits(alloc, cells),
        "versions" => versions::script(alloc, cells),
        _ => owned(alloc, "no such word"),
    }
}

/// The text of a row, or the fault that it has instead.
fn answer(alloc: Global, line: &str) -> Result<String, AllocError> {
    let (word, rest) = line.split_once(' ').unwrap_or((line, ""));
    let cells = Cells::read(alloc, rest)?;
    match told(alloc, word, &cells) {
        Ok(text) => Ok(text),
        Err(fault) => fault.text(alloc),
    }
}

fn is_row(line: &str) -> bool {
    !line.is_empty() && !line.starts_with('#')
}

fn main(rt: HostRuntime) -> io::Result<()> {
    let alloc = rt.alloc();
    for line in BufReader::new(alloc, rt.reader())?.lines(alloc) {
        let line = line?;
        if is_row(line.as_str()) {
            let text = answer(alloc, line.as_str())?;
            println!(rt; "{text}")?;
        }
    }
    Ok(())
}
