//! Prints a text for each row of its input: how bytes are framed as requests, which request of the desk one is, and
//! which bytes an answer has. A row is a word and cells, parted by ` | `. A line that begins with `#` is passed over.
#![tactic(auto)]

mod answers;
mod copies;
mod escape;
mod framing;
mod jobs;
mod listings;
mod requests;
mod row;

use row::{RowFault, first_cell};
use std::alloc::{AllocError, Global};
use std::io;
use std::io::{BufRead, BufReader};

fn text_of(alloc: Global, row: &str) -> Result<String, RowFault> {
    let (word, cells) = first_cell(row);
    match word {
        "framing" => framing::framing(alloc, cells),
        "target" => requests::target(alloc, cells),
        "lines" => requests::lines(alloc, cells),
        "body" => requests::body(alloc, "PUT", cells),
        "post" => requests::body(alloc, "POST", cells),
        "response" => answers::response(alloc, cells),
        "done" => answers::done(alloc, cells),
        "written" => answers::written(alloc, cells),
        "object" => answers::object(alloc, cells),
        "listing" => listings::listing(alloc, cells),
        "copied" => copies::copied(alloc, cells),
        "made" => jobs::made(alloc, cells),
        "set" => jobs::set(alloc, cells),
        "moved" => jobs::moved(alloc, cells),
        "step" => jobs::step(alloc, cells),
        "worked" => jobs::worked(alloc, cells),
        "no move" => jobs::no_move(alloc, cells),
        "other job" => jobs::other_job(alloc, cells),
        "refusal" => answers::refusal(alloc, cells),
        "fault" => answers::fault(alloc, cells),
        _ => Err(RowFault::NoRow),
    }
}

/// What is printed for a row.
fn printed(alloc: Global, row: &str) -> Result<String, AllocError> {
    match text_of(alloc, row) {
        Ok(text) => Ok(text),
        Err(fault) => String::from_str(alloc, fault.as_str()),
    }
}

fn print_row(rt: &impl Print, alloc: Global, row: &str) -> io::Result<()> {
    let text = printed(alloc, row)?;
    rt.println(text.as_str())
}

fn main(rt: HostRuntime) -> io::Result<()> {
    let alloc = rt.alloc();
    for line in BufReader::new(alloc, rt.reader())?.lines(alloc) {
        let line = line?;
        if !line.starts_with('#') {
            print_row(&rt, alloc, line.as_str())?;
        }
    }
    Ok(())
}
