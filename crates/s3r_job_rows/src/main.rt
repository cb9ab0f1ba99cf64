//! The life of a job for each row of standard input: how many lines it has, whether it asks for confirmation, and then what is
//! asked of it, a word each. The row's text has its state and how many results it has, at first and behind each word. A line that
//! is empty or begins with `#` is passed over.
#![tactic(auto)]

mod asking;
mod making;
mod texts;

use crate::asking::asked;
use crate::making::made;
use crate::texts::{push_next_state, push_state};
use s3r_jobs::AnyJob;
use s3r_names::NameFault;
use std::alloc::{AllocError, Global};
use std::io::{self, BufRead, BufReader};

/// Asks so often, and tells the state behind the last time.
fn asked_often(alloc: Global, job: AnyJob, lines: u32, word: &str) -> AnyJob {
    let (times, word) = match word.split_once("*") {
        Some((times, word)) => (times.parse::<u32>().unwrap_or(0), word),
        None => (1, word),
    };
    let mut job = job;
    for _ in 0..times {
        job = asked(alloc, job, lines, word);
    }
    job
}

/// Adds the state of a job at first and behind each word.
fn walk(
    text: &mut String,
    alloc: Global,
    job: AnyJob,
    lines: u32,
    words: &str,
) -> Result<(), AllocError> {
    let mut told = push_state(text, alloc, &job);
    let mut job = job;
    for word in words.split(" ") {
        job = asked_often(alloc, job, lines, word);
        if told.is_ok() {
            told = push_next_state(text, alloc, &job);
        }
    }
    drop(job);
    told
}

/// The text of a job's life.
fn life(alloc: Global, lines: u32, confirm: bool, words: &str) -> Result<String, NameFault> {
    let job = made(alloc, confirm)?;
    let mut text = String::new(alloc);
    let told = walk(&mut text, alloc, job, lines, words);
    told?;
    Ok(text)
}

fn answer(alloc: Global, row: &str) -> Result<String, AllocError> {
    let (lines, rest) = row.split_once(" ").unwrap_or((row, ""));
    let (confirm, words) = rest.split_once(" ").unwrap_or((rest, ""));
    match life(
        alloc,
        lines.parse::<u32>().unwrap_or(0),
        confirm == "confirmed",
        words,
    ) {
        Ok(text) => Ok(text),
        Err(_) => String::from_str(alloc, "no memory"),
    }
}

fn is_row(line: &str) -> bool {
    !line.is_empty() && !line.starts_with('#')
}

fn main(rt: HostRuntime) -> io::Result<()> {
    let alloc = rt.alloc();
    for line in BufReader::new(alloc, rt.reader())?.lines(alloc) {
        let line = line?;
        if is_row(line.as_str()) {
            let text = answer(alloc, line.as_str())?;
            println!(rt; "{text}")?;
        }
    }
    Ok(())
}
