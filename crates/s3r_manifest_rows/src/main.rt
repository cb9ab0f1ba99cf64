//! What each manifest of standard input is read as: a text for each row, which is a word and the manifest's parts. A line
//! that is empty or begins with `#` is passed over.
#![tactic(auto)]

mod parts;
mod texts;

use crate::parts::joined;
use crate::texts::{count_text, fault_text, lines_text, sum_text};
use s3r_manifest::ManifestFault;
use std::alloc::{AllocError, Global};
use std::io::{self, BufRead, BufReader};

/// The text of a row with this word. A manifest of `versions` has three columns, all others have two.
fn told(alloc: Global, word: &str, parts: &str) -> Result<String, ManifestFault> {
    match word {
        "lines" => lines_text(alloc, false, joined(alloc, parts)?.as_slice()),
        "versions" => lines_text(alloc, true, joined(alloc, parts)?.as_slice()),
        "count" => count_text(alloc, joined(alloc, parts)?.as_slice()),
        "many" => many_text(alloc, parts),
        _ => Ok(String::from_str(alloc, "no such word")?),
    }
}

/// The text of a manifest that is read as many times as the first word of the row's rest says.
fn many_text(alloc: Global, rest: &str) -> Result<String, ManifestFault> {
    let (times, parts) = rest.split_once(' ').unwrap_or((rest, ""));
    let times = times.parse::<u32>().unwrap_or(0);
    sum_text(alloc, times, joined(alloc, parts)?.as_slice())
}

/// The text of a row, or that of its fault.
fn answer(alloc: Global, row: &str) -> Result<String, AllocError> {
    let (word, rest) = row.split_once(' ').unwrap_or((row, ""));
    match told(alloc, word, rest) {
        Ok(text) => Ok(text),
        Err(fault) => fault_text(alloc, fault),
    }
}

fn is_row(line: &str) -> bool {
    !line.is_empty() && !line.starts_with('#')
}

fn main(rt: HostRuntime) -> io::Result<()> {
    let alloc = rt.alloc();
    for line in BufReader::new(alloc, rt.reader())?.lines(alloc) {
        let line = line?;
        if is_row(line.as_str()) {
            let text = answer(alloc, line.as_str())?;
            println!(rt; "{text}")?;
        }
    }
    Ok(())
}
