// The program over a world in memory.

use crate::fault::Fault;
use s3r_service::s3r;
use s3r_world::{MemoryWorld, World};
use std::alloc::{AllocError, Global};

// The status of a program that found no memory.
const NO_MEMORY: u8 = 6;

// The words of a line, where `""` is an empty one.
fn words_of(alloc: Global, line: &str) -> Result<Vec<String>, AllocError> {
    let mut words = Vec::new(alloc);
    if line.is_empty() {
        return Ok(words);
    }
    for word in line.split(' ') {
        let word = if word == "\"\"" { "" } else { word };
        let owned = String::from_str(alloc, word)?;
        words.push(owned)?;
    }
    Ok(words)
}

/// Runs the program with the words of a line, and gives its status.
pub fn run_with(alloc: Global, line: &str, world: &mut MemoryWorld) -> Result<u8, Fault> {
    let words = words_of(alloc, line)?;
    let status = s3r(alloc, &words, world);
    if status == NO_MEMORY || world.starved() > 0 {
        return Err(Fault::OutOfMemory);
    }
    Ok(status)
}

/// Runs the program with the words that mean this world.
pub fn run(alloc: Global, world: &mut MemoryWorld) -> Result<u8, Fault> {
    let count = world.volumes();
    let line = format!(in alloc; ". {count} do")?;
    run_with(alloc, line.as_str(), world)
}
