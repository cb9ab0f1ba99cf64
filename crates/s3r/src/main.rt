//! The replication desk as a program: the words that it is started with, over the real world.
#![tactic(auto)]

use s3r_service::{place_of, s3r};
use s3r_world::{MemoryWorld, RealWorld};
use std::process::ExitCode;
use std::rt::Env;
use std::{env, io};

/// There was no memory.
const NO_MEMORY: u8 = 6;

// The words that the program was started with, without its name.
fn words_given(rt: &(impl Env + AllocGlobal)) -> io::Result<Vec<String>> {
    Ok(env::args(rt)?.skip(1).collect(rt.alloc())?)
}

fn start(rt: HostRuntime) -> u8 {
    let alloc = rt.alloc();
    let Ok(words) = words_given(&rt) else {
        return NO_MEMORY;
    };
    match place_of(alloc, &words) {
        Ok(Some(place)) => match RealWorld::new(rt, place.folder.as_str(), place.regions) {
            Ok(mut world) => s3r(alloc, &words, &mut world),
            Err(_) => NO_MEMORY,
        },
        Ok(None) => match MemoryWorld::new(alloc, 0, 0, Vec::new(alloc), Vec::new(alloc)) {
            Ok(mut world) => s3r(alloc, &words, &mut world),
            Err(_) => NO_MEMORY,
        },
        Err(_) => NO_MEMORY,
    }
}

fn main(rt: HostRuntime) -> ExitCode {
    ExitCode::from(start(rt))
}
