// What is printed of a world behind its run.

use crate::answers::{print_answers, print_output};
use crate::fault::Fault;
use crate::script::Showing;
use crate::text::print_bytes;
use crate::want::times_in;
use s3r_world::{MemoryWorld, Side, World};
use std::alloc::{AllocError, Global};

fn print_count(
    alloc: Global,
    output: &[u8],
    text: &str,
    out: &mut String,
) -> Result<(), AllocError> {
    let count = times_in(alloc, output, text)?;
    writeln!(out, "{count} times {text}")
}

// Prints how often each side has failed.
fn print_counts(world: &MemoryWorld, out: &mut String) -> Result<(), AllocError> {
    out.push_str("counts volumes")?;
    for v in 0..world.volumes() {
        write!(out, " {}", world.fault_count(Side::Volume(v)))?;
    }
    let input = world.fault_count(Side::Input);
    let output = world.fault_count(Side::Output);
    let door = world.fault_count(Side::Door);
    writeln!(out, ", input {input}, output {output}, door {door}")
}

fn print_sizes(world: &MemoryWorld, out: &mut String) -> Result<(), AllocError> {
    out.push_str("sizes")?;
    for v in 0..world.volumes() {
        write!(out, " {}", world.volume(v).len())?;
    }
    out.push('\n')
}

// Prints each volume as it is set.
fn print_volumes(world: &MemoryWorld, out: &mut String) -> Result<(), AllocError> {
    for v in 0..world.volumes() {
        write!(out, "volume {v}")?;
        if !world.volume(v).is_empty() {
            out.push(' ')?;
        }
        print_bytes(out, world.volume(v))?;
        out.push('\n')?;
    }
    Ok(())
}

/// Prints something of a world behind its run.
pub fn show(
    alloc: Global,
    world: &MemoryWorld,
    showing: Showing<'_>,
    out: &mut String,
) -> Result<(), Fault> {
    let printed = match showing {
        Showing::Output => print_output(alloc, world.output(), out),
        Showing::Answers => print_answers(alloc, world.output(), out),
        Showing::Count(text) => print_count(alloc, world.output(), text, out),
        Showing::Calls => writeln!(out, "calls {}", world.calls()),
        Showing::Counts => print_counts(world, out),
        Showing::Sizes => print_sizes(world, out),
        Showing::Volumes(pick) => {
            let image = world.image(alloc, pick)?;
            print_volumes(&image, out)
        }
    };
    Ok(printed?)
}
