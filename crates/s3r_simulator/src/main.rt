//! The program over worlds in memory, as a script on the standard input says: calls of a world fail or stop where it
//! plans that, and what a crash would leave is opened again. `docs/SIMULATOR.md` has the commands.
#![tactic(auto)]

mod answers;
mod asking;
mod bytes;
mod fault;
mod looping;
mod plan;
mod running;
mod script;
mod setup;
mod showing;
mod simulator;
mod text;
mod want;
mod words;

use fault::Fault;
use script::{is_passed_over, read_command};
use simulator::Simulator;
use std::io;
use std::process::ExitCode;

// Does what a line says, and prints what it has to print, also where it can't be done.
fn follow_line(
    rt: &(impl Print + AllocGlobal),
    simulator: &mut Simulator,
    line: &str,
) -> Result<(), Fault> {
    if is_passed_over(line) {
        return Ok(());
    }
    let command = read_command(line).ok_or(Fault::NoCommand)?;
    let mut out = String::new(rt.alloc());
    let done = simulator.follow(command, &mut out);
    let printed = rt.print(out.as_str());
    done?;
    Ok(printed?)
}

// Does what each line says, up to one that can't be done.
fn follow(
    rt: &(impl Print + AllocGlobal),
    simulator: &mut Simulator,
    script: &str,
) -> Result<(), Fault> {
    let mut number = 0u64;
    for line in script.lines() {
        number = number.saturating_add(1);
        if let Err(fault) = follow_line(rt, simulator, line) {
            if fault.is_of_script() {
                println!(rt; "line {number}: {fault}")?;
            }
            return Err(fault);
        }
    }
    Ok(())
}

fn simulate(rt: &(impl Input + Print + AllocGlobal)) -> Result<(), Fault> {
    let script = io::read_to_string(rt.alloc(), rt.reader())?;
    let mut simulator = Simulator::new(rt.alloc());
    follow(rt, &mut simulator, script.as_str())
}

fn main(rt: HostRuntime) -> ExitCode {
    ExitCode::from(match simulate(&rt) {
        Ok(()) => 0,
        Err(fault) => fault.status(),
    })
}
