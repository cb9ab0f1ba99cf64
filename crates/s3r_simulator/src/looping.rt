// A run for each call of the program, and what is opened behind each.

use crate::fault::Fault;
use crate::running::run;
use crate::script::Each;
use crate::setup::Setup;
use crate::want::{Seen, answered_in, unmet};
use s3r_world::{MemoryWorld, Pick};
use std::alloc::{AllocError, Global};
use std::fmt;

impl fmt::Display for Each {
    fn fmt<W: fmt::Write>(&self, f: &mut fmt::Formatter<W>) -> fmt::Result {
        f.write_str(match self {
            Each::Stop => "stop",
            Each::Failure => "failure",
        })
    }
}

// A run of a loop, or an image of what it left.
#[derive(Clone, Copy)]
struct Trial {
    each: Each,
    call: u64,
    pick: Option<Pick>,
}

impl fmt::Display for Trial {
    fn fmt<W: fmt::Write>(&self, f: &mut fmt::Formatter<W>) -> fmt::Result {
        write!(f, "{} {}", self.each, self.call)?;
        match self.pick {
            None => Ok(()),
            Some(Pick::AsRead) => f.write_str(", AsRead"),
            Some(Pick::Stable) => f.write_str(", Stable"),
            Some(Pick::Torn(byte)) => write!(f, ", Torn {byte}"),
        }
    }
}

// A loop so far: how many runs and images there were, how many were otherwise than wanted, and a line for each of these.
#[derive(Drop)]
struct Loop<'a> {
    alloc: Global,
    setup: &'a Setup,
    runs: u64,
    images: u64,
    otherwise: u64,
    lines: String,
}

impl Loop<'_> {
    // Notes what was seen, where that isn't as it is wanted.
    fn judge(&mut self, trial: Trial, seen: Seen<'_>) -> Result<(), AllocError> {
        let setup = self.setup;
        let Some(want) = unmet(self.alloc, &setup.wants, seen)? else {
            return Ok(());
        };
        self.otherwise = self.otherwise.saturating_add(1);
        let status = seen.status;
        let answered = seen.answered;
        writeln!(
            self.lines,
            "{trial}: otherwise than `want {want}`, with status {status} and {answered} answered"
        )
    }

    // Opens an image.
    fn try_opening(
        &mut self,
        trial: Trial,
        answered: usize,
        opening: &mut MemoryWorld,
    ) -> Result<(), Fault> {
        let status = run(self.alloc, opening)?;
        self.images = self.images.saturating_add(1);
        let seen = Seen {
            opened: true,
            status,
            output: opening.output(),
            answered,
        };
        Ok(self.judge(trial, seen)?)
    }

    fn try_image(
        &mut self,
        trial: Trial,
        answered: usize,
        image: &MemoryWorld,
    ) -> Result<(), Fault> {
        let mut opening = self.setup.open(self.alloc, image)?;
        self.try_opening(trial, answered, &mut opening)
    }

    // Opens each image of what a run left.
    fn try_images(
        &mut self,
        trial: Trial,
        answered: usize,
        world: &MemoryWorld,
    ) -> Result<(), Fault> {
        for pick in [Pick::AsRead, Pick::Stable, Pick::Torn(0), Pick::Torn(1)] {
            let trial = Trial {
                pick: Some(pick),
                ..trial
            };
            let image = world.image(self.alloc, pick)?;
            self.try_image(trial, answered, &image)?;
        }
        Ok(())
    }

    // Runs in a world, where calls fail besides those that are set.
    fn try_run(&mut self, trial: Trial, world: &mut MemoryWorld) -> Result<(), Fault> {
        match trial.each {
            Each::Stop => world.stop_after(trial.call),
            Each::Failure => world.fail_at(trial.call),
        }
        let status = run(self.alloc, world)?;
        self.runs = self.runs.saturating_add(1);
        let answered = answered_in(self.alloc, &self.setup.wants, world.output())?;
        let seen = Seen {
            opened: false,
            status,
            output: world.output(),
            answered,
        };
        self.judge(trial, seen)?;
        self.try_images(trial, answered, world)
    }

    fn try_call(&mut self, each: Each, call: u64) -> Result<(), Fault> {
        let trial = Trial {
            each,
            call,
            pick: None,
        };
        let mut world = self.setup.world(self.alloc)?;
        self.try_run(trial, &mut world)
    }
}

// How many calls of the world a run has.
fn calls_of(alloc: Global, setup: &Setup) -> Result<u64, Fault> {
    let mut world = setup.world(alloc)?;
    match run(alloc, &mut world) {
        Ok(_) => Ok(world.calls()),
        Err(fault) => Err(fault),
    }
}

/// Makes a run for each call, and prints those that are otherwise than wanted.
pub fn try_each(alloc: Global, setup: &Setup, each: Each, out: &mut String) -> Result<(), Fault> {
    let first = match each {
        Each::Stop => 0,
        Each::Failure => 1,
    };
    let calls = calls_of(alloc, setup)?;
    let mut all = Loop {
        alloc,
        setup,
        runs: 0,
        images: 0,
        otherwise: 0,
        lines: String::new(alloc),
    };
    for k in 0..calls {
        all.try_call(each, k.saturating_add(first))?;
    }
    let runs = all.runs;
    let images = all.images;
    let otherwise = all.otherwise;
    out.push_str(all.lines.as_str())?;
    Ok(writeln!(
        out,
        "{each}: {runs} runs, {images} images, {otherwise} otherwise"
    )?)
}
