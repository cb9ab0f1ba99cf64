// A script as it is followed.

use crate::fault::Fault;
use crate::looping::try_each;
use crate::running::{run, run_with};
use crate::script::{Command, Setting};
use crate::setup::Setup;
use crate::showing::show;
use crate::text::bytes_of;
use s3r_world::{MemoryWorld, Pick};
use std::alloc::{AllocError, Global};

/// What is set, and the world as the last run left it.
#[derive(Drop)]
pub struct Simulator {
    alloc: Global,
    setup: Setup,
    last: Option<MemoryWorld>,
}

impl Simulator {
    pub fn new(alloc: Global) -> Simulator {
        Simulator {
            alloc,
            setup: Setup::nothing(alloc),
            last: None,
        }
    }

    /// Does what a command says, and prints what it has to print.
    pub fn follow(&mut self, command: Command<'_>, out: &mut String) -> Result<(), Fault> {
        match command {
            Command::Set(setting) => self.set(setting),
            Command::Do => self.run(None, out),
            Command::Words(words) => self.run(Some(words), out),
            Command::GoOn(pick) => self.go_on(pick),
            Command::Each(each) => try_each(self.alloc, &self.setup, each, out),
            Command::Show(showing) => show(self.alloc, self.last()?, showing, out),
        }
    }

    fn last(&self) -> Result<&MemoryWorld, Fault> {
        self.last.as_ref().ok_or(Fault::NothingRun)
    }

    // Runs with these words, or with those that are meant.
    fn run(&mut self, words: Option<&str>, out: &mut String) -> Result<(), Fault> {
        let mut world = self.setup.world(self.alloc)?;
        let ended = match words {
            Some(words) => run_with(self.alloc, words, &mut world),
            None => run(self.alloc, &mut world),
        };
        self.last = Some(world);
        Ok(writeln!(out, "status {}", ended?)?)
    }

    // Sets the volumes that are left, and nothing else.
    fn go_on(&mut self, pick: Pick) -> Result<(), Fault> {
        let image = self.last()?.image(self.alloc, pick)?;
        let setup = Setup::left(self.alloc, &image);
        drop(image);
        self.setup = setup?;
        Ok(())
    }

    fn set(&mut self, setting: Setting<'_>) -> Result<(), Fault> {
        match setting {
            Setting::World { volumes, room } => {
                self.setup = Setup::empty(self.alloc, volumes, room)?;
                Ok(())
            }
            Setting::Volume(v, text) => {
                let bytes = bytes_of(self.alloc, text)?;
                self.setup.set_volume(v, bytes)
            }
            Setting::Patch(v, offset, text) => {
                let bytes = bytes_of(self.alloc, text)?;
                self.setup.patch(self.alloc, v, offset, &bytes)
            }
            Setting::Cut(v, length) => self.setup.cut(self.alloc, v, length),
            Setting::Line(line) => Ok(self.setup.add_line(line)?),
            Setting::Ask(times, asking) => Ok(self.setup.ask(times, asking)?),
            Setting::Pieces(length) => self.setup.set_piece(length),
            Setting::FailNext(side, count) => Ok(self.setup.plan.fail_next(side, count)?),
            Setting::FailAt(call) => {
                self.setup.plan.at = Some(call);
                Ok(())
            }
            Setting::StopAfter(call) => {
                self.setup.plan.after = Some(call);
                Ok(())
            }
            Setting::Opening => {
                self.setup.opens = true;
                Ok(())
            }
            Setting::Want(text) => {
                let want = String::from_str(self.alloc, text)?;
                Ok(self.setup.wants.push(want)?)
            }
        }
    }
}
