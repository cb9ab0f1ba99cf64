//! What each accepted command does to a state.

ghost use Rattle.std.specs.Prelude.{◌≡◌, ◌+◌, ◌<◌, ◌^◌, ◌∷◌, None, OnOk};
ghost use Rattle.s3r_record.specs.Spelling.{MeetsLimits};
ghost use Rattle.s3r_history.specs.Words.{History};
ghost use Rattle.s3r_history.specs.Accepts.{refusal};
ghost use Rattle.s3r_region.specs.After.{IsAfter};
ghost use Rattle.s3r_region.specs.Applies.{Applies};

use crate::State;
use s3r_record::Command;
use std::alloc::{AllocError, Global};

impl State {
    /// Does what an accepted command says, and puts what it prescribes behind the tasks. After an `Err` the state is given
    /// up.
    pub fn apply(&mut self, alloc: Global, command: Command) -> Result<(), AllocError>
        requires few { self.old.commands + 1 < 2 ^ 64 }
        requires short { MeetsLimits command }
        ensures { OnOk result (Applies command self.old self.new) }
    {
        match command {
            Command::CreateBucket { name, locked } => self.create(alloc, name, locked),
            Command::DeleteBucket { name } => {
                self.delete(&name);
                Ok(())
            }
            Command::SetVersioning { name, enabled } => {
                self.set_versioning(alloc, &name, enabled)
            }
            Command::SetReplication {
                name,
                config,
                regions,
            } => self.set_replication(alloc, &name, config, regions),
            Command::DropReplication { name } => self.drop_replication(alloc, &name),
            Command::Put {
                bucket,
                key,
                tags,
                hold,
                class,
                body,
            } => self.put(alloc, &bucket, key, tags, hold, class, body),
            Command::Marker { bucket, key } => self.mark(alloc, &bucket, key),
            Command::Remove { bucket, key, id } => self.remove(alloc, &bucket, key, id),
            Command::SetTags {
                bucket,
                key,
                id,
                tags,
            } => self.set_tags(alloc, &bucket, key, id, tags),
            Command::SetHold {
                bucket,
                key,
                id,
                hold,
            } => self.set_hold(alloc, &bucket, key, id, hold),
            Command::Receive {
                from,
                number,
                effect,
            } => self.receive(alloc, from, number, effect),
            Command::Settle {
                to,
                number,
                outcome,
            } => {
                self.settle(to, number, outcome);
                Ok(())
            }
            Command::Attempt { to, number } => {
                self.attempt(to, number);
                Ok(())
            }
            Command::CreateJob { spec, manifest } => self.create_job(alloc, spec, manifest),
            Command::MoveJob { job, state } => {
                self.move_job(job, state);
                Ok(())
            }
            Command::SetPriority { job, priority } => {
                self.set_priority(job, priority);
                Ok(())
            }
            Command::Prepare { job } => self.prepare(alloc, job),
            Command::Line { job, line } => self.do_line(alloc, job, line),
            Command::Finish { job, .. } => {
                self.finish(job);
                Ok(())
            }
        }
    }
}
