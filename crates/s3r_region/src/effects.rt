//! What a command prescribes, asked before it is committed.

ghost use Rattle.std.specs.Prelude.{◌≡◌, ◌+◌, ◌<◌, ◌≤◌, ◌^◌, IfOk, length};
ghost use Rattle.s3r_record.specs.Spelling.{MeetsLimits};
ghost use Rattle.s3r_record.specs.declared.command.Command.{Command};
ghost use Rattle.s3r_history.specs.Words.{History};
ghost use Rattle.s3r_history.specs.Deeds.{version, marker, effects_after};
ghost use Rattle.s3r_region.specs.After.{IsAfter, seen};
ghost use Rattle.s3r_region.specs.Changes.{next_stamp};
ghost use Rattle.s3r_region.specs.Prescribing.{sends_at};
ghost use Rattle.s3r_region.specs.Prescribing as prescribing;

use crate::State;
use crate::job_line::LineWrite;
use crate::object::stored;
use crate::prescribing::Written;
use crate::version::new_marker;
use s3r_history::Sent;
use s3r_names::{BucketName, Bytes, ClassName, Key, TagSet};
use s3r_record::Command;
use std::alloc::{AllocError, Global};

impl State {
    /// What a put sends, of a copy of its body.
    fn sends_of_put(
        &self,
        alloc: Global,
        bucket: &BucketName,
        key: &Key,
        tags: &TagSet,
        hold: bool,
        class: &ClassName,
        body: &Bytes,
    ) -> Result<Vec<Sent>, AllocError>
        requires few { self.now.commands + 1 < 2 ^ 64 }
        requires short { length body.now ≤ 4194304 }
        ensures { IfOk result (λ sends. sends.items ≡ sends_at self.now.outbox bucket.now
            (prescribing.version (version (next_stamp self.now) key.now tags.now hold class.now body.now)) (seen self.now bucket.now)) }
    {
        let (key, tags, class) = (key.clone()?, tags.clone()?, class.clone()?);
        let row = stored(
            alloc,
            self.next_stamp(),
            key,
            tags,
            hold,
            class,
            body.clone()?,
        )?;
        self.sends_of_row(alloc, bucket, &Written::Version(&row))
    }

    /// What a marker sends.
    fn sends_of_marker(
        &self,
        alloc: Global,
        bucket: &BucketName,
        key: &Key,
    ) -> Result<Vec<Sent>, AllocError>
        requires { self.now.commands + 1 < 2 ^ 64 }
        ensures { IfOk result (λ sends. sends.items ≡ sends_at self.now.outbox bucket.now
            (prescribing.marker (marker (next_stamp self.now) key.now)) (seen self.now bucket.now)) }
    {
        let row = new_marker(alloc, self.next_stamp(), key.clone()?)?;
        self.sends_of_row(alloc, bucket, &Written::Marker(&row))
    }

    /// What a line of a job sends.
    fn sends_of_line(&self, alloc: Global, job: u64, line: u32) -> Result<Vec<Sent>, AllocError>
        requires few { self.now.commands + 1 < 2 ^ 64 }
        requires line { 1 ≤ line }
        ensures { IfOk result (λ sends. (h : History) → IsAfter self.now h
            → sends.items ≡ effects_after self.now.region h (Command.Line job line)) }
    {
        match self.outcome_of_line(job, line)? {
            Some(
                Ok(
                    LineWrite::Tags {
                        bucket,
                        key,
                        id,
                        tags,
                    },
                ),
            ) => self.sends_of_tags(alloc, &bucket, &key, id, &tags, self.next_stamp()),
            Some(
                Ok(
                    LineWrite::Hold {
                        bucket,
                        key,
                        id,
                        hold,
                    },
                ),
            ) => self.sends_of_hold(alloc, &bucket, &key, id, hold, self.next_stamp()),
            Some(Err(_)) | None => Ok(Vec::new(alloc)),
        }
    }

    /// What an accepted command prescribes, in the order in which `apply` puts it behind the tasks.
    pub fn effects(&self, alloc: Global, command: &Command) -> Result<Vec<Sent>, AllocError>
        requires few { self.now.commands + 1 < 2 ^ 64 }
        requires short { MeetsLimits command.now }
        ensures { IfOk result (λ sends. (h : History) → IsAfter self.now h → sends.items ≡ effects_after self.now.region h command.now) }
    {
        match command {
            Command::Put {
                bucket,
                key,
                tags,
                hold,
                class,
                body,
            } => self.sends_of_put(alloc, bucket, key, tags, *hold, class, body),
            Command::Marker { bucket, key } => self.sends_of_marker(alloc, bucket, key),
            Command::SetTags {
                bucket,
                key,
                id,
                tags,
            } => self.sends_of_tags(alloc, bucket, key, *id, tags, self.next_stamp()),
            Command::SetHold {
                bucket,
                key,
                id,
                hold,
            } => self.sends_of_hold(alloc, bucket, key, *id, *hold, self.next_stamp()),
            Command::CreateBucket { .. }
            | Command::DeleteBucket { .. }
            | Command::SetVersioning { .. }
            | Command::SetReplication { .. }
            | Command::DropReplication { .. }
            | Command::Remove { .. }
            | Command::Receive { .. }
            | Command::Settle { .. }
            | Command::Attempt { .. }
            | Command::CreateJob { .. }
            | Command::MoveJob { .. }
            | Command::SetPriority { .. }
            | Command::Prepare { .. }
            | Command::Finish { .. } => Ok(Vec::new(alloc)),
            Command::Line { job, line } => self.sends_of_line(alloc, *job, *line),
        }
    }
}
