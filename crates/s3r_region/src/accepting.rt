//! Which commands may come next.

ghost use Rattle.std.specs.Prelude.{◌≡◌, option_map, option_copied, length};
ghost use Rattle.s3r_history.specs.Words.{History};
ghost use Rattle.s3r_history.specs.Accepts.{refusal, causes, first_of_causes, of_creation, in_region, of_receipt, of_task, of_deletion, of_switch, of_configuration, of_dropping, of_put, of_marker, of_removal, of_tags, of_hold, of_a_marker, in_version, beyond};
ghost use Rattle.s3r_versions.specs.Lookup.{find_version};
ghost use Rattle.s3r_region.specs.After.{IsAfter, told_by, seen};
ghost use Rattle.s3r_region.specs.View.{seen_view, seen_last, seen_next};
ghost use Rattle.s3r_region.specs.Denies.{Accepts, Gives};

use crate::accepting_jobs::{may_do_line, may_finish, may_prepare, may_set_priority};
use crate::{Bucket, Deny, State};
use s3r_history::Refusal;
use s3r_names::{BucketName, Bytes, Key, VersionId};
use s3r_record::Command;

/// The most buckets of a region.
const MOST_BUCKETS: usize = 100;

/// Whether the bucket may be deleted, where a job may report to it.
fn may_delete(bucket: &Bucket, reported: bool) -> Result<(), Deny>
    ensures { Accepts (first_of_causes (of_deletion reported (told_by bucket.now))) result }
{
    if !bucket.rows.is_empty() {
        return Err(Deny::Refused(Refusal::BucketNotEmpty));
    }
    if reported {
        return Err(Deny::Refused(Refusal::InvalidBucketState));
    }
    Ok(())
}

/// Whether its versioning may be switched so, where a job may report to it.
fn may_switch(bucket: &Bucket, enabled: bool, reported: bool) -> Result<(), Deny>
    ensures { Accepts (first_of_causes (of_switch enabled reported (told_by bucket.now))) result }
{
    if !enabled && (bucket.config.is_some() || bucket.locked || reported) {
        return Err(Deny::Refused(Refusal::InvalidBucketState));
    }
    Ok(())
}

/// Whether it may get a configuration.
pub(crate) fn may_configure(bucket: &Bucket) -> Result<(), Deny>
    ensures { Accepts (first_of_causes (of_configuration (told_by bucket.now))) result }
{
    if !bucket.enabled {
        return Err(Deny::Refused(Refusal::InvalidBucketState));
    }
    Ok(())
}

/// Whether its configuration may be taken away.
pub(crate) fn may_drop(bucket: &Bucket) -> Result<(), Deny>
    ensures { Accepts (first_of_causes (of_dropping (told_by bucket.now))) result }
{
    if bucket.config.is_some() {
        Ok(())
    } else {
        Err(Deny::Refused(Refusal::NoReplication))
    }
}

/// The first region that isn't there, where there are so many.
fn first_beyond(regions: &[u8], count: u32) -> Option<&u8>
    ensures { option_copied result ≡ beyond count regions.now }
{
    regions.iter().find(|region| count <= u32::from(**region))
}

/// Whether all these regions are there, of so many.
pub(crate) fn are_there(regions: &Bytes, count: u32) -> Result<(), Deny>
    ensures { Accepts (option_map (λ r. Refusal.NoSuchRegion r) (beyond count regions.now)) result }
{
    match first_beyond(regions.as_slice(), count) {
        Some(region) => Err(Deny::Refused(Refusal::NoSuchRegion { region: *region })),
        None => Ok(()),
    }
}

/// Whether it may get a version, under a hold or without one.
pub(crate) fn may_put(bucket: &Bucket, hold: bool) -> Result<(), Deny>
    ensures { Accepts (first_of_causes (of_put hold (told_by bucket.now))) result }
{
    if !bucket.enabled {
        return Err(Deny::Refused(Refusal::InvalidBucketState));
    }
    if hold && !bucket.locked {
        return Err(Deny::Refused(Refusal::LockNeeded));
    }
    Ok(())
}

/// Whether it may get a marker.
pub(crate) fn may_mark(bucket: &Bucket) -> Result<(), Deny>
    ensures { Accepts (first_of_causes (of_marker (told_by bucket.now))) result }
{
    if bucket.enabled {
        Ok(())
    } else {
        Err(Deny::Refused(Refusal::InvalidBucketState))
    }
}

/// Whether the version may be removed.
pub(crate) fn may_remove(bucket: &Bucket, key: &Key, id: VersionId) -> Result<(), Deny>
    ensures { Accepts (first_of_causes (of_removal key.now id (told_by bucket.now))) result }
{
    match bucket.rows.find(key, id) {
        Some(row) if row.hold => Err(Deny::Refused(Refusal::AccessDenied)),
        Some(_) => Ok(()),
        None => Err(Deny::Refused(Refusal::NoSuchVersion)),
    }
}

/// Whether the version is there and no marker.
fn is_object(bucket: &Bucket, key: &Key, id: VersionId) -> Result<(), Deny>
    ensures { Accepts (first_of_causes (in_version of_a_marker (find_version key.now id bucket.now.rows.rows))) result }
{
    match bucket.rows.find(key, id) {
        Some(row) if row.marker => Err(Deny::Refused(Refusal::MethodNotAllowed)),
        Some(_) => Ok(()),
        None => Err(Deny::Refused(Refusal::NoSuchVersion)),
    }
}

/// Whether the version's tags may be written.
pub(crate) fn may_tag(bucket: &Bucket, key: &Key, id: VersionId) -> Result<(), Deny>
    ensures { Accepts (first_of_causes (of_tags key.now id (told_by bucket.now))) result }
{
    is_object(bucket, key, id)
}

/// Whether the version's hold may be written.
pub(crate) fn may_hold(bucket: &Bucket, key: &Key, id: VersionId) -> Result<(), Deny>
    ensures { Accepts (first_of_causes (of_hold key.now id (told_by bucket.now))) result }
{
    if !bucket.locked {
        return Err(Deny::Refused(Refusal::LockNeeded));
    }
    is_object(bucket, key, id)
}

impl State {
    /// Whether the command may come next.
    pub fn accepts(&self, command: &Command) -> Result<(), Deny>
        ensures { (h : History) → IsAfter self.now h → Accepts (refusal self.now.regions self.now.region h command.now) result }
    {
        self.may_come(command)
    }

    fn may_come(&self, command: &Command) -> Result<(), Deny>
        ensures { Accepts (first_of_causes (causes self.now.regions (seen_view self.now) command.now)) result }
    {
        match command {
            Command::CreateBucket { name, .. } => self.may_create(name),
            Command::DeleteBucket { name } => {
                may_delete(self.there(name)?, self.jobs().reports_to(name))
            }
            Command::SetVersioning { name, enabled } => {
                may_switch(self.there(name)?, *enabled, self.jobs().reports_to(name))
            }
            Command::SetReplication { name, regions, .. } => {
                are_there(regions, self.regions())?;
                may_configure(self.there(name)?)
            }
            Command::DropReplication { name } => may_drop(self.there(name)?),
            Command::Put { bucket, hold, .. } => may_put(self.there(bucket)?, *hold),
            Command::Marker { bucket, .. } => may_mark(self.there(bucket)?),
            Command::Remove { bucket, key, id } => may_remove(self.there(bucket)?, key, *id),
            Command::SetTags {
                bucket,
                key,
                id,
                ..
            } => may_tag(self.there(bucket)?, key, *id),
            Command::SetHold {
                bucket,
                key,
                id,
                ..
            } => may_hold(self.there(bucket)?, key, *id),
            Command::Receive { from, number, .. } => self.may_receive(*from, *number),
            Command::Settle { to, number, .. } | Command::Attempt { to, number } => {
                self.may_end(*to, *number)
            }
            Command::CreateJob { spec, manifest } => self.may_create_job(spec, *manifest),
            Command::MoveJob { job, state } => self.may_move_job(*job, *state),
            Command::SetPriority { job, .. } => may_set_priority(self.job(*job)?),
            Command::Prepare { job } => may_prepare(self.job(*job)?),
            Command::Line { job, line } => may_do_line(self.job(*job)?, *line),
            Command::Finish { job, body } => may_finish(self.job(*job)?, body),
        }
    }

    /// The bucket of this name, or the refusal of one that isn't there.
    pub(crate) fn there(&self, name: &BucketName) -> Result<&Bucket, Deny>
        ensures { Gives (seen self.now name.now) result }
    {
        match self.bucket(name) {
            Some(bucket) => Ok(bucket),
            None => Err(Deny::Refused(Refusal::NoSuchBucket)),
        }
    }

    fn may_create(&self, name: &BucketName) -> Result<(), Deny>
        ensures { Accepts (first_of_causes (of_creation (seen self.now name.now) (length self.now.buckets))) result }
    {
        if self.bucket(name).is_some() {
            return Err(Deny::Refused(Refusal::BucketAlreadyExists));
        }
        if self.count() >= MOST_BUCKETS {
            return Err(Deny::Refused(Refusal::TooManyBuckets));
        }
        Ok(())
    }

    /// Whether a task of this number may be received from a region.
    fn may_receive(&self, from: u8, number: u64) -> Result<(), Deny>
        ensures { Accepts (first_of_causes (in_region self.now.regions from (of_receipt number (seen_last self.now from)))) result }
    {
        if u32::from(from) >= self.regions() {
            return Err(Deny::Refused(Refusal::NoSuchRegion { region: from }));
        }
        let watermark = self.inbox().watermark(u32::from(from));
        if number <= watermark {
            return Err(Deny::Refused(Refusal::NotNext { watermark }));
        }
        Ok(())
    }

    /// Whether a task of this number to a region may be settled, or tried once more.
    fn may_end(&self, to: u8, number: u64) -> Result<(), Deny>
        ensures { Accepts (first_of_causes (in_region self.now.regions to (of_task number (seen_next self.now to)))) result }
    {
        if u32::from(to) >= self.regions() {
            return Err(Deny::Refused(Refusal::NoSuchRegion { region: to }));
        }
        let first = self.outbox().first(u32::from(to)).unwrap_or(0);
        if number != first {
            return Err(Deny::Refused(Refusal::NotFirst { first }));
        }
        Ok(())
    }
}
