//! How far a version's replication is.

ghost use Rattle.std.specs.Prelude.{◌≡◌, None};
ghost use Rattle.std.specs.List.{list_any};
ghost use Rattle.s3r_history.specs.Statuses.{is_about, is_followed_by};
ghost use Rattle.s3r_history.specs.Words.{History};
ghost use Rattle.s3r_history.specs.RegionView.{view};
ghost use Rattle.s3r_region.specs.After.{IsAfter};
ghost use Rattle.s3r_region.specs.View.{seen_status};
ghost use Rattle.s3r_region.specs.Status.{all_tasks, outdoes, decides, worse, worse_of, worst, row_status};

use crate::State;
use crate::parts::{id_of, key_of, source_of, target_of};
use s3r_history::Prescribed;
use s3r_names::{BucketName, Kept, Key, Status, VersionId};
use s3r_queue::{Outbox, Task, TaskState, status_of};
use s3r_versions::Row;

/// So many regions there may be.
const REGIONS: u32 = 8;

/// Whether the task is about the row of the bucket, and was prescribed since that was added.
fn is_about(task: &Task<Prescribed>, bucket: &BucketName, row: &Row<Kept>) -> bool
    ensures { result ≡ is_about bucket.now row.now task.now }
{
    let effect = &task.effect.effect;
    row.place <= task.effect.place
        && (*source_of(effect) == *bucket
            && (row.key == *key_of(effect) && row.id == id_of(effect)))
}

/// Whether the second goes to the same bucket, and was prescribed by a later command.
fn is_followed_by(task: &Task<Prescribed>, other: &Task<Prescribed>) -> bool
    ensures { result ≡ is_followed_by task.now other.now }
{
    *target_of(&other.effect.effect) == *target_of(&task.effect.effect)
        && task.effect.place < other.effect.place
}

fn any_outdoes(
    tasks: &[Task<Prescribed>],
    bucket: &BucketName,
    row: &Row<Kept>,
    task: &Task<Prescribed>,
) -> bool
    ensures { result ≡ list_any (outdoes bucket.now row.now task.now) tasks.now }
{
    tasks.iter().any(|other| is_about(other, bucket, row) && is_followed_by(task, other))
}

/// Whether a later task about the row goes to the same bucket.
fn is_outdone(
    outbox: &Outbox<Prescribed>,
    bucket: &BucketName,
    row: &Row<Kept>,
    task: &Task<Prescribed>,
) -> bool
    ensures { result ≡ list_any (outdoes bucket.now row.now task.now) (all_tasks outbox.now) }
{
    for region in 0..REGIONS {
        if any_outdoes(outbox.tasks(region), bucket, row, task) {
            return true;
        }
    }
    false
}

/// Of two states the one that decides a status.
fn worse(first: TaskState, second: TaskState) -> TaskState
    ensures { result ≡ worse first second }
{
    match first {
        TaskState::Pending => first,
        TaskState::Completed => second,
        TaskState::Failed(_) | TaskState::Exhausted => match second {
            TaskState::Pending => second,
            TaskState::Completed | TaskState::Failed(_) | TaskState::Exhausted => first,
        },
    }
}

fn worse_of(so_far: Option<TaskState>, state: TaskState) -> TaskState
    ensures { result ≡ worse_of so_far state }
{
    match so_far {
        Some(first) => worse(first, state),
        None => state,
    }
}

/// The state that decides, of one that was found before and those of the last tasks about the row among these.
fn worst_of(
    outbox: &Outbox<Prescribed>,
    bucket: &BucketName,
    row: &Row<Kept>,
    found: Option<TaskState>,
    tasks: &[Task<Prescribed>],
) -> Option<TaskState>
    ensures { result ≡ worst (decides (all_tasks outbox.now) bucket.now row.now) found tasks.now }
{
    let mut so_far = found;
    for task in tasks {
        if is_about(task, bucket, row) && !is_outdone(outbox, bucket, row, task) {
            so_far = Some(worse_of(so_far, task.state()));
        }
    }
    so_far
}

/// The same of all tasks.
fn worst(outbox: &Outbox<Prescribed>, bucket: &BucketName, row: &Row<Kept>) -> Option<TaskState>
    ensures { result ≡ worst (decides (all_tasks outbox.now) bucket.now row.now) None (all_tasks outbox.now) }
{
    let mut so_far: Option<TaskState> = None;
    for region in 0..REGIONS {
        so_far = worst_of(outbox, bucket, row, so_far, outbox.tasks(region));
    }
    so_far
}

/// The status of a row of the bucket.
pub(crate) fn row_status(
    outbox: &Outbox<Prescribed>,
    bucket: &BucketName,
    row: &Row<Kept>,
) -> Status
    ensures { result ≡ row_status outbox.now bucket.now row.now }
{
    let replica = row.origin.is_some();
    match worst(outbox, bucket, row) {
        Some(state) => status_of(replica, &[state]),
        None => status_of(replica, &[]),
    }
}

impl State {
    fn status_seen(&self, bucket: &BucketName, key: &Key, id: VersionId) -> Option<Status>
        ensures { result ≡ seen_status self.now bucket.now key.now id }
    {
        let at = self.bucket(bucket)?;
        let row = at.rows.find(key, id)?;
        Some(row_status(self.outbox(), bucket, row))
    }

    /// How far the replication of a version is, by its last task for each destination. None where it isn't there.
    pub fn status(&self, bucket: &BucketName, key: &Key, id: VersionId) -> Option<Status>
        ensures after { (h : History) → IsAfter self.now h → result ≡ (view self.now.region h).status bucket.now key.now id }
        ensures seen { result ≡ seen_status self.now bucket.now key.now id }
    {
        self.status_seen(bucket, key, id)
    }
}
