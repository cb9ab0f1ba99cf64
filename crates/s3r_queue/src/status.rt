//! The status of a version.

ghost use Rattle.std.specs.Prelude.{◌≡◌};
ghost use Rattle.std.specs.List.{list_any};
ghost use Rattle.s3r_queue.specs.Tasks.{is_pending};
ghost use Rattle.s3r_queue.specs.Statuses.{is_failed, status_of};

use crate::TaskState;
use s3r_names::Status;

fn is_pending(state: TaskState) -> bool
    ensures { result ≡ is_pending state }
{
    match state {
        TaskState::Pending => true,
        TaskState::Completed | TaskState::Failed(_) | TaskState::Exhausted => false,
    }
}

fn is_failed(state: TaskState) -> bool
    ensures { result ≡ is_failed state }
{
    match state {
        TaskState::Failed(_) | TaskState::Exhausted => true,
        TaskState::Pending | TaskState::Completed => false,
    }
}

fn any_pending(tasks: &[TaskState]) -> bool
    ensures { result ≡ list_any is_pending tasks.now }
{
    tasks.iter().any(|state| is_pending(*state))
}

fn any_failed(tasks: &[TaskState]) -> bool
    ensures { result ≡ list_any is_failed tasks.now }
{
    tasks.iter().any(|state| is_failed(*state))
}

/// The status of a version by the last task to each of its destinations. A version that was received itself is a replica.
pub fn status_of(replica: bool, tasks: &[TaskState]) -> Status
    ensures { result ≡ status_of replica tasks.now }
{
    if replica {
        return Status::Replica;
    }
    if any_pending(tasks) {
        return Status::Pending;
    }
    if any_failed(tasks) {
        return Status::Failed;
    }
    match tasks {
        [] => Status::NoTask,
        _ => Status::Completed,
    }
}
