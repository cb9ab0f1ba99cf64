//! Jobs by their ids.

ghost use Rattle.std.specs.Prelude.{◌≡◌, ◌≤◌, ◌<◌, ◌+◌, length, map, vec_capacity, option_copied, option_map, find, OnSome, IfNone};
ghost use Rattle.s3r_jobs.specs.Any.{facts};
ghost use Rattle.s3r_jobs.specs.Jobs.{is_job, place_of, without, in_order, order_of};

use crate::any::AnyJob;

/// How many jobs stand before the first of that id.
fn place_of(id: u64, jobs: &[AnyJob]) -> usize
    ensures place { result ≡ place_of id (map facts jobs.now) }
    ensures within { result ≤ length jobs.now }
{
    for (place, job) in jobs.iter().enumerate() {
        if job.id() == id {
            return place;
        }
    }
    jobs.len()
}

/// The first job of that id.
pub(crate) fn find(id: u64, jobs: &[AnyJob]) -> Option<&AnyJob>
    ensures { option_map facts (option_copied result) ≡ find (is_job id) (map facts jobs.now) }
{
    let place = place_of(id, jobs);
    if place == jobs.len() {
        return None;
    }
    Some(&jobs[place])
}

/// Takes the first job of that id out.
pub(crate) fn take(jobs: &mut Vec<AnyJob>, id: u64) -> Option<AnyJob>
    ensures job { option_map facts result ≡ find (is_job id) (map facts jobs.old.items) }
    ensures rest { map facts jobs.new.items ≡ without id (map facts jobs.old.items) }
    ensures taken { OnSome result (length jobs.new.items + 1 ≡ length jobs.old.items) }
    ensures none { IfNone result (jobs.new ≡ jobs.old) }
    ensures room { vec_capacity jobs.new ≡ vec_capacity jobs.old }
{
    let place = place_of(id, jobs.as_slice());
    if place == jobs.len() {
        return None;
    }
    Some(jobs.remove(place))
}

/// How many jobs stand before the first one that has a greater id.
fn order_of(id: u64, jobs: &[AnyJob]) -> usize
    ensures place { result ≡ order_of id (map facts jobs.now) }
    ensures within { result ≤ length jobs.now }
{
    for (place, job) in jobs.iter().enumerate() {
        if id < job.id() {
            return place;
        }
    }
    jobs.len()
}

/// Puts the job before the first one that has a greater id. There is room for it.
pub(crate) fn put(jobs: &mut Vec<AnyJob>, job: AnyJob)
    requires { length jobs.old.items < vec_capacity jobs.old }
    ensures items { map facts jobs.new.items ≡ in_order (facts job) (map facts jobs.old.items) }
    ensures more { length jobs.new.items ≡ length jobs.old.items + 1 }
    ensures room { vec_capacity jobs.new ≡ vec_capacity jobs.old }
{
    let place = order_of(job.id(), jobs.as_slice());
    if let Err(_) = jobs.insert(place, job) {
        // There is room.
    }
}
