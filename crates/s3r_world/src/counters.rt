//! How often each side of a world has failed. A count stays at its greatest number.
ghost use Rattle.std.specs.Prelude.{◌≡◌, ℕ, ◌<◌, ◌≤◌, length, Some, slice_index, vec_len};
ghost use Rattle.s3r_world.specs.Counting.{most_counted};
ghost use Rattle.s3r_world.specs.Outside.{HasRisen};

use crate::world::VolumeFault;

// How often each side has failed.
#[derive(Drop)]
pub struct Counters {
    pub volumes: Vec<u64>,
    pub input: u64,
    pub output: u64,
    pub door: u64,
}

// Counts a failure of one of these.
fn count_at(counts: &mut [u64], v: u32)
    requires { v < length counts.old }
    ensures none_falls { (u : ℕ) → slice_index counts.old u ≤ slice_index counts.new u }
    ensures rises { HasRisen (Some most_counted) 1 (slice_index counts.old v) (slice_index counts.new v) }
{
    counts[v as usize] = counts[v as usize].saturating_add(1);
}

/// Counts a failure.
pub fn count_one(count: &mut u64)
    ensures none_falls { count.old ≤ count.new }
    ensures rises { HasRisen (Some most_counted) 1 count.old count.new }
{
    *count = count.saturating_add(1);
}

// One of these, 0 where there is none with this number.
fn one_of(counts: &[u64], v: u32) -> u64
    ensures { result ≡ slice_index counts.now v }
{
    match counts.get(v as usize) {
        Some(count) => *count,
        None => 0,
    }
}

impl Counters {
    /// How often a volume has failed, 0 where there is none with this number.
    pub fn of_volume(&self, v: u32) -> u64
        ensures { result ≡ slice_index self.now.volumes.items v }
    {
        one_of(&self.volumes, v)
    }

    /// Counts a failure of a volume, and gives the fault to answer.
    pub fn volume_failed(&mut self, v: u32) -> VolumeFault
        requires { v < vec_len self.old.volumes }
        ensures fault { result.0 ≡ v }
        ensures none_falls { (u : ℕ) → slice_index self.old.volumes.items u ≤ slice_index self.new.volumes.items u }
        ensures rises { HasRisen (Some most_counted) 1 (slice_index self.old.volumes.items v) (slice_index self.new.volumes.items v) }
        ensures volumes { vec_len self.new.volumes ≡ vec_len self.old.volumes }
        ensures input { self.new.input ≡ self.old.input }
        ensures output { self.new.output ≡ self.old.output }
        ensures door { self.new.door ≡ self.old.door }
    {
        count_at(&mut self.volumes, v);
        VolumeFault(v)
    }
}
