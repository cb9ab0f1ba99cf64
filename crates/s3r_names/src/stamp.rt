//! When a value was written.

ghost use Rattle.std.specs.Prelude.{◌≡◌};
ghost use Rattle.s3r_names.specs.Stamp.{is_before};

/// When a value was written: a clock's number, and the region and index of the command that wrote it.
#[derive(Clone, Copy, Debug, PartialEq, Eq, PartialOrd, Ord)]
pub struct Stamp {
    pub n: u64,
    pub region: u8,
    pub index: u64,
}

/// Whether the first stamp is before the second.
pub fn is_before(first: Stamp, second: Stamp) -> bool
    ensures { result ≡ is_before first second }
{
    first < second
}
