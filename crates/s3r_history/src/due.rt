//! The first pending task to a region.

use s3r_names::Bytes;
use s3r_record::Effect;

/// The first pending task to a region.
#[derive(Drop)]
pub struct Due {
    pub number: u64,
    /// How many attempts were made for it.
    pub attempts: u32,
    pub effect: Effect<Bytes>,
}
