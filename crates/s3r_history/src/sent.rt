//! What a command sends.

use s3r_names::Kept;
use s3r_record::Effect;

/// An effect as a command prescribes it, and the region that it goes to.
#[derive(Drop)]
pub struct Sent {
    pub region: u8,
    pub effect: Effect<Kept>,
}

/// An effect that was prescribed, and the index of the command that did.
#[derive(Drop)]
pub struct Prescribed {
    pub effect: Effect<Kept>,
    pub place: u64,
}
