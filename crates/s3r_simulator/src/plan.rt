// Which calls of a run are to fail.

use s3r_world::{MemoryWorld, Side};
use std::alloc::{AllocError, Global};

/// Which calls are to fail: so many of a side's next ones, the one of a number, and all after a number.
#[derive(Drop)]
pub struct PlannedFaults {
    next: Vec<(Side, u32)>,
    pub at: Option<u64>,
    pub after: Option<u64>,
}

impl PlannedFaults {
    pub fn new(alloc: Global) -> PlannedFaults {
        PlannedFaults {
            next: Vec::new(alloc),
            at: None,
            after: None,
        }
    }

    /// So many of the next calls of a side fail.
    pub fn fail_next(&mut self, side: Side, count: u32) -> Result<(), AllocError> {
        self.next.push((side, count))?;
        Ok(())
    }

    /// Plans the same in a world.
    pub fn plan_in(&self, world: &mut MemoryWorld) {
        for (side, count) in &self.next {
            world.fail_next(*side, *count);
        }
        if let Some(call) = self.at {
            world.fail_at(call);
        }
        if let Some(call) = self.after {
            world.stop_after(call);
        }
    }
}
