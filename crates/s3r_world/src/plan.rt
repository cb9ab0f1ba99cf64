//! Which calls of a world in memory are to fail.
ghost use Rattle.std.specs.Prelude.{◌≡◌, ◌||◌, false};

use crate::world::Side;

/// How many volumes a world in memory has at most.
pub(crate) const MOST_VOLUMES: u32 = 8;

// Which calls are to fail, and how many there were.
#[derive(Drop)]
pub(crate) struct FaultPlan {
    // so many of the next calls of each volume, and of the other sides
    pub volumes: [u32; 8],
    pub input: u32,
    pub output: u32,
    pub door: u32,
    // every call after so many
    pub stop: Option<u64>,
    // the one call with this number
    pub once: Option<u64>,
    // the calls so far
    pub calls: u64,
}

impl FaultPlan {
    ghost use Rattle.s3r_world.specs.Planned.{is_after, is_at, next_of, is_planned, after_call, with_next, nothing_planned, IsQuiet};

    pub fn nothing() -> FaultPlan
        ensures { result ≡ nothing_planned }
    {
        FaultPlan {
            volumes: [0; 8],
            input: 0,
            output: 0,
            door: 0,
            stop: None,
            once: None,
            calls: 0,
        }
    }

    // How many of a side's next calls are to fail.
    fn next(&self, side: Side) -> u32
        ensures { result ≡ next_of self.now side }
    {
        match side {
            Side::Volume(v) => {
                if v < MOST_VOLUMES {
                    self.volumes[v as usize]
                } else {
                    0
                }
            }
            Side::Input => self.input,
            Side::Output => self.output,
            Side::Door => self.door,
        }
    }

    // Plans that so many of the next calls of a side fail.
    pub fn fail_next(&mut self, side: Side, count: u32)
        ensures { self.new ≡ with_next side count self.old }
    {
        match side {
            Side::Volume(v) => {
                if v < MOST_VOLUMES {
                    self.volumes[v as usize] = count;
                }
            }
            Side::Input => self.input = count,
            Side::Output => self.output = count,
            Side::Door => self.door = count,
        }
    }

    // Whether a call fails by its number, whatever its side.
    fn chosen(&self, call: u64) -> bool
        ensures { result ≡ is_after self.now.stop call || is_at self.now.once call }
    {
        let stopped = match self.stop {
            Some(last) => call > last,
            None => false,
        };
        match self.once {
            Some(one) => stopped || call == one,
            None => stopped,
        }
    }

    // Counts a call, and says whether it is to fail.
    pub fn fails(&mut self, side: Side) -> bool
        ensures fails { result ≡ is_planned self.old side }
        ensures after { self.new ≡ after_call side self.old }
        ensures quiet { IsQuiet self.old → (result ≡ false) × IsQuiet self.new }
    {
        let next = self.next(side);
        self.calls = self.calls.saturating_add(1);
        let chosen = self.chosen(self.calls);
        self.fail_next(side, next.saturating_sub(1));
        next > 0 || chosen
    }
}
