//! The first time at which a straight line reaches a goal, found by one division.
ghost use Rattle.std.specs.Prelude.{◌≤◌, ◌<◌};
ghost use Rattle.exact.specs.First.{FirstOrNone};
ghost use Rattle.disturbance.specs.Crossing.{Reached};

// A straight line of heights in mHz, from `x` at `start` to `y` at `end`, both in ms.
#[derive(Clone, Copy)]
pub(crate) struct Slope {
    pub(crate) start: u32,
    pub(crate) x: u32,
    pub(crate) end: u32,
    pub(crate) y: u32,
    ghost order: { (start < end) × (end ≤ 1200000) },
    ghost limits: { (x ≤ 100000) × (y ≤ 100000) },
}

impl Slope {
    // The first whole millisecond from a time on at which the line is at least the goal. Line and
    // goal are multiplied by `end` - `start`, so that they are whole.
    pub(crate) fn first_reached(self, goal: u64, from: u32) -> Option<u32>
        requires { (self.start ≤ from) × (from ≤ self.end) }
        ensures { FirstOrNone (Reached self.start self.x self.end self.y goal from) result }
    {
        let Slope { start, x, end, y } = self;
        let here = x as u64 * (end - from) as u64 + y as u64 * (from - start) as u64;
        if goal <= here {
            return Some(from);
        }
        let span = (end - start) as u64;
        if y as u64 * span < goal {
            return None;
        }
        let need = goal - x as u64 * span;
        let climb = (y - x) as u64;
        Some(start + need.div_ceil(climb) as u32)
    }
}
