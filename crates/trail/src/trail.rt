// A monitor of one line that keeps a distance to each of its latest permits.
ghost use Rattle.std.specs.Prelude.{◌≡◌, false, length, is_some};
ghost use Rattle.trail.specs.Trail.{trail_fault};

mod calls;
mod checks;

use arrayvec::ArrayVec;

// How many distances a trail can keep, and how many permits it does.
const MOST: usize = 5;

// The permits are the latest, the latest first: always MOST of them, so that a permit is one turn of the table.
#[derive(Drop)]
pub struct Trail {
    distances: ArrayVec<u32, MOST>,
    permits: [Option<u32>; MOST],
    ghost kept: { length permits ≡ 5 },
    ghost in_range: { is_some (trail_fault distances.items) ≡ false },
}
