// The checks of the distances, in their order.
ghost use Rattle.std.specs.Prelude.{◌≡◌};
ghost use Rattle.model.specs.Calls.{answer};
ghost use Rattle.trail.specs.Trail.{trail_fault};

use super::MOST;
use arrayvec::ArrayVec;
use model::Refusal;
use windows::{LONGEST, in_range};

// Their count is number 0 of the setting, and the distances follow from 1.
pub fn check_distances(distances: &ArrayVec<u32, MOST>) -> Result<(), Refusal>
    ensures { result ≡ answer (trail_fault distances.now.items) }
{
    if distances.is_empty() {
        return Err(Refusal::Setting(0));
    }
    let mut before = 1;
    for (i, distance) in distances.iter().enumerate() {
        if !in_range(before, LONGEST, *distance) {
            return Err(Refusal::Setting(i as u32 + 1));
        }
        before = *distance;
    }
    Ok(())
}
