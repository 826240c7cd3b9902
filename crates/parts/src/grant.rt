// A grant of a line, step by step.
ghost use Rattle.std.specs.Prelude.{◌≡◌, ℕ, ◌-◌, true};
ghost use Rattle.model.specs.Tick.{grant, closing};
ghost use Rattle.parts.specs.Phases.{open_in, settled};

use crate::phase::Phase;

mod calls;

// A grant is in no step that has no ticks left.
#[derive(Clone, Copy, PartialEq, Eq, Debug)]
pub struct Grant {
    line: u8,
    phase: Phase,
    ghost sound: { settled phase ≡ true },
}

// The first step that has ticks.
fn first_step(lead: u16, work: u16, trail: u16) -> Phase
    ensures opens { (k : ℕ) → open_in k result ≡ closing (grant k lead work trail) }
    ensures sound { settled result ≡ true }
{
    if lead > 0 {
        return Phase::Lead {
            left: lead,
            work,
            trail,
        };
    }
    if work > 0 {
        return Phase::Work { left: work, trail };
    }
    if trail > 0 {
        return Phase::Trail { left: trail };
    }
    Phase::Closed
}

// What is left of a step after some ticks of it.
fn less(left: u16, ticks: u32) -> u16
    ensures { result ≡ left - ticks }
{
    u32::from(left).saturating_sub(ticks) as u16
}
