// Opening a grant, asking it, and running its steps.
ghost use Rattle.std.specs.Prelude.{◌≡◌, is_some, None};
ghost use Rattle.model.specs.Tick.{grant, closing};
ghost use Rattle.parts.specs.Grants.{opened, stepped};

use super::{Grant, first_step, less};
use crate::phase::Phase;

impl Grant {
    // No grant is open. The phase says so, and the line's number says nothing: an Option around both would be a second way of being
    // closed.
    pub fn closed() -> Grant
        ensures { opened result ≡ None }
    {
        Grant {
            line: 0,
            phase: Phase::Closed,
        }
    }

    // A grant at its start. Steps of no ticks are skipped.
    pub fn new(line: u8, lead: u16, work: u16, trail: u16) -> Grant
        ensures { opened result ≡ closing (grant line lead work trail) }
    {
        Grant {
            line,
            phase: first_step(lead, work, trail),
        }
    }

    pub fn is_open(&self) -> bool
        ensures { result ≡ is_some (opened self.now) }
    {
        match self.phase {
            Phase::Lead { .. } | Phase::Work { .. } | Phase::Trail { .. } => true,
            Phase::Closed => false,
        }
    }

    pub fn line(&self) -> u8
        ensures { result ≡ self.now.line }
    {
        self.line
    }

    pub fn phase(&self) -> Phase
        ensures { result ≡ self.now.phase }
    {
        self.phase
    }

    // Runs ticks of the current step, at most what is left of it.
    pub fn step(&mut self, ticks: u32)
        ensures steps { opened self.new ≡ stepped ticks self.old }
        ensures line { self.new.line ≡ self.old.line }
    {
        self.phase = match self.phase {
            Phase::Lead { left, work, trail } => first_step(less(left, ticks), work, trail),
            Phase::Work { left, trail } => first_step(0, less(left, ticks), trail),
            Phase::Trail { left } => first_step(0, 0, less(left, ticks)),
            Phase::Closed => Phase::Closed,
        };
    }
}
