// What a board is made of: slots, interrupt lines and overheads, all in ticks of one microsecond.
ghost use Rattle.std.specs.Prelude.{◌≡◌};
ghost use Rattle.model.specs.Board.{grant_cost};

// A stretch of the cycle that belongs to one partition.
#[derive(Clone, Copy, PartialEq, Eq, Debug, Default)]
pub struct Slot {
    pub owner: u8,
    pub ticks: u32,
}

impl Slot {
    pub fn new(owner: u8, ticks: u32) -> Slot
        ensures { result ≡ record { owner = owner; ticks = ticks } }
    {
        Slot { owner, ticks }
    }
}

// An interrupt line: the partition that it belongs to, what its top half costs, and what its handler costs.
#[derive(Clone, Copy, PartialEq, Eq, Debug, Default)]
pub struct Line {
    pub owner: u8,
    pub top: u16,
    pub handler: u16,
}

impl Line {
    pub fn new(owner: u8, top: u16, handler: u16) -> Line
        ensures { result ≡ record { owner = owner; top = top; handler = handler } }
    {
        Line {
            owner,
            top,
            handler,
        }
    }
}

// What the scheduler itself costs: a monitor's check, rescheduling, one context switch.
#[derive(Clone, Copy, PartialEq, Eq, Debug, Default)]
pub struct Overheads {
    pub check: u16,
    pub reschedule: u16,
    pub switch: u16,
}

impl Overheads {
    pub fn new(check: u16, reschedule: u16, switch: u16) -> Overheads
        ensures { result ≡ record { check = check; reschedule = reschedule; switch = switch } }
    {
        Overheads {
            check,
            reschedule,
            switch,
        }
    }

    // What a grant costs beside its handler: rescheduling, a switch there and back.
    pub fn grant(&self) -> u32
        ensures { result ≡ grant_cost self.now }
    {
        u32::from(self.reschedule) + 2 * u32::from(self.switch)
    }
}
