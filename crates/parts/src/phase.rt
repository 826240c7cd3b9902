// The steps of a grant: lead switch, work, trail switch, closed.

// The step that a grant is in: what is left of it, and the steps after it. Closed is a step like the others and no Option around
// them: the project asks for one machine that moves lead switch, work, trail switch, closed.
#[derive(Clone, Copy, PartialEq, Eq, Debug)]
pub enum Phase {
    Lead { left: u16, work: u16, trail: u16 },
    Work { left: u16, trail: u16 },
    Trail { left: u16 },
    Closed,
}
