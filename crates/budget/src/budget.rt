// A monitor of one line that gives so many permits in each period.
ghost use Rattle.std.specs.Prelude.{◌≤◌};

mod calls;

// used counts the permits in the period of the latest. Before the first permit both are 0: every answer is right with these
// numbers, where an Option would be one case more in each.
#[derive(Drop)]
pub struct Budget {
    permits: u8,
    period: u32,
    latest: u32,
    used: u8,
    ghost some: { 1 ≤ permits },
    ghost few: { permits ≤ 64 },
    ghost long: { 1 ≤ period },
    ghost short: { period ≤ 1000000000 },
    ghost within: { used ≤ permits },
}
