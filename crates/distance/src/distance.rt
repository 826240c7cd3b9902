// A monitor of one line that keeps a distance between permits.
ghost use Rattle.std.specs.Prelude.{◌≤◌};

mod calls;

#[derive(Drop)]
pub struct Distance {
    distance: u32,
    latest: Option<u32>,
    ghost some: { 1 ≤ distance },
    ghost few: { distance ≤ 1000000000 },
}
