// One line whose events come at least a set distance apart.
ghost use Rattle.std.specs.Prelude.{◌≤◌};

mod calls;

#[derive(Drop)]
pub struct Sporadic {
    distance: u32,
    ghost some: { 1 ≤ distance },
    ghost few: { distance ≤ 1000000000 },
}
