// One line whose events come once in a period, each of them late by a jitter at most.
ghost use Rattle.std.specs.Prelude.{◌≤◌};

mod calls;

#[derive(Drop)]
pub struct Jitter {
    period: u32,
    jitter: u32,
    ghost some: { 1 ≤ period },
    ghost few: { period ≤ 1000000000 },
    ghost jitter_few: { jitter ≤ 1000000000 },
}
