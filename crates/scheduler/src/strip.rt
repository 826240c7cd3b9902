// A caller's buffer that is written from its front.
ghost use Rattle.std.specs.Prelude.{◌≤◌, length};

mod calls;

// A caller's buffer, and how many of its first places are written. Each call that takes one promises that it still holds the same
// buffer: without that a caller would not learn what was written to it.
#[derive(Drop)]
pub struct Strip<'a, T> {
    places: &'a mut [T],
    written: usize,
    ghost inside: { written ≤ length places.now },
}
