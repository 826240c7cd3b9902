// A monitor limited by line 0 of another.
mod calls;

#[derive(Drop)]
pub struct Joint<A, B> {
    first: A,
    second: B,
}
