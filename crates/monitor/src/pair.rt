// Two monitors side by side: the lines of the first, then those of the second.
mod calls;

#[derive(Drop)]
pub struct Pair<A, B> {
    pub first: A,
    pub second: B,
}
