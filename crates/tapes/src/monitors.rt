// The monitor of sixteen lines.
use budget::Budget;
use distance::Distance;
use model::Refusal;
use monitor::Pair;
use trail::Trail;

type Four = Pair<Pair<Distance, Budget>, Pair<Trail, Distance>>;

pub type Sixteen = Pair<Pair<Four, Four>, Pair<Four, Four>>;

fn four(near: u32, permits: u32, period: u32, far: u32) -> Result<Four, Refusal> {
    let first = Pair::new(Distance::of(near)?, Budget::of(permits, period)?);
    let second = Pair::new(Trail::of(&[near, period])?, Distance::of(far)?);
    Ok(Pair::new(first, second))
}

pub fn sixteen() -> Result<Sixteen, Refusal> {
    let low = Pair::new(four(50, 2, 300, 90)?, four(80, 1, 100, 200)?);
    let high = Pair::new(four(10, 3, 500, 1000)?, four(120, 4, 1000, 60)?);
    Ok(Pair::new(low, high))
}
