// The runs, one after the other.
use crate::Trouble;
use crate::boards::{eight, long, single, three};
use crate::monitors::sixteen;
use crate::playing::Tape;
use budget::Budget;
use distance::Distance;
use example::{board_k, monitors_k};
use monitor::{Joint, Pair};
use trail::Trail;

pub fn all(rt: &impl Print) -> Result<(), Trouble> {
    distances(rt)?;
    kinds(rt)?;
    alone(rt)?;
    full(rt)?;
    joined(rt)?;
    queues(rt)?;
    last(rt)
}

fn distances(rt: &impl Print) -> Result<(), Trouble> {
    println!(rt; "board K, two distances")?;
    Tape::new(rt, board_k(), monitors_k()).play(1, 400, 3, 60)
}

// The board has a fourth line that the monitor lacks.
fn kinds(rt: &impl Print) -> Result<(), Trouble> {
    println!(rt; "three partitions; a trail, a budget and a distance")?;
    let first = Pair::new(Trail::of(&[50, 200, 500])?, Budget::of(2, 300)?);
    let monitor = Pair::new(first, Distance::of(150)?);
    Tape::new(rt, three()?, monitor).play(2, 500, 5, 120)
}

fn alone(rt: &impl Print) -> Result<(), Trouble> {
    println!(rt; "one partition, one distance")?;
    Tape::new(rt, single()?, Distance::of(1)?).play(3, 200, 3, 50)
}

fn full(rt: &impl Print) -> Result<(), Trouble> {
    println!(rt; "eight partitions, sixteen lines")?;
    Tape::new(rt, eight()?, sixteen()?).play(4, 600, 17, 300)
}

fn joined(rt: &impl Print) -> Result<(), Trouble> {
    println!(rt; "board K, a budget and a trail, limited by a budget")?;
    let first = Pair::new(Budget::of(3, 64)?, Trail::of(&[1, 30, 31, 90, 200])?);
    let monitor = Joint::new(first, Budget::of(4, 100)?);
    Tape::new(rt, board_k(), monitor).play(5, 300, 3, 90)
}

// Both queues are filled, strobed when full, and run until they are empty.
fn queues(rt: &impl Print) -> Result<(), Trouble> {
    println!(rt; "board K, full queues")?;
    let monitor = Pair::new(Trail::of(&[7, 20])?, Budget::of(64, 1_000_000_000)?);
    let mut tape = Tape::new(rt, board_k(), monitor);
    for tag in 0..34u32 {
        tape.raise(0, tag)?;
    }
    tape.strobe(65_535, 34)?;
    for tag in 35..69u32 {
        tape.raise(1, tag)?;
    }
    tape.strobe(65_535, 69)?;
    for _ in 0..40u32 {
        tape.advance(60, 7)?;
    }
    tape.play(6, 100, 3, 60)
}

// The last ticks of the clock.
fn last(rt: &impl Print) -> Result<(), Trouble> {
    println!(rt; "two long slots, the clock's end")?;
    let monitor = Pair::new(Distance::of(300)?, Budget::of(2, 1000)?);
    let mut tape = Tape::new(rt, long()?, monitor);
    tape.pass(3_999_994_000)?;
    tape.play(7, 200, 3, 500)
}
