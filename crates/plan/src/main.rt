// Prints the plan of an example board, how a board that is out of range is refused, and a run of twenty ticks.
#![tactic(auto)]

mod running;
mod told;

use board::{Board, Layout};
use curve::bound;
use example::{board_k, curves_k, monitors_k};
use model::Slot;
use report::exit_code;
use running::show_run;
use std::process::ExitCode;
use told::Told;

type Trouble = report::Trouble<Told>;

fn main(rt: HostRuntime) -> ExitCode {
    exit_code(&rt, run(&rt))
}

fn run(rt: &impl Print) -> Result<(), Trouble> {
    let mut board = board_k();
    show_partitions(rt, &board)?;
    show_lines(rt, &board)?;
    show_refusal(rt, &mut board)?;
    show_run(rt, board)
}

fn show_partitions(rt: &impl Print, board: &Board) -> Result<(), Trouble> {
    let partitions = board.partitions();
    let cycle = board.cycle();
    println!(rt; "board K: {partitions} partitions, cycle {cycle} ticks")?;
    let (monitor, curve) = (monitors_k(), curves_k());
    for partition in 0..u32::from(partitions) {
        let own = board.own(partition)?;
        let ticks = bound(board, &monitor, &curve, partition)?;
        println!(rt;
            "partition {partition}: {own} ticks of each cycle, response-time bound {ticks} ticks"
        )?;
    }
    Ok(())
}

fn show_lines(rt: &impl Print, board: &Board) -> Result<(), Trouble> {
    // by their numbers: a number is what is asked and printed
    for line in 0..board.lines().len() as u32 {
        let cost = board.full_cost(line)?;
        println!(rt; "line {line}: full cost {cost} ticks")?;
    }
    Ok(())
}

// A slot of no ticks is out of range, and the board is as it was.
fn show_refusal(rt: &impl Print, board: &mut Board) -> Result<(), Trouble> {
    let layout = Layout {
        partitions: 2,
        slots: &[Slot::new(0, 10), Slot::new(1, 0)],
        lines: &[],
        overheads: board.overheads(),
    };
    if let Err(refusal) = board.fill(layout) {
        let told = Told::from(refusal);
        println!(rt; "a board with slot 1 of no ticks is refused: {told}")?;
    }
    let cycle = board.cycle();
    println!(rt; "the board is as before: cycle {cycle} ticks")?;
    Ok(())
}
