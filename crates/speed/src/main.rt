// Runs the standard board close to the clock's end, first idle, then loaded, and prints how much was run.
#![tactic(auto)]

mod running;

use model::Refusal;
use report::{Trouble, exit_code};
use running::Running;
use std::process::ExitCode;

fn main(rt: HostRuntime) -> ExitCode {
    exit_code(&rt, run(&rt))
}

fn run(rt: &impl Print) -> Result<(), Trouble<Refusal>> {
    println!(rt; "start")?;
    let mut running = Running::new()?;
    idle(&mut running)?;
    println!(rt; "idle {running}")?;
    running = Running::new()?;
    loaded(&mut running)?;
    println!(rt; "loaded {running}")?;
    Ok(())
}

fn idle(running: &mut Running) -> Result<(), Refusal> {
    for _ in 0..60_000u32 {
        running.advance(66_666)?;
    }
    Ok(())
}

// Before every 3000 ticks an event is raised, of each line in turn.
fn loaded(running: &mut Running) -> Result<(), Refusal> {
    for tag in 0..1_333_000u32 {
        running.raise(tag % 3, tag)?;
        running.advance(3000)?;
    }
    Ok(())
}
