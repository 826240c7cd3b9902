// Plays a fixed list of runs on several boards and prints their tapes.
#![tactic(auto)]

mod boards;
mod monitors;
mod numbers;
mod playing;
mod runs;

use report::exit_code;
use runs::all;
use std::process::ExitCode;

type Trouble = report::Trouble<model::Refusal>;

fn main(rt: HostRuntime) -> ExitCode {
    exit_code(&rt, all(&rt))
}
