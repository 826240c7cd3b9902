// Plays a sheet from standard input on board K, and prints the replies.
#![tactic(auto)]

mod printer;
mod trouble;

use crate::printer::Printer;
use crate::trouble::Trouble;
use example::{board_k, monitors_k};
use player::play_sheet;
use replies::Page;
use report::exit_code;
use std::io::Read;
use std::process::ExitCode;

// A sheet is read up to so many bytes; what follows is left out.
const MOST_BYTES: u64 = 65_536;

fn main(rt: HostRuntime) -> ExitCode {
    exit_code(&rt, run(&rt))
}

fn run(rt: &HostRuntime) -> Result<(), Trouble> {
    let sheet = sheet_of_input(rt)?;
    let printer = Printer::new(rt.alloc(), rt.stdout()).map_err(Trouble::Output)?;
    let mut page = Page::new(printer);
    let played = play_sheet(board_k(), monitors_k(), &sheet, &mut page);
    page.into_inner().finish().map_err(Trouble::Output)?;
    played.map_err(|_| Trouble::Unwritten)
}

fn sheet_of_input(rt: &HostRuntime) -> Result<Vec<u8>, Trouble> {
    let mut sheet = Vec::new(rt.alloc());
    rt.stdin()
        .take(MOST_BYTES)
        .read_to_end(&mut sheet)
        .map_err(Trouble::Input)?;
    Ok(sheet)
}
