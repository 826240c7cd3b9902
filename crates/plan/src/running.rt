// A run on a board of two lines: an event raised, twenty ticks run, and the spans and finished events that they wrote.
use crate::Trouble;
use board::Board;
use example::monitors_k;
use model::{Answer, Finished, Span};
use scheduler::{Core, Mask};
use std::fmt;

pub fn show_run(rt: &impl Print, board: Board) -> Result<(), Trouble> {
    let mut core = Core::new(board, monitors_k());
    // in words here, by a letter in a sheet's reply
    let word = match core.raise(&Mask::new(), 0, 7)? {
        Answer::Permitted => "permitted",
        Answer::Queued => "queued",
    };
    println!(rt; "line 0 raised at 0 with tag 7: {word}")?;
    let mut spans = [Span::BLANK; 8];
    let mut finished = [Finished::BLANK; 2];
    let ran = core.advance(20, &mut spans, &mut finished)?;
    show_first(rt, &spans, ran.spans)?;
    show_first(rt, &finished, ran.finished)?;
    let instant = core.instant();
    println!(rt; "instant {instant}")?;
    Ok(())
}

// The first of these, a line each. Each program has its own: of a public one no contract could say what is printed.
fn show_first<T: fmt::Display>(rt: &impl Print, items: &[T], count: usize) -> Result<(), Trouble> {
    for item in items.iter().take(count) {
        println!(rt; "{item}")?;
    }
    Ok(())
}
