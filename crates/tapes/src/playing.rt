// Calls on a core, each told in lines of text.
ghost use Rattle.std.specs.Prelude.{◌≤◌};

use crate::Trouble;
use crate::numbers::Numbers;
use board::Board;
use model::{Answer, Finished, Ran, Refusal, Span};
use monitor::Monitor;
use scheduler::{Core, Mask};
use std::fmt;

// A new core with its mask, and where its tape is printed.
#[derive(Drop)]
pub struct Tape<P, M: Monitor> {
    rt: P,
    core: Core<M>,
    mask: Mask,
}

// Six choices of places: for spans, and for finished events. They go by number, since the runs draw them.
fn places(choice: u32) -> (usize, usize)
    ensures spans { result.0 ≤ 16 }
    ensures finished { result.1 ≤ 8 }
{
    match choice {
        0 => (1, 1),
        1 => (2, 1),
        2 => (4, 2),
        3 => (8, 0),
        4 => (0, 8),
        _ => (16, 8),
    }
}

impl<P: Print, M: Monitor> Tape<P, M> {
    pub fn new(rt: P, board: Board, monitor: M) -> Tape<P, M> {
        Tape {
            rt,
            core: Core::new(board, monitor),
            mask: Mask::new(),
        }
    }

    // The letters of a tape: a reply's are another format, which has them too.
    pub fn raise(&mut self, line: u32, tag: u32) -> Result<(), Trouble> {
        match self.core.raise(&self.mask, line, tag) {
            Ok(Answer::Permitted) => println!(self.rt; "P")?,
            Ok(Answer::Queued) => println!(self.rt; "Q")?,
            Err(refusal) => self.refused(refusal)?,
        }
        Ok(())
    }

    pub fn strobe(&mut self, word: u16, tag: u32) -> Result<(), Trouble> {
        let (taken, permitted) = self.core.strobe(&self.mask, word, tag);
        println!(self.rt; "W {taken} {permitted}")?;
        Ok(())
    }

    pub fn close(&mut self, word: u16) -> Result<(), Trouble> {
        self.mask.set(word);
        println!(self.rt; "M {word}")?;
        Ok(())
    }

    // Advances with one of the choices of places.
    pub fn advance(&mut self, ticks: u32, choice: u32) -> Result<(), Trouble> {
        let (span_places, event_places) = places(choice);
        let spans = &mut [Span::BLANK; 16][..span_places];
        let finished = &mut [Finished::BLANK; 8][..event_places];
        match self.core.advance(ticks, spans, finished) {
            Ok(ran) => self.ran(ran, spans, finished),
            Err(refusal) => self.refused(refusal),
        }
    }

    fn ran(&self, ran: Ran, spans: &[Span], finished: &[Finished]) -> Result<(), Trouble> {
        let ticks = ran.ticks;
        println!(self.rt; "A {ticks}")?;
        self.first(spans, ran.spans)?;
        self.first(finished, ran.finished)
    }

    // The first of these, a line each. The program's own: of a public one no contract could say what is printed.
    fn first<T: fmt::Display>(&self, items: &[T], count: usize) -> Result<(), Trouble> {
        for item in items.iter().take(count) {
            println!(self.rt; "{item}")?;
        }
        Ok(())
    }

    fn refused(&self, refusal: Refusal) -> Result<(), Trouble> {
        let (number, place) = (refusal.number(), refusal.place());
        println!(self.rt; "E {number} {place}")?;
        Ok(())
    }

    // Advances to an instant in 300 calls, and tells only the instant reached.
    pub fn pass(&mut self, until: u32) -> Result<(), Trouble> {
        for _ in 0..300u32 {
            let rest = until.saturating_sub(self.core.instant());
            self.core
                .advance(rest, &mut [Span::BLANK; 16], &mut [Finished::BLANK; 8])?;
        }
        let instant = self.core.instant();
        println!(self.rt; "instant {instant}")?;
        Ok(())
    }

    // Calls drawn by lot: of lines below `lines`, and of fewer than `step` ticks.
    pub fn play(&mut self, seed: u32, calls: u32, lines: u32, step: u32) -> Result<(), Trouble> {
        let mut numbers = Numbers::new(seed);
        for tag in 0..calls {
            match numbers.below(20) {
                0..=8 => self.raise(numbers.below(lines), tag)?,
                9 => self.strobe(numbers.word(), tag)?,
                10 => self.close(numbers.word() & numbers.word() & numbers.word())?,
                _ => self.advance(numbers.below(step), numbers.below(8))?,
            }
        }
        Ok(())
    }
}
