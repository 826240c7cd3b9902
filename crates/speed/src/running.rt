// A core of the standard board, with the places that it writes to, and how much it wrote.
use board::{Board, Layout};
use distance::Distance;
use model::{Finished, Line, Overheads, Refusal, Slot, Span};
use monitor::Pair;
use scheduler::{Core, Mask};
use std::fmt;

#[derive(Drop)]
pub struct Running {
    core: Core<Pair<Pair<Distance, Distance>, Distance>>,
    mask: Mask,
    spans: [Span; 64],
    finished: [Finished; 16],
    written: usize,
    ended: usize,
}

impl Running {
    pub fn new() -> Result<Running, Refusal> {
        let first = Pair::new(Distance::of(9000)?, Distance::of(9000)?);
        let monitor = Pair::new(first, Distance::of(9000)?);
        Ok(Running {
            core: Core::new(standard()?, monitor),
            mask: Mask::new(),
            spans: [Span::BLANK; 64],
            finished: [Finished::BLANK; 16],
            written: 0,
            ended: 0,
        })
    }

    pub fn raise(&mut self, line: u32, tag: u32) -> Result<(), Refusal> {
        self.core.raise(&self.mask, line, tag)?;
        Ok(())
    }

    pub fn advance(&mut self, ticks: u32) -> Result<(), Refusal> {
        let ran = self
            .core
            .advance(ticks, &mut self.spans, &mut self.finished)?;
        self.written = self.written.wrapping_add(ran.spans);
        self.ended = self.ended.wrapping_add(ran.finished);
        Ok(())
    }
}

// The instant reached, the spans and the finished events.
impl fmt::Display for Running {
    fn fmt<W: fmt::Write>(&self, f: &mut fmt::Formatter<W>) -> fmt::Result {
        let instant = self.core.instant();
        let (written, ended) = (self.written, self.ended);
        write!(f, "{instant} {written} {ended}")
    }
}

fn standard() -> Result<Board, Refusal> {
    Board::of(Layout {
        partitions: 3,
        slots: &[Slot::new(0, 6000), Slot::new(1, 6000), Slot::new(2, 2000)],
        lines: &[
            Line::new(0, 5, 40),
            Line::new(1, 5, 60),
            Line::new(2, 5, 80),
        ],
        overheads: Overheads::new(2, 3, 4),
    })
}
