// What a run of the scheduler is told in: events, spans of the tape, finished events and answers.
ghost use Rattle.std.specs.Prelude.{◌≡◌};
ghost use Rattle.model.specs.Seen.{row_of};
ghost use Rattle.model.specs.Tape.{span};

// A raised event that waits in its partition's queue.
#[derive(Clone, Copy, PartialEq, Eq, Debug, Default)]
pub struct Event {
    pub tag: u32,
    pub line: u8,
    pub raised: u32,
    pub left: u16,
}

// What a tick was spent on.
#[derive(Clone, Copy, PartialEq, Eq, Debug)]
pub enum Kind {
    // top handling, printed T
    Top,
    // rescheduling and context switches of a grant, printed X
    Switch,
    // the handler of a granted line, printed I
    Interposed,
    // a handler in its own partition's slot, printed B
    Bottom,
    // the slot owner's application, printed A
    Application,
}

// A tick of the tape: what it was spent on, for whom, in whose slot.
#[derive(Clone, Copy, PartialEq, Eq, Debug)]
pub struct Row {
    pub kind: Kind,
    pub who: u8,
    pub owner: u8,
}

// Neighbouring ticks of one advance, alike in kind, who and slot owner. These are fields of its own, as callers read them, and
// not a row in one.
#[derive(Clone, Copy, PartialEq, Eq, Debug)]
pub struct Span {
    pub first: u32,
    pub ticks: u32,
    pub kind: Kind,
    pub who: u8,
    pub owner: u8,
}

impl Span {
    // A place of a buffer that nothing was written to.
    pub const BLANK: Span = Span {
        first: 0,
        ticks: 0,
        kind: Kind::Application,
        who: 0,
        owner: 0,
    };

    // So many ticks of a row, from an instant.
    pub fn new(first: u32, ticks: u32, row: Row) -> Span
        ensures { result ≡ span first ticks row }
    {
        Span {
            first,
            ticks,
            kind: row.kind,
            who: row.who,
            owner: row.owner,
        }
    }

    // What each of its ticks was spent on.
    pub fn row(&self) -> Row
        ensures { result ≡ row_of self.now }
    {
        Row {
            kind: self.kind,
            who: self.who,
            owner: self.owner,
        }
    }
}

// An event whose handler has run to its end, and the instant after its last tick.
#[derive(Clone, Copy, PartialEq, Eq, Debug)]
pub struct Finished {
    pub tag: u32,
    pub line: u8,
    pub raised: u32,
    pub at: u32,
}

impl Finished {
    // A place of a buffer that nothing was written to.
    pub const BLANK: Finished = Finished {
        tag: 0,
        line: 0,
        raised: 0,
        at: 0,
    };
}

// What raising an event that is not refused answers.
#[derive(Clone, Copy, PartialEq, Eq, Debug)]
pub enum Answer {
    Permitted,
    Queued,
}

// What an advance answers: the ticks run, and the places written of each buffer.
#[derive(Clone, Copy, PartialEq, Eq, Debug)]
pub struct Ran {
    pub ticks: u32,
    pub spans: usize,
    pub finished: usize,
}
