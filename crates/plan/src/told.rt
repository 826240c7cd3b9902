// A refusal with its number, its place and its meaning in words.
use model::Refusal;
use std::fmt;

#[derive(Clone, Copy)]
pub struct Told(Refusal);

impl From<Refusal> for Told {
    fn from(refusal: Refusal) -> Told {
        Told(refusal)
    }
}

impl fmt::Display for Told {
    fn fmt<W: fmt::Write>(&self, f: &mut fmt::Formatter<W>) -> fmt::Result {
        let Told(refusal) = self;
        let meaning = meaning(refusal);
        write!(f, "{refusal}: {meaning}")
    }
}

// What this program prints beside the number and the place: the text of its `Display`, and of nothing else.
fn meaning(refusal: &Refusal) -> &'static str {
    match refusal {
        Refusal::Count(_) => "a count of the board is out of range",
        Refusal::SlotRange(_) => "a slot's owner or length is out of range",
        Refusal::LineRange(_) => "a line's owner or one of its costs is out of range",
        Refusal::OverheadRange(_) => "an overhead is out of range",
        Refusal::Setting(_) => "a number of a monitor's or a curve's setting is out of range",
        Refusal::NoSuch(_) => "there is no such line or partition",
        Refusal::Masked(_) => "the line is closed by the mask",
        Refusal::QueueFull(_) => "the partition's queue is full",
        Refusal::PastEnd(_) => "the ticks pass the clock's end",
        Refusal::NoBound(_) => "no window up to the clock's end meets the partition's bound",
    }
}
