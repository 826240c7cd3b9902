// Why a call is declined: one variant for each reason, with the place that it names.
ghost use Rattle.std.specs.Prelude.{◌≡◌};
ghost use Rattle.model.specs.Refusals.{number_of, place_of};

// A count of the board.
#[derive(Clone, Copy, PartialEq, Eq, Debug)]
pub enum Counted {
    Partitions,
    Slots,
    Lines,
}

// An overhead of the board.
#[derive(Clone, Copy, PartialEq, Eq, Debug)]
pub enum Overhead {
    Check,
    Reschedule,
    Switch,
}

#[derive(Clone, Copy, PartialEq, Eq, Debug)]
pub enum Refusal {
    // a count of the board is out of range
    Count(Counted),
    // this slot's owner or length is out of range
    SlotRange(u32),
    // this line's owner or one of its costs is out of range
    LineRange(u32),
    // this overhead is out of range
    OverheadRange(Overhead),
    // this number of a monitor's or a curve's setting is out of range
    Setting(u32),
    // there is no line or partition of this number
    NoSuch(u32),
    // this line is closed by the mask
    Masked(u32),
    // this partition's queue is full
    QueueFull(u32),
    // the clock's end is so many ticks away, fewer than asked for
    PastEnd(u32),
    // no window up to the whole clock holds the demand on this partition
    NoBound(u32),
}

impl Refusal {
    // The number by which the reason is known.
    pub fn number(&self) -> u8
        ensures { result ≡ number_of self.now }
    {
        match self {
            Refusal::Count(_) => 1,
            Refusal::SlotRange(_) => 2,
            Refusal::LineRange(_) => 3,
            Refusal::OverheadRange(_) => 4,
            Refusal::Setting(_) => 5,
            Refusal::NoSuch(_) => 6,
            Refusal::Masked(_) => 7,
            Refusal::QueueFull(_) => 8,
            Refusal::PastEnd(_) => 9,
            Refusal::NoBound(_) => 10,
        }
    }

    // The place that it names: which count, slot, line, overhead, number of a setting, partition or how many ticks.
    pub fn place(&self) -> u32
        ensures { result ≡ place_of self.now }
    {
        match self {
            Refusal::Count(Counted::Partitions) => 0,
            Refusal::Count(Counted::Slots) => 1,
            Refusal::Count(Counted::Lines) => 2,
            Refusal::OverheadRange(Overhead::Check) => 0,
            Refusal::OverheadRange(Overhead::Reschedule) => 1,
            Refusal::OverheadRange(Overhead::Switch) => 2,
            Refusal::SlotRange(place)
            | Refusal::LineRange(place)
            | Refusal::Setting(place)
            | Refusal::NoSuch(place)
            | Refusal::Masked(place)
            | Refusal::QueueFull(place)
            | Refusal::PastEnd(place)
            | Refusal::NoBound(place) => *place,
        }
    }
}
