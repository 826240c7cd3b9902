// The numbers of a board, as a caller lays them out.
use model::{Line, Overheads, Slot};

// How many partitions, the slots in the order of a cycle, the lines by their numbers, and the overheads.
#[derive(Clone, Copy, PartialEq, Eq, Debug)]
pub struct Layout<'a> {
    pub partitions: u8,
    pub slots: &'a [Slot],
    pub lines: &'a [Line],
    pub overheads: Overheads,
}
