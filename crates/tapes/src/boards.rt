// The boards of the runs.
use board::{Board, Layout};
use model::{Line, Overheads, Refusal, Slot};

pub fn three() -> Result<Board, Refusal> {
    Board::of(Layout {
        partitions: 3,
        slots: &[Slot::new(0, 60), Slot::new(1, 60), Slot::new(2, 20)],
        lines: &[
            Line::new(0, 1, 9),
            Line::new(1, 3, 5),
            Line::new(2, 2, 14),
            Line::new(2, 1, 1),
        ],
        overheads: Overheads::new(2, 0, 3),
    })
}

pub fn single() -> Result<Board, Refusal> {
    Board::of(Layout {
        partitions: 1,
        slots: &[Slot::new(0, 7)],
        lines: &[Line::new(0, 1, 6), Line::new(0, 4, 2)],
        overheads: Overheads::new(5, 6, 7),
    })
}

pub fn eight() -> Result<Board, Refusal> {
    Board::of(Layout {
        partitions: 8,
        slots: &[
            Slot::new(0, 31),
            Slot::new(1, 1),
            Slot::new(2, 17),
            Slot::new(2, 5),
            Slot::new(3, 40),
            Slot::new(0, 2),
            Slot::new(4, 23),
            Slot::new(5, 8),
        ],
        lines: &[
            Line::new(0, 1, 3),
            Line::new(1, 2, 1),
            Line::new(2, 1, 7),
            Line::new(3, 1, 2),
            Line::new(4, 3, 4),
            Line::new(5, 1, 12),
            Line::new(6, 1, 5),
            Line::new(7, 2, 6),
            Line::new(7, 1, 1),
            Line::new(6, 1, 9),
            Line::new(5, 1, 2),
            Line::new(4, 2, 8),
            Line::new(3, 1, 1),
            Line::new(2, 1, 3),
            Line::new(1, 1, 4),
            Line::new(0, 1, 10),
        ],
        overheads: Overheads::new(1, 2, 0),
    })
}

pub fn long() -> Result<Board, Refusal> {
    Board::of(Layout {
        partitions: 2,
        slots: &[Slot::new(0, 1_000_000), Slot::new(1, 1_000_000)],
        lines: &[Line::new(0, 5, 40), Line::new(1, 2, 25)],
        overheads: Overheads::new(3, 2, 4),
    })
}
