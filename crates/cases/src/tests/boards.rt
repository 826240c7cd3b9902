// Boards at both ends of every range, and what comes first where several numbers are wrong.
use super::given::told;
use board::{Board, Layout};
use example::board_k;
use model::{Line, Overheads, Slot};
use std::array;
use std::process::Abort;

// What a new board holds.
const LEAST: Layout<'static> = Layout {
    partitions: 1,
    slots: &[Slot { owner: 0, ticks: 1 }],
    lines: &[],
    overheads: Overheads {
        check: 0,
        reschedule: 0,
        switch: 0,
    },
};

// The layout that a board tells is this one, whole and part by part.
fn check_holds(rt: &impl Abort, board: &Board, layout: Layout) {
    assert_eq!(rt; board.layout(), layout);
    let parts = Layout {
        partitions: board.partitions(),
        slots: board.slots(),
        lines: board.lines(),
        overheads: board.overheads(),
    };
    assert_eq!(rt; parts, layout);
}

// Fills board K anew: it is replaced where no refusal is expected, and else it is as before.
fn refill(rt: &impl Abort, layout: Layout, expected: Result<(), (u8, u32)>) {
    let mut board = board_k();
    let answer = told(board.fill(layout));
    assert_eq!(rt; answer, expected, "{layout:?}");
    if answer.is_ok() {
        check_holds(rt, &board, layout);
    } else {
        check_holds(rt, &board, board_k().layout());
        assert_eq!(rt; board.cycle(), 16);
    }
}

// Partitions, slots and lines.
const COUNTS: [(u8, usize, usize, Result<(), (u8, u32)>); 14] = [
    (0, 1, 0, Err((1, 0))),
    (1, 1, 0, Ok(())),
    (8, 1, 0, Ok(())),
    (9, 1, 0, Err((1, 0))),
    (255, 1, 0, Err((1, 0))),
    (1, 0, 0, Err((1, 1))),
    (1, 16, 0, Ok(())),
    (1, 17, 0, Err((1, 1))),
    (1, 1, 1, Ok(())),
    (8, 16, 16, Ok(())),
    (1, 1, 17, Err((1, 2))),
    (0, 17, 17, Err((1, 0))),
    (9, 0, 17, Err((1, 0))),
    (8, 0, 17, Err((1, 1))),
];

#[test]
fn counts_have_ends(rt: HostRuntime) {
    let slots = [Slot::new(0, 1); 17];
    let lines = [Line::new(0, 1, 1); 17];
    for (partitions, slot_count, line_count, expected) in COUNTS {
        assert!(rt; slot_count <= 17 && line_count <= 17);
        let layout = Layout {
            partitions,
            slots: &slots[..slot_count],
            lines: &lines[..line_count],
            ..LEAST
        };
        refill(&rt, layout, expected);
    }
}

// A board of three partitions.
const THREE: Layout<'static> = Layout {
    partitions: 3,
    ..LEAST
};

// Fifteen usual ones, and another at this place.
fn among<T: Copy>(usual: T, other: T, place: u32) -> [T; 16] {
    array::from_fn(|i| if i == place as usize { other } else { usual })
}

// Owner and length, on a board of three partitions, and whether they fit.
const SLOTS: [(u8, u32, bool); 8] = [
    (0, 1, true),
    (2, 1_000_000, true),
    (3, 1, false),
    (255, 1, false),
    (0, 0, false),
    (0, 1_000_001, false),
    (2, 4_294_967_295, false),
    (3, 0, false),
];

// Not one function with lines_have_ends: it takes the layout by a closure, and with one the proof of its loop stays open.
#[test]
fn slots_have_ends(rt: HostRuntime) {
    // a place by its number: the refusal that is expected names it
    for place in 0..16 {
        for (owner, ticks, fits) in SLOTS {
            let slots = &among(Slot::new(1, 7), Slot::new(owner, ticks), place);
            let expected = if fits { Ok(()) } else { Err((2, place)) };
            refill(&rt, Layout { slots, ..THREE }, expected);
        }
    }
}

// Owner, top cost and handler cost, on a board of three partitions, and whether they fit.
const LINES: [(u8, u16, u16, bool); 10] = [
    (0, 1, 1, true),
    (2, 1000, 10_000, true),
    (3, 1, 1, false),
    (255, 1, 1, false),
    (0, 0, 1, false),
    (0, 1001, 1, false),
    (0, 65_535, 1, false),
    (0, 1, 0, false),
    (0, 1, 10_001, false),
    (0, 1, 65_535, false),
];

#[test]
fn lines_have_ends(rt: HostRuntime) {
    // a place by its number: the refusal that is expected names it
    for place in 0..16 {
        for (owner, top, handler, fits) in LINES {
            let lines = &among(Line::new(1, 2, 3), Line::new(owner, top, handler), place);
            let expected = if fits { Ok(()) } else { Err((3, place)) };
            refill(&rt, Layout { lines, ..THREE }, expected);
        }
    }
}

// Check, reschedule and switch.
const OVERHEADS: [(u16, u16, u16, Result<(), (u8, u32)>); 8] = [
    (0, 0, 0, Ok(())),
    (1000, 1000, 1000, Ok(())),
    (1001, 0, 0, Err((4, 0))),
    (0, 1001, 0, Err((4, 1))),
    (0, 0, 1001, Err((4, 2))),
    (65_535, 1001, 1001, Err((4, 0))),
    (1000, 65_535, 1001, Err((4, 1))),
    (1000, 1000, 65_535, Err((4, 2))),
];

#[test]
fn overheads_have_ends(rt: HostRuntime) {
    for (check, reschedule, switch, expected) in OVERHEADS {
        let layout = Layout {
            overheads: Overheads::new(check, reschedule, switch),
            ..LEAST
        };
        refill(&rt, layout, expected);
    }
}

#[test]
fn lower_numbers_come_first(rt: HostRuntime) {
    let slots = [Slot::new(0, 1), Slot::new(9, 1), Slot::new(0, 0)];
    let lines = [
        Line::new(0, 1, 1),
        Line::new(0, 1, 1),
        Line::new(9, 0, 0),
        Line::new(0, 0, 1),
    ];
    let all = Layout {
        partitions: 0,
        slots: &slots,
        lines: &lines,
        overheads: Overheads::new(0, 1001, 1001),
    };
    refill(&rt, all, Err((1, 0)));
    let none = Layout { slots: &[], ..all };
    refill(
        &rt,
        Layout {
            partitions: 9,
            ..none
        },
        Err((1, 0)),
    );
    refill(
        &rt,
        Layout {
            partitions: 8,
            ..none
        },
        Err((1, 1)),
    );
    let eight = Layout {
        partitions: 8,
        ..all
    };
    refill(&rt, eight, Err((2, 1)));
    let one = Layout {
        slots: &slots[..1],
        ..eight
    };
    refill(&rt, one, Err((3, 2)));
    let few = Layout {
        lines: &lines[..2],
        ..one
    };
    refill(&rt, few, Err((4, 1)));
    let cheap = Layout {
        overheads: Overheads::new(0, 0, 0),
        ..few
    };
    refill(&rt, cheap, Ok(()));
}

#[test]
fn boards_answer(rt: HostRuntime) {
    let board = board_k();
    for (partition, own) in [
        (0, Ok(10)),
        (1, Ok(6)),
        (2, Err((6, 2))),
        (255, Err((6, 255))),
    ] {
        assert_eq!(rt; told(board.own(partition)), own);
    }
    for (line, cost) in [
        (0, Ok(8)),
        (1, Ok(9)),
        (2, Err((6, 2))),
        (4_294_967_295, Err((6, 4_294_967_295))),
    ] {
        assert_eq!(rt; told(board.full_cost(line)), cost);
    }
    for (at, owner) in [
        (0, 0),
        (9, 0),
        (10, 1),
        (15, 1),
        (16, 0),
        (4_000_000_000, 0),
        (4_294_967_295, 1),
    ] {
        assert_eq!(rt; board.owner_at(at), owner, "at {at}");
    }
    let new = Board::new();
    check_holds(&rt, &new, LEAST);
    assert_eq!(rt; told(new.own(0)), Ok(1));
    assert_eq!(rt; told(new.own(1)), Err((6, 1)));
    assert_eq!(rt; told(new.full_cost(0)), Err((6, 0)));
    assert_eq!(rt; new.cycle(), 1);
}
