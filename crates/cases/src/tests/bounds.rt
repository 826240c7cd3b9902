// The bounds of several boards, and the partitions that have none.
use super::given::{told, two};
use board::{Board, Layout};
use budget::Budget;
use curve::{Curve, Jitter, Sporadic, bound};
use distance::Distance;
use example::{board_k, curves_k, monitors_k};
use model::{Line, Overheads, Slot};
use monitor::{Joint, Monitor, Pair};
use std::process::Abort;
use std::test::Fail;
use trail::Trail;

// The bounds of partitions 0, 1 and so on, or the number and the place of the refusal.
fn check_bounds<M: Monitor, C: Curve>(
    rt: &impl Abort,
    board: &Board,
    monitor: &M,
    curve: &C,
    bounds: &[Result<u32, (u8, u32)>],
) {
    for (partition, expected) in (0..).zip(bounds) {
        assert_eq!(rt;
            told(bound(board, monitor, curve, partition)),
            *expected,
            "partition {partition}"
        );
    }
}

// The distances of the monitors and of the curves, and the bounds of the two partitions. Where every event may be granted,
// partition 1 has none; where events are too frequent, neither has.
const BOARD_K: [(u32, u32, u32, u32, [Result<u32, (u8, u32)>; 2]); 4] = [
    (100, 200, 100, 200, [Ok(40), Ok(62)]),
    (100, 200, 40, 50, [Ok(40), Ok(80)]),
    (1, 1, 40, 50, [Ok(40), Err((10, 1))]),
    (100, 200, 5, 200, [Err((10, 0)), Err((10, 1))]),
];

#[test]
fn bounds_of_board_k(rt: HostRuntime) -> Result<(), Fail> {
    let k = board_k();
    for (first, second, often, seldom, expected) in BOARD_K {
        let monitor = two(&Distance::of, first, second)?;
        let curve = two(&Sporadic::of, often, seldom)?;
        check_bounds(&rt, &k, &monitor, &curve, &expected);
        assert_eq!(rt; told(bound(&k, &monitor, &curve, 2)), Err((6, 2)));
        assert_eq!(rt; told(bound(&k, &monitor, &curve, 255)), Err((6, 255)));
    }
    check_bounds(
        &rt,
        &k,
        &Distance::of(100)?,
        &Sporadic::of(100)?,
        &[Ok(23), Ok(31)],
    );
    Ok(())
}

#[test]
fn bounds_by_kinds(rt: HostRuntime) -> Result<(), Fail> {
    let k = board_k();
    let curve = Pair::new(Jitter::of(60, 30)?, Sporadic::of(50)?);
    let mixed = Pair::new(Budget::of(1, 200)?, Trail::of(&[50, 400])?);
    check_bounds(&rt, &k, &mixed, &curve, &[Ok(74), Ok(142)]);
    let close = two(&Distance::of, 30, 30)?;
    check_bounds(&rt, &k, &close, &curve, &[Ok(74), Err((10, 1))]);
    let limited = Joint::new(close, Budget::of(1, 100)?);
    check_bounds(&rt, &k, &limited, &curve, &[Ok(74), Ok(268)]);
    Ok(())
}

#[test]
fn bounds_of_other_boards(rt: HostRuntime) -> Result<(), Fail> {
    let (k, monitor, curve) = (board_k(), monitors_k(), curves_k());
    check_bounds(&rt, &Board::new(), &monitor, &curve, &[Ok(1), Err((6, 1))]);
    // partition 2 owns no slot: only without lines has it a bound, the cycle
    let idle = Layout {
        partitions: 3,
        ..k.layout()
    };
    check_bounds(
        &rt,
        &Board::of(idle)?,
        &monitor,
        &curve,
        &[Ok(40), Ok(62), Err((10, 2)), Err((6, 3))],
    );
    let empty = Layout { lines: &[], ..idle };
    check_bounds(
        &rt,
        &Board::of(empty)?,
        &monitor,
        &curve,
        &[Ok(6), Ok(10), Ok(16), Err((6, 3))],
    );
    let standard = Layout {
        partitions: 3,
        slots: &[Slot::new(0, 6000), Slot::new(1, 6000), Slot::new(2, 2000)],
        lines: &[
            Line::new(0, 10, 200),
            Line::new(1, 20, 500),
            Line::new(2, 5, 100),
        ],
        overheads: Overheads::new(4, 30, 10),
    };
    let monitor = Pair::new(
        Distance::of(8000)?,
        Pair::new(Trail::of(&[3000, 14_000])?, Budget::of(1, 7000)?),
    );
    let curve = Pair::new(
        Sporadic::of(4000)?,
        Pair::new(Jitter::of(20_000, 5000)?, Sporadic::of(9000)?),
    );
    check_bounds(
        &rt,
        &Board::of(standard)?,
        &monitor,
        &curve,
        &[Ok(9634), Ok(9434), Ok(13_448), Err((6, 3))],
    );
    Ok(())
}
