// Monitors asked one instant after the other.
use budget::Budget;
use distance::Distance;
use monitor::{Joint, Monitor, Pair};
use std::process::Abort;
use std::test::Fail;
use trail::Trail;

// The clock's end, the instants before and past it, and the last that a caller can name.
const BEFORE: u32 = 3_999_999_999;

const END: u32 = 4_000_000_000;

const PAST: u32 = 4_000_000_001;

const LAST: u32 = u32::MAX;

// Asks for a line at an instant. The answer is as expected, and after a yes no earlier instant is ready.
fn check_one<M: Monitor>(rt: &impl Abort, monitor: &mut M, line: u32, at: u32, expected: bool) {
    let lines = monitor.lines();
    assert_eq!(rt; monitor.ready(line, at), expected, "line {line} at {at}");
    assert_eq!(rt; monitor.ask(line, at), expected, "line {line} at {at}");
    assert_eq!(rt; monitor.lines(), lines, "line {line} at {at}");
    if expected && at > 0 {
        assert!(rt; !monitor.ready(line, at - 1), "line {line} at {at}");
    }
}

// Asks in turn for a line at an instant, with the answer expected.
fn check_asked<M: Monitor>(rt: &impl Abort, monitor: &mut M, asked: &[(u32, u32, bool)]) {
    for (line, at, expected) in asked {
        check_one(rt, monitor, *line, *at, *expected);
    }
}

// Asks in turn for line 0 at these instants; the permits are those expected, in their order.
fn check_permits<M: Monitor>(rt: &impl Abort, monitor: &mut M, asked: &[u32], permits: &[u32]) {
    let mut permits = permits.iter().peekable();
    for at in asked {
        let expected = permits.next_if_eq(&at).is_some();
        check_one(rt, monitor, 1, *at, false);
        check_one(rt, monitor, 0, *at, expected);
    }
    assert!(rt; permits.next().is_none());
}

#[test]
fn distances_answer(rt: HostRuntime) -> Result<(), Fail> {
    let mut far = Distance::of(100)?;
    check_permits(
        &rt,
        &mut far,
        &[0, 0, 99, 100, 50, 250, 349, 350, BEFORE, END, PAST],
        &[0, 100, 250, 350, BEFORE],
    );
    let mut near = Distance::of(1)?;
    check_permits(
        &rt,
        &mut near,
        &[0, 0, 1, 2, 1, BEFORE, BEFORE, PAST, END, END, LAST],
        &[0, 1, 2, BEFORE, END],
    );
    Ok(())
}

#[test]
fn trails_answer(rt: HostRuntime) -> Result<(), Fail> {
    let mut two = Trail::of(&[10, 40])?;
    check_permits(
        &rt,
        &mut two,
        &[0, 9, 10, 39, 40, 49, 50, 60, 79, 80, 90, 89],
        &[0, 10, 40, 50, 80, 90],
    );
    check_permits(
        &rt,
        &mut two,
        &[200, 210, 239, 240, END, PAST],
        &[200, 210, 240, END],
    );
    let mut five = Trail::of(&[2, 5, 5, 20, 100])?;
    check_permits(
        &rt,
        &mut five,
        &[3, 4, 5, 8, 12, 13, 22, 23, 30, 102, 103, 104],
        &[3, 5, 8, 12, 23, 103],
    );
    check_permits(
        &rt,
        &mut five,
        &[105, 107, 108, 110, LAST, END, END],
        &[105, 108, END],
    );
    Ok(())
}

#[test]
fn budgets_answer(rt: HostRuntime) -> Result<(), Fail> {
    let mut one = Budget::of(1, 50)?;
    check_permits(
        &rt,
        &mut one,
        &[49, 50, 99, 49, 100, 149, 150, 249, 250, 251, 299, END],
        &[49, 50, 100, 150, 249, 250, END],
    );
    let mut three = Budget::of(3, 10)?;
    check_permits(
        &rt,
        &mut three,
        &[4, 4, 3, 9, 9, 0, 10, 9, 19, 19, 19, 18, 20],
        &[4, 4, 9, 10, 19, 19, 20],
    );
    check_permits(
        &rt,
        &mut three,
        &[BEFORE, END, END, END, END, PAST, LAST],
        &[BEFORE, END, END, END],
    );
    Ok(())
}

#[test]
fn joints_answer(rt: HostRuntime) -> Result<(), Fail> {
    // a no of the budget leaves the distance as it was
    let mut spent = Joint::new(Distance::of(30)?, Budget::of(1, 50)?);
    check_permits(
        &rt,
        &mut spent,
        &[0, 29, 30, 40, 49, 50, 80, 99, 100],
        &[0, 50, 100],
    );
    // a no of the distance leaves the budget as it was
    let mut close = Joint::new(Distance::of(60)?, Budget::of(1, 50)?);
    check_permits(
        &rt,
        &mut close,
        &[0, 50, 59, 60, 99, 119, 120, 149, 179, 180],
        &[0, 60, 120, 180],
    );
    // of the second only line 0 counts
    let mut deep = Joint::new(
        Joint::new(Distance::of(7)?, Trail::of(&[3, 50])?),
        Pair::new(Budget::of(2, 40)?, Distance::of(1_000_000)?),
    );
    check_permits(
        &rt,
        &mut deep,
        &[3, 9, 10, 17, 39, 40, 52, 53, 59, 60, 79, 80],
        &[3, 10, 53, 60],
    );
    check_permits(
        &rt,
        &mut deep,
        &[102, 103, 110, 119, 120, 152, 153, END, PAST],
        &[103, 110, 153, END],
    );
    Ok(())
}

// A distance of 10 limited by two permits in 50 is line 0, a trail of 5 and 30 line 1, a distance of 100 line 2.
const PAIR_OF_JOINT: [(u32, u32, bool); 33] = [
    (0, 0, true),
    (1, 0, true),
    (2, 0, true),
    (3, 0, false),
    (0, 9, false),
    (1, 5, true),
    (2, 5, false),
    (0, 10, true),
    (0, 20, false),
    (1, 29, false),
    (0, 49, false),
    (1, 30, true),
    (2, 99, false),
    (0, 50, true),
    (0, 50, false),
    (1, 35, true),
    (2, 100, true),
    (16, 100, false),
    (0, 60, true),
    (0, 70, false),
    (1, 65, true),
    (1, 59, false),
    (LAST, 70, false),
    (1, 60, false),
    (0, 100, true),
    (2, 199, false),
    (2, 200, true),
    (0, END, true),
    (1, PAST, false),
    (1, END, true),
    (2, LAST, false),
    (2, END, true),
    (0, END, false),
];

#[test]
fn pairs_of_joints_answer(rt: HostRuntime) -> Result<(), Fail> {
    let limited = Joint::new(Distance::of(10)?, Budget::of(2, 50)?);
    let mut monitor = Pair::new(limited, Pair::new(Trail::of(&[5, 30])?, Distance::of(100)?));
    assert_eq!(rt; monitor.lines(), 3);
    check_asked(&rt, &mut monitor, &PAIR_OF_JOINT);
    Ok(())
}

// A distance of 10 is line 0, a trail of 5 and 20 line 1, together limited by three permits in 100.
const JOINT_OF_PAIR: [(u32, u32, bool); 25] = [
    (0, 0, true),
    (1, 0, true),
    (2, 0, false),
    (1, 5, true),
    (0, 9, false),
    (0, 10, false),
    (1, 20, false),
    (1, 99, false),
    (0, 100, true),
    (0, 100, false),
    (1, 100, true),
    (1, 104, false),
    (1, 105, true),
    (0, 99, false),
    (0, 120, false),
    (1, 199, false),
    (1, 200, true),
    (0, 205, true),
    (0, 210, false),
    (2, 300, false),
    (1, 300, true),
    (0, BEFORE, true),
    (1, END, true),
    (0, END, false),
    (0, PAST, false),
];

#[test]
fn joints_of_pairs_answer(rt: HostRuntime) -> Result<(), Fail> {
    let mut monitor = Joint::new(
        Pair::new(Distance::of(10)?, Trail::of(&[5, 20])?),
        Budget::of(3, 100)?,
    );
    assert_eq!(rt; monitor.lines(), 2);
    check_asked(&rt, &mut monitor, &JOINT_OF_PAIR);
    Ok(())
}
