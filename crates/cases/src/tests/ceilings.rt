// Ceilings and curves in windows of no ticks, of one, at the ends of their settings and longer than the clock.
use budget::Budget;
use curve::{Curve, Jitter, Sporadic};
use distance::Distance;
use monitor::{Joint, Monitor, Pair};
use std::process::Abort;
use std::test::Fail;
use trail::Trail;

// A thousand million, as many as the clock has instants, and the longest that a caller can name.
const BILLION: u64 = 1_000_000_000;

const WHOLE: u64 = 4_000_000_001;

const LONG: u64 = u64::MAX;

// What `of` answers for a line, by windows each with the answer expected; a line past the last has nothing.
fn check_windows<F: Fn(u32, u64) -> u64>(
    rt: &impl Abort,
    of: F,
    lines: u32,
    line: u32,
    expected: &[(u64, u64)],
)
    requires { F.IsAlwaysCallable of }
{
    for (window, expected) in expected {
        assert_eq!(rt; of(line, *window), *expected, "line {line} in {window}");
        assert_eq!(rt; of(lines, *window), 0);
        assert_eq!(rt; of(16, *window), 0);
    }
}

fn check_ceilings<M: Monitor>(rt: &impl Abort, monitor: &M, line: u32, ceilings: &[(u64, u64)]) {
    let ceiling = |line, window| monitor.ceiling(line, window);
    check_windows(rt, ceiling, monitor.lines(), line, ceilings);
}

fn check_most<C: Curve>(rt: &impl Abort, curve: &C, line: u32, most: &[(u64, u64)]) {
    let most_in = |line, window| curve.most(line, window);
    check_windows(rt, most_in, curve.lines(), line, most);
}

#[test]
fn ceilings_of_distances_and_trails(rt: HostRuntime) -> Result<(), Fail> {
    let near = Distance::of(1)?;
    check_ceilings(
        &rt,
        &near,
        0,
        &[
            (0, 0),
            (1, 1),
            (2, 2),
            (WHOLE, WHOLE),
            (4_000_000_002, WHOLE),
            (LONG, WHOLE),
        ],
    );
    let far = Distance::of(1_000_000_000)?;
    check_ceilings(
        &rt,
        &far,
        0,
        &[
            (0, 0),
            (1, 1),
            (BILLION, 1),
            (1_000_000_001, 2),
            (WHOLE, 5),
            (LONG, 5),
        ],
    );
    let two = Trail::of(&[10, 40])?;
    check_ceilings(
        &rt,
        &two,
        0,
        &[
            (0, 0),
            (1, 1),
            (10, 1),
            (11, 2),
            (40, 2),
            (41, 4),
            (80, 4),
            (81, 6),
            (WHOLE, 200_000_002),
            (LONG, 200_000_002),
        ],
    );
    let five = Trail::of(&[2, 5, 5, 20, 100])?;
    check_ceilings(
        &rt,
        &five,
        0,
        &[
            (0, 0),
            (1, 1),
            (2, 1),
            (3, 2),
            (5, 2),
            (6, 3),
            (20, 4),
            (100, 5),
            (101, 10),
            (1000, 50),
            (LONG, 200_000_005),
        ],
    );
    Ok(())
}

#[test]
fn ceilings_of_budgets(rt: HostRuntime) -> Result<(), Fail> {
    let many = Budget::of(64, 1)?;
    check_ceilings(
        &rt,
        &many,
        0,
        &[
            (0, 0),
            (1, 64),
            (2, 128),
            (3, 192),
            (WHOLE, 256_000_000_064),
            (LONG, 256_000_000_064),
        ],
    );
    let slow = Budget::of(64, 1_000_000_000)?;
    check_ceilings(
        &rt,
        &slow,
        0,
        &[
            (0, 0),
            (1, 64),
            (2, 128),
            (1_000_000_001, 128),
            (1_000_000_002, 192),
            (LONG, 320),
        ],
    );
    let one = Budget::of(1, 50)?;
    check_ceilings(
        &rt,
        &one,
        0,
        &[
            (0, 0),
            (1, 1),
            (2, 2),
            (51, 2),
            (52, 3),
            (WHOLE, 80_000_001),
            (LONG, 80_000_001),
        ],
    );
    Ok(())
}

#[test]
fn ceilings_of_pairs_and_joints(rt: HostRuntime) -> Result<(), Fail> {
    let limited = Joint::new(Distance::of(10)?, Budget::of(2, 50)?);
    let pair = Pair::new(limited, Pair::new(Trail::of(&[5, 30])?, Distance::of(100)?));
    check_ceilings(
        &rt,
        &pair,
        0,
        &[
            (0, 0),
            (1, 1),
            (11, 2),
            (31, 4),
            (60, 6),
            (61, 6),
            (1000, 42),
            (LONG, 160_000_002),
        ],
    );
    check_ceilings(
        &rt,
        &pair,
        1,
        &[
            (0, 0),
            (1, 1),
            (6, 2),
            (30, 2),
            (31, 4),
            (LONG, 266_666_668),
        ],
    );
    check_ceilings(
        &rt,
        &pair,
        2,
        &[(0, 0), (1, 1), (100, 1), (101, 2), (LONG, 40_000_001)],
    );
    check_ceilings(&rt, &pair, 15, &[(1, 0), (WHOLE, 0), (LONG, 0)]);
    let joint = Joint::new(
        Pair::new(Distance::of(10)?, Trail::of(&[5, 20])?),
        Budget::of(3, 100)?,
    );
    check_ceilings(
        &rt,
        &joint,
        0,
        &[
            (0, 0),
            (1, 1),
            (10, 1),
            (70, 6),
            (500, 18),
            (LONG, 120_000_003),
        ],
    );
    check_ceilings(
        &rt,
        &joint,
        1,
        &[
            (0, 0),
            (1, 1),
            (5, 1),
            (20, 2),
            (21, 4),
            (1000, 33),
            (LONG, 120_000_003),
        ],
    );
    Ok(())
}

#[test]
fn curves_of_single_lines(rt: HostRuntime) -> Result<(), Fail> {
    let dense = Sporadic::of(1)?;
    check_most(
        &rt,
        &dense,
        0,
        &[(0, 0), (1, 1), (2, 2), (WHOLE, WHOLE), (LONG, WHOLE)],
    );
    let rare = Sporadic::of(1_000_000_000)?;
    check_most(
        &rt,
        &rare,
        0,
        &[
            (0, 0),
            (1, 1),
            (BILLION, 1),
            (1_000_000_001, 2),
            (WHOLE, 5),
            (LONG, 5),
        ],
    );
    let late = Jitter::of(50, 10)?;
    check_most(
        &rt,
        &late,
        0,
        &[
            (0, 0),
            (1, 1),
            (40, 1),
            (41, 2),
            (90, 2),
            (91, 3),
            (LONG, 80_000_001),
        ],
    );
    let burst = Jitter::of(1, 1_000_000_000)?;
    check_most(
        &rt,
        &burst,
        0,
        &[
            (0, 0),
            (1, 1_000_000_001),
            (WHOLE, 5_000_000_001),
            (LONG, 5_000_000_001),
        ],
    );
    let slow = Jitter::of(1_000_000_000, 1_000_000_000)?;
    check_most(
        &rt,
        &slow,
        0,
        &[(0, 0), (1, 2), (BILLION, 2), (1_000_000_001, 3), (LONG, 6)],
    );
    Ok(())
}

#[test]
fn curves_of_pairs(rt: HostRuntime) -> Result<(), Fail> {
    let pair = Pair::new(
        Sporadic::of(100)?,
        Pair::new(Jitter::of(50, 10)?, Sporadic::of(7)?),
    );
    assert_eq!(rt; pair.lines(), 3);
    check_most(&rt, &pair, 0, &[(0, 0), (1, 1), (100, 1), (101, 2)]);
    check_most(&rt, &pair, 1, &[(0, 0), (1, 1), (40, 1), (41, 2)]);
    check_most(
        &rt,
        &pair,
        2,
        &[(0, 0), (7, 1), (8, 2), (WHOLE, 571_428_572)],
    );
    check_most(&rt, &pair, 15, &[(1, 0), (LONG, 0)]);
    Ok(())
}
