// The settings of every monitor and curve at both ends of their ranges; after a refusal each answers as before.
use super::given::told;
use budget::Budget;
use curve::{Curve, Jitter, Sporadic};
use distance::Distance;
use monitor::Monitor;
use std::test::Fail;
use trail::Trail;

// Ticks that a distance of 7 is set to, and whether they are in range.
const DISTANCES: [(u32, bool); 5] = [
    (0, false),
    (1, true),
    (1_000_000_000, true),
    (1_000_000_001, false),
    (4_294_967_295, false),
];

#[test]
fn distances_have_ends(rt: HostRuntime) -> Result<(), Fail> {
    for (ticks, fits) in DISTANCES {
        let expected = if fits { Ok(()) } else { Err((5, 0)) };
        let length = u64::from(if fits { ticks } else { 7 });
        let mut monitor = Distance::of(7)?;
        assert!(rt; monitor.ask(0, 5));
        assert_eq!(rt; told(monitor.set(ticks)), expected);
        assert_eq!(rt; monitor.ready(0, 5), fits);
        assert_eq!(rt; monitor.ready(0, 11), fits);
        assert!(rt; monitor.ready(0, 12));
        assert_eq!(rt; monitor.ceiling(0, length), 1);
        assert_eq!(rt; monitor.ceiling(0, length + 1), 2);
        let mut curve = Sporadic::of(7)?;
        assert_eq!(rt; told(curve.set(ticks)), expected);
        assert_eq!(rt; curve.most(0, length), 1);
        assert_eq!(rt; curve.most(0, length + 1), 2, "{ticks} ticks");
    }
    Ok(())
}

// Permits and period that a budget of 2 in 10 is set to.
const BUDGETS: [(u32, u32, Result<(), (u8, u32)>); 10] = [
    (0, 1, Err((5, 0))),
    (1, 1, Ok(())),
    (64, 1_000_000_000, Ok(())),
    (65, 1, Err((5, 0))),
    (257, 1, Err((5, 0))),
    (4_294_967_295, 0, Err((5, 0))),
    (0, 1_000_000_001, Err((5, 0))),
    (1, 0, Err((5, 1))),
    (64, 1_000_000_001, Err((5, 1))),
    (1, 4_294_967_295, Err((5, 1))),
];

#[test]
fn budgets_have_ends(rt: HostRuntime) -> Result<(), Fail> {
    for (permits, period, expected) in BUDGETS {
        let mut monitor = Budget::of(2, 10)?;
        assert!(rt; monitor.ask(0, 13) && monitor.ask(0, 13));
        let answer = told(monitor.set(permits, period));
        assert_eq!(rt; answer, expected, "{permits} per {period}");
        let most = if answer.is_ok() { permits } else { 2 };
        assert_eq!(rt; monitor.ceiling(0, 1), u64::from(most));
        assert_eq!(rt; monitor.ready(0, 0), answer.is_ok());
        assert_eq!(rt; monitor.ready(0, 19), answer.is_ok());
        assert!(rt; monitor.ready(0, 20));
    }
    Ok(())
}

// Distances that a trail of 10 and 40 is set to.
const TRAILS: [(&[u32], Result<(), (u8, u32)>); 22] = [
    (&[], Err((5, 0))),
    (&[1], Ok(())),
    (&[1_000_000_000], Ok(())),
    (&[1, 1, 1, 1, 1], Ok(())),
    (&[1, 2, 3, 4, 1_000_000_000], Ok(())),
    (&[1, 1, 1, 1, 1, 1], Err((5, 0))),
    (&[0, 0, 0, 0, 0, 0], Err((5, 0))),
    (&[0], Err((5, 1))),
    (&[1_000_000_001], Err((5, 1))),
    (&[0, 0], Err((5, 1))),
    (&[1, 0], Err((5, 2))),
    (&[5, 4], Err((5, 2))),
    (&[5, 4, 3, 2, 1], Err((5, 2))),
    (&[5, 1_000_000_001, 0], Err((5, 2))),
    (&[5, 5, 4], Err((5, 3))),
    (&[5, 6, 5, 4], Err((5, 3))),
    (&[5, 5, 1_000_000_001], Err((5, 3))),
    (&[5, 5, 5, 4], Err((5, 4))),
    (&[5, 5, 5, 1_000_000_001, 1], Err((5, 4))),
    (&[5, 5, 5, 5, 4], Err((5, 5))),
    (&[1, 2, 3, 4, 0], Err((5, 5))),
    (&[1, 2, 3, 4, 4_294_967_295], Err((5, 5))),
];

#[test]
fn trails_have_ends(rt: HostRuntime) -> Result<(), Fail> {
    for (distances, expected) in TRAILS {
        let mut monitor = Trail::of(&[10, 40])?;
        assert!(rt; monitor.ask(0, 0) && monitor.ask(0, 10));
        let answer = told(monitor.set(distances));
        assert_eq!(rt; answer, expected, "{distances:?}");
        assert_eq!(rt; monitor.ready(0, 10), answer.is_ok());
        assert_eq!(rt; monitor.ready(0, 39), answer.is_ok());
        assert!(rt; monitor.ready(0, 40));
        if answer.is_err() {
            assert_eq!(rt; monitor.ceiling(0, 40), 2);
        }
    }
    Ok(())
}

// Period and jitter that a curve of 50 and 10 is set to; the most events in 40 and in 41 ticks after that.
const JITTERS: [(u32, u32, Result<(), (u8, u32)>, u64, u64); 8] = [
    (0, 0, Err((5, 0)), 1, 2),
    (1, 0, Ok(()), 40, 41),
    (1, 1_000_000_000, Ok(()), 1_000_000_040, 1_000_000_041),
    (1_000_000_000, 1_000_000_000, Ok(()), 2, 2),
    (1_000_000_001, 0, Err((5, 0)), 1, 2),
    (0, 1_000_000_001, Err((5, 0)), 1, 2),
    (1, 1_000_000_001, Err((5, 1)), 1, 2),
    (1_000_000_000, 4_294_967_295, Err((5, 1)), 1, 2),
];

#[test]
fn jitters_have_ends(rt: HostRuntime) -> Result<(), Fail> {
    for (period, late, expected, at_40, at_41) in JITTERS {
        let mut curve = Jitter::of(50, 10)?;
        assert_eq!(rt; told(curve.set(period, late)), expected);
        assert_eq!(rt; curve.most(0, 0), 0);
        assert_eq!(rt; curve.most(0, 40), at_40);
        assert_eq!(rt; curve.most(0, 41), at_41, "{period}, late by {late}");
    }
    Ok(())
}
