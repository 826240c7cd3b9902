// Sixteen lines by pairs of pairs, and a seventeenth that no pair has.
use super::given::{told, two};
use board::{Board, Layout};
use curve::{Curve, Sporadic, bound};
use distance::Distance;
use model::{Line, Overheads, Refusal, Slot};
use monitor::{Monitor, Pair};
use std::array;
use std::test::Fail;

type Four<T> = Pair<Pair<T, T>, Pair<T, T>>;

// Four of a kind, set alike.
fn four<T: Drop, F: Fn(u32) -> Result<T, Refusal>>(of: &F, ticks: u32) -> Result<Four<T>, Refusal>
    requires { F.IsAlwaysCallable of.now }
{
    Ok(Pair::new(two(of, ticks, ticks)?, two(of, ticks, ticks)?))
}

// Eight of a kind, four set to the first number and four to the second.
fn eight<T: Drop, F: Fn(u32) -> Result<T, Refusal>>(
    of: &F,
    first: u32,
    second: u32,
) -> Result<Pair<Four<T>, Four<T>>, Refusal>
    requires { F.IsAlwaysCallable of.now }
{
    Ok(Pair::new(four(of, first)?, four(of, second)?))
}

// Eight partitions of two slots and two lines each.
fn full_board() -> Result<Board, Refusal> {
    let slots: [Slot; 16] = array::from_fn(|i| Slot::new((i % 8) as u8, 100 * (i as u32 + 1)));
    let lines: [Line; 16] = array::from_fn(|i| Line::new(
        (i % 8) as u8,
        1 + i as u16,
        10 + 3 * i as u16,
    ));
    Board::of(Layout {
        partitions: 8,
        slots: &slots,
        lines: &lines,
        overheads: Overheads::new(2, 3, 4),
    })
}

#[test]
fn pairs_have_sixteen_lines(rt: HostRuntime) -> Result<(), Fail> {
    let all = Pair::new(eight(&Distance::of, 10, 20)?, eight(&Distance::of, 30, 40)?);
    assert_eq!(rt; all.lines(), 16);
    let mut shifted = Pair::new(Distance::of(5)?, all);
    assert_eq!(rt; shifted.lines(), 16);
    // lines 1 to 4 have distance 10, up to lines 13 to 15, which have 40
    for line in 1..16 {
        let ticks = 10 * ((line - 1) / 4 + 1);
        assert_eq!(rt; shifted.ceiling(line, u64::from(ticks)), 1);
        assert_eq!(rt; shifted.ceiling(line, u64::from(ticks) + 1), 2);
        assert!(rt; shifted.ask(line, line));
        assert!(rt; !shifted.ask(line, line + ticks - 1));
        assert!(rt; shifted.ask(line, line + ticks), "line {line}");
    }
    assert!(rt; shifted.ask(0, 0) && shifted.ask(0, 5));
    for line in [16, 17, 4_294_967_295] {
        assert!(rt; !shifted.ready(line, 100) && !shifted.ask(line, 100));
        assert_eq!(rt; shifted.ceiling(line, 100), 0);
    }
    Ok(())
}

#[test]
fn bounds_of_sixteen_lines(rt: HostRuntime) -> Result<(), Fail> {
    let board = full_board()?;
    let low = eight(&Distance::of, 20_000, 20_000)?;
    let monitor = Pair::new(low, eight(&Distance::of, 30_000, 30_000)?);
    let often = eight(&Sporadic::of, 9000, 9000)?;
    let curve = Pair::new(often, eight(&Sporadic::of, 10_000, 10_000)?);
    assert_eq!(rt; curve.lines(), 16);
    assert_eq!(rt; curve.most(16, 100), 0);
    let expected = [
        26_730, 13_482, 13_288, 13_094, 12_900, 12_706, 12_512, 12_318,
    ];
    for (partition, expected) in (0..).zip(expected) {
        let found = told(bound(&board, &monitor, &curve, partition));
        assert_eq!(rt; found, Ok(expected));
    }
    assert_eq!(rt; told(bound(&board, &monitor, &curve, 8)), Err((6, 8)));
    Ok(())
}
