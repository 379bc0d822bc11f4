//! Blocks as a reader of a report sees them.
use super::{Traffic, field_text, summary_text, traffic_text};
use peano_keys::{CellKey, Dim, State};
use spacetree::Row;
use std::test::Fail;

fn row(level: u32, x: [u32; 3], value: State) -> Row {
    Row {
        key: CellKey { level, x },
        value,
    }
}

#[test]
fn prints_each_form_of_block(rt: HostRuntime) -> Result<(), Fail> {
    let scalars = [
        row(1, [0, 1, 0], State::one(-10)),
        row(1, [2, 0, 0], State::one(i64::MIN)),
    ];
    let waves = [row(1, [1, 1, 0], State::two(60, -40))];
    let space = [row(12, [531_440, 0, 7], State::one(240))];
    let blocks = [
        (
            Dim::Two,
            3,
            &scalars[..],
            "step 3 leaves 2\n1 0 1 -10\n1 2 0 -9223372036854775808\n",
        ),
        (Dim::Two, 0, &waves[..], "step 0 leaves 1\n1 1 1 60 -40\n"),
        (
            Dim::Three,
            10_000,
            &space[..],
            "step 10000 leaves 1\n12 531440 0 7 240\n",
        ),
        (Dim::Two, 1, &[][..], "step 1 leaves 0\n"),
    ];
    for (dim, step, rows, want) in blocks {
        let text = field_text(rt.alloc(), dim, step, rows)?;
        assert_eq!(rt; text.as_slice(), want.as_bytes());
    }
    Ok(())
}

#[test]
fn prints_trees_and_summaries(rt: HostRuntime) -> Result<(), Fail> {
    let alloc = rt.alloc();
    let trees = [
        Traffic {
            tree: 0,
            cells: 14,
            stored: 23,
            pushes: 22,
            hanging: 11,
            enclave: 4,
            skeleton: 8,
            sent: 9,
        },
        Traffic {
            tree: 1,
            cells: 15,
            stored: 19,
            pushes: 21,
            hanging: 20,
            enclave: 1,
            skeleton: 12,
            sent: 9,
        },
    ];
    let want =
        "traffic 2 trees 2\ntree 0 cells 14 stored 23 pushes 22 hanging 11 enclave 4 skeleton 8 sent 9\ntree 1 cells 15 stored 19 pushes 21 hanging 20 enclave 1 skeleton 12 sent 9\n";
    assert_eq!(rt; traffic_text(alloc, 2, &trees)?.as_slice(), want.as_bytes());
    let rows = [
        row(1, [0, 1, 0], State::two(-10, 99)),
        row(2, [2, 0, 0], State::two(7, -99)),
        row(2, [2, 1, 0], State::two(3, 0)),
    ];
    let want =
        "demo 18446744073709551615\nsteps 20\ncells 19\nleaves 3\nlow -10\nhigh 7\nlevel 0 leaves 0\nlevel 1 leaves 1\nlevel 2 leaves 2\nlevel 3 leaves 0\nlevel 4 leaves 0\nlevel 5 leaves 0\n";
    assert_eq!(rt;
        summary_text(alloc, u64::MAX, &rows, 19)?.as_slice(),
        want.as_bytes()
    );
    Ok(())
}
