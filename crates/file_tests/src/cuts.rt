//! The list of what a tape's cuts sent.

use crate::files::{list_of, timed};
use jm_book::Step;
use jm_smf::cut_list;
use std::alloc::Global;
use std::test::Fail;

/// A play of one note.
fn play(tick: u64, alloc: Global) -> Result<Step, Fail> {
    Ok(Step::Play {
        player: 0,
        command: timed(0, b"\x90\x3c\x64", alloc)?.command,
        tick,
    })
}

/// What was cut, and not what is pending; ticks never fall.
#[test]
fn cut_off(rt: HostRuntime) -> Result<(), Fail> {
    let tape = [
        Step::Enter,
        play(7, rt.alloc())?,
        Step::Cut { tick: 3 },
        play(2, rt.alloc())?,
        Step::Cut { tick: 9 },
        play(8, rt.alloc())?,
        Step::Cut { tick: 9 },
        play(11, rt.alloc())?,
    ];
    let expected = list_of(
        &[
            (7, b"\x90\x3c\x64"),
            (7, b"\x90\x3c\x64"),
            (9, b"\x90\x3c\x64"),
        ],
        rt.alloc(),
    )?;
    assert_eq!(rt; cut_list(&tape, rt.alloc()), Ok(expected));
    Ok(())
}

#[test]
fn nothing_cut(rt: HostRuntime) -> Result<(), Fail> {
    assert_eq!(rt; cut_list(&[], rt.alloc()), Ok(Vec::new(rt.alloc())));
    let tape = [Step::Enter, play(7, rt.alloc())?];
    assert_eq!(rt; cut_list(&tape, rt.alloc()), Ok(Vec::new(rt.alloc())));
    Ok(())
}
