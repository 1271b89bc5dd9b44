// What the caller does at the desk before the workers begin, and when they have ended.
ghost use Rattle.std.specs.Prelude.{◌≡◌, length};
ghost use Rattle.jm_desk.specs.Sharing.{IsOf};
ghost use Rattle.jm_jam.specs.Workers.{Worked};
ghost use Rattle.jm_jam.specs.Whole.{Enters, JoinsBoth, Opens, CutsLast};

use jm_book::AddrList;
use jm_desk::{Desk, Pass};
use jm_wire::Octets;
use std::alloc::Global;
use std::sync::Wait;

// So many players enter. It says whether there was memory for all.
fn enter_all<R: Wait>(rt: &R, desk: &Desk, pass: &mut Pass, count: u32) -> bool
    requires { IsOf desk.now pass.old }
    ensures own { IsOf desk.now pass.new }
    ensures worked { Worked (Enters count) result pass.old pass.new }
{
    for _entered in 0..count {
        match desk.enter(rt, pass) {
            Err(_) => return false,
            Ok(_turn) => {}
        }
    }
    true
}

// Two participants join.
fn join_both<R: Wait>(rt: &R, desk: &Desk, pass: &mut Pass) -> bool
    requires { IsOf desk.now pass.old }
    ensures own { IsOf desk.now pass.new }
    ensures worked { Worked JoinsBoth result pass.old pass.new }
{
    match desk.join(rt, pass, 1) {
        Err(_) => false,
        Ok(_turn) => match desk.join(rt, pass, 2) {
            Err(_) => false,
            Ok(_second) => true,
        },
    }
}

// Four players enter, and two participants join.
pub(crate) fn open_all<R: Wait>(rt: &R, desk: &Desk, pass: &mut Pass) -> bool
    requires { IsOf desk.now pass.old }
    ensures own { IsOf desk.now pass.new }
    ensures worked { Worked Opens result pass.old pass.new }
{
    if !enter_all(rt, desk, pass, 4) {
        return false;
    }
    join_both(rt, desk, pass)
}

// Cuts once, behind so many steps.
pub(crate) fn cut_last<R: Wait>(
    rt: &R,
    desk: &Desk,
    pass: &mut Pass,
    count: u32,
    alloc: Global,
) -> bool
    requires { IsOf desk.now pass.old }
    ensures own { IsOf desk.now pass.new }
    ensures worked { Worked (CutsLast count) result pass.old pass.new }
{
    let Ok(mut out) = Octets::with_room(21_100, alloc) else {
        return false;
    };
    let mut to = AddrList::new();
    match desk.cut(rt, pass, 10 * u64::from(count), &mut out, &mut to) {
        Err(_) => false,
        Ok(_turn) => true,
    }
}
