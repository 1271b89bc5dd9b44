// The workers that report.
ghost use Rattle.std.specs.Prelude.{◌≡◌, ◌+◌, ◌%◌};
ghost use Rattle.jm_desk.specs.Sharing.{IsOf};
ghost use Rattle.jm_jam.specs.Workers.{next_report, Reports, Worked};

use crate::calls::ack_once;
use jm_book::Acked;
use jm_desk::{Desk, Pass};
use jm_edge::Gate;
use std::sync::Wait;

// The low 16 bits.
fn low(number: u64) -> u16
    ensures { result ≡ number % 65536 }
{
    (number % 65536) as u16
}

// The low 16 bits of the next number.
fn low_next(mark: u64) -> u16
    ensures { result ≡ (mark + 1) % 65536 }
{
    ((mark % 65536 + 1) % 65536) as u16
}

// The number that is reported after this one.
fn next_report(number: u16, answer: &Acked) -> u16
    ensures { result ≡ next_report number answer.now }
{
    match answer {
        Acked::Moved { mark } => low_next(*mark),
        Acked::Old { mark } => low_next(*mark),
        Acked::NotSent { last } => match last {
            Some(last) => low(*last),
            None => 1,
        },
        Acked::RecordFull { .. } => number,
        Acked::UnknownSsrc => number,
    }
}

// Makes so many reports for this participant, and says whether there was memory for all.
pub(crate) fn report_all<R: Wait, G: Gate>(
    rt: &R,
    desk: &Desk,
    pass: &mut Pass,
    ssrc: u32,
    count: u32,
    gate: &G,
    worker: u8,
) -> bool
    requires own { IsOf desk.now pass.old }
    ensures own { IsOf desk.now pass.new }
    ensures worked { Worked (Reports ssrc count) result pass.old pass.new }
{
    let mut call = 0;
    let mut number = 1;
    for _made in 0..count {
        match ack_once(rt, desk, pass, ssrc, number, gate, worker, &mut call) {
            Err(_) => return false,
            Ok(turn) => number = next_report(number, &turn.answer),
        }
    }
    true
}
