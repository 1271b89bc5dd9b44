// Jams over memory, and at gates that hold a call until another one is answered.
use super::jam::{Ended, run_jam};
use super::status::Status;
use super::word::Word;
use jm_book::Step;
use jm_edge::{FreeGate, Gate, MemSink};
use std::alloc::Global;
use std::sync::Wait;
use std::sync::atomic::{AtomicBool, AtomicU64, Ordering};
use std::test::Fail;
use std::thread::Threads;
use std::time::Duration;

const TOLD: &[u8] =
    b"player 0 8 notes 3 volume 107 wheel 60\nplayer 1 8 notes 3 volume 20 wheel 99\nplayer 2 8 notes 3 volume 122 wheel 10\nplayer 3 8 notes 3 volume 35 wheel 49\ncommands 32\n";

// A call: its worker, and its number among that worker's calls.
#[derive(Clone, Copy, PartialEq, Eq)]
pub(super) struct Call {
    pub(super) worker: u8,
    pub(super) number: u32,
}

// Holds one call until another one is answered, for 1,000 times ten milliseconds at most.
#[derive(Drop)]
pub(super) struct Hold {
    held: Call,
    until: Call,
    // 1 once the other call was answered.
    answered: AtomicU64,
    came: AtomicBool,
    gave_up: AtomicBool,
}

impl Hold {
    pub(super) fn new(held: Call, until: Call) -> Hold {
        Hold {
            held,
            until,
            answered: AtomicU64::new(0),
            came: AtomicBool::new(false),
            gave_up: AtomicBool::new(false),
        }
    }

    // Both calls came, and the one that was held didn't give up.
    pub(super) fn went_well(&self) -> bool {
        let came = self.came.load(Ordering::SeqCst);
        let answered = self.answered.load(Ordering::SeqCst) == 1;
        came && answered && !self.gave_up.load(Ordering::SeqCst)
    }
}

impl Gate for Hold {
    fn before<R: Wait>(&self, rt: &R, worker: u8, call: u32) {
        if worker != self.held.worker || call != self.held.number {
            return;
        }
        self.came.store(true, Ordering::SeqCst);
        for _ in 0..1_000u32 {
            if self.answered.load(Ordering::SeqCst) == 1 {
                return;
            }
            self.answered.park_timeout(rt, 0, Duration::from_millis(10));
        }
        self.gave_up.store(true, Ordering::SeqCst);
    }

    fn after<R: Wait>(&self, _rt: &R, worker: u8, call: u32) {
        if worker == self.until.worker && call == self.until.number {
            self.answered.store(1, Ordering::SeqCst);
            self.answered.wake_all();
        }
    }
}

// A jam of eight steps from the seed 7, and whether its text was written.
fn jams<R: Threads + Wait + Sync, G: Gate + Sync>(
    rt: &R,
    gates: &G,
    alloc: Global,
) -> Result<(Ended, bool), Fail> {
    let words = [
        Word::new("jam", alloc)?,
        Word::new("7", alloc)?,
        Word::new("8", alloc)?,
    ];
    let mut sink = MemSink::new(alloc, TOLD.len(), &[])?;
    let ended = run_jam(rt, &words, &mut sink, gates, alloc);
    Ok((ended, sink.as_slice() == TOLD))
}

#[test]
fn a_jam_of_eight_steps(rt: HostRuntime) -> Result<(), Fail> {
    let (ended, told) = jams(&rt, &FreeGate, rt.alloc())?;
    assert_eq!(rt; ended.status, Status::Done);
    assert!(rt; told);
    Ok(())
}

#[test]
fn players_are_at_work_at_once(rt: HostRuntime) -> Result<(), Fail> {
    let first = |worker: u8| Call { worker, number: 0 };
    let gates = Hold::new(first(0), first(1));
    let (ended, told) = jams(&rt, &gates, rt.alloc())?;
    assert!(rt; gates.went_well());
    assert_eq!(rt; ended.status, Status::Done);
    assert!(rt; told);
    Ok(())
}

#[test]
fn a_packet_that_was_sent_is_reported(rt: HostRuntime) -> Result<(), Fail> {
    let held = Call {
        worker: 4,
        number: 0,
    };
    let until = Call {
        worker: 6,
        number: 1,
    };
    let gates = Hold::new(held, until);
    let (ended, told) = jams(&rt, &gates, rt.alloc())?;
    assert!(rt; gates.went_well());
    assert_eq!(rt; ended.status, Status::Done);
    assert!(rt; told);
    let mut reported = false;
    for step in &ended.tape {
        if let Step::Ack { ssrc: 1, seq: 1 } = step {
            reported = true;
        }
    }
    assert!(rt; reported);
    Ok(())
}

#[test]
fn other_words_are_no_jam(rt: HostRuntime) -> Result<(), Fail> {
    let cases = [
        ("1000000", "8"),
        ("7", "0"),
        ("7", "4097"),
        ("07", "8"),
        ("", "8"),
    ];
    for (seed, count) in cases {
        let words = [
            Word::new("jam", rt.alloc())?,
            Word::new(seed, rt.alloc())?,
            Word::new(count, rt.alloc())?,
        ];
        let mut sink = MemSink::new(rt.alloc(), 512, &[])?;
        let ended = run_jam(&rt, &words, &mut sink, &FreeGate, rt.alloc());
        assert_eq!(rt; ended.status, Status::Usage, "{seed} {count}");
        assert!(rt; ended.tape.is_empty() && sink.as_slice().is_empty());
    }
    Ok(())
}

#[test]
fn a_sink_that_fails(rt: HostRuntime) -> Result<(), Fail> {
    let words = [
        Word::new("jam", rt.alloc())?,
        Word::new("7", rt.alloc())?,
        Word::new("1", rt.alloc())?,
    ];
    let mut sink = MemSink::new(rt.alloc(), 512, &[0])?;
    let ended = run_jam(&rt, &words, &mut sink, &FreeGate, rt.alloc());
    assert_eq!(rt; ended.status, Status::WriteFault);
    assert!(rt; sink.as_slice().is_empty());
    Ok(())
}
