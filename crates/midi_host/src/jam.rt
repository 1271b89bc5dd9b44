//! The top call of `jam`.

ghost use Rattle.std.specs.Prelude.{◌≡◌, ◌≢◌, ◌≤◌, ◌↔◌, None};
ghost use Rattle.midi_host.specs.Jam.{Tells, EndsJam, EndsJamBy};
ghost use Rattle.midi_host.specs.JamWords.{jam_of};

use super::jam_words::{JamWords, jam_words};
use super::status::Status;
use super::word::Word;
use super::writing::write_all;
use jm_book::Step;
use jm_edge::{Gate, Sink};
use jm_jam::{Jammed, jam, summary};
use std::alloc::Global;
use std::sync::Wait;
use std::thread::Threads;

/// How a top call ends that has a tape.
#[derive(Drop)]
pub struct Ended {
    /// How it ended.
    pub status: Status,
    /// The steps of its session. It is empty where the words weren't those of the call.
    pub tape: Vec<Step>,
}

// Writes what is told of a tape.
fn tell<K: Sink>(tape: &[Step], sink: &mut K, alloc: Global) -> Status
    ensures told { Tells result tape.now
        (record { written = K.written sink.old; faults = K.faults sink.old })
        (record { written = K.written sink.new; faults = K.faults sink.new }) }
    ensures asked { result ≢ Status.Usage }
    ensures counted { K.faults sink.old ≤ K.faults sink.new }
{
    let Ok(text) = summary(tape, alloc) else {
        return Status::NoMemory;
    };
    match write_all(sink, text.as_bytes()) {
        Ok(()) => Status::Done,
        Err(_) => Status::WriteFault,
    }
}

// Runs a jam, and writes what is told of its tape.
fn run_asked<R: Threads + Wait + Sync, K: Sink, G: Gate + Sync>(
    rt: &R,
    asked: JamWords,
    sink: &mut K,
    gates: &G,
    alloc: Global,
) -> Ended
    requires { asked.seed ≤ 999999 }
    ensures ends { EndsJam result.status asked result.tape.items
        (record { written = K.written sink.old; faults = K.faults sink.old })
        (record { written = K.written sink.new; faults = K.faults sink.new }) }
    ensures asked { result.status ≢ Status.Usage }
    ensures counted { K.faults sink.old ≤ K.faults sink.new }
{
    let Jammed { tape, done } = jam(rt, asked.seed, asked.count, gates, alloc);
    if !done {
        return Ended {
            status: Status::NoMemory,
            tape,
        };
    }
    let status = tell(tape.as_slice(), sink, alloc);
    Ended { status, tape }
}

/// Runs a whole jam at a desk, and writes what is told of its tape.
///
/// The words are `jam SEED COUNT`. SEED is at most 999,999, and COUNT from 1 to 4,096. Four players, two threads that report and one
/// that cuts share one session, each in a thread of its own, and each makes COUNT steps. The text has a line for each player and one
/// for all commands; it is told of the tape alone.
///
/// `Usage` comes exactly where the words aren't these, and then nothing is done and the tape is empty. `WriteFault` comes only where
/// the sink's count of faults rose; a front of the text was written. At `NoMemory` nothing was written, and the tape has the steps that
/// were taken.
pub fn run_jam<R: Threads + Wait + Sync, K: Sink, G: Gate + Sync>(
    rt: &R,
    words: &[Word],
    sink: &mut K,
    gates: &G,
    alloc: Global,
) -> Ended
    ensures usage { (result.status ≡ Status.Usage) ↔ (jam_of words.now ≡ None) }
    ensures ends { EndsJamBy (jam_of words.now) result.status result.tape.items
        (record { written = K.written sink.old; faults = K.faults sink.old })
        (record { written = K.written sink.new; faults = K.faults sink.new }) }
    ensures counted { K.faults sink.old ≤ K.faults sink.new }
{
    let Some(asked) = jam_words(words) else {
        return Ended {
            status: Status::Usage,
            tape: Vec::new(alloc),
        };
    };
    run_asked(rt, asked, sink, gates, alloc)
}
