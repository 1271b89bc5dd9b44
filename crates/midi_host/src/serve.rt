//! The top call of `serve`.

ghost use Rattle.std.specs.Prelude.{◌≡◌, ◌≤◌, None};
ghost use Rattle.midi_host.specs.ServeWords.{serve_of, AreWithin};
ghost use Rattle.midi_host.specs.Serve.{verdict_of, line_of, EndsWith, EndsServe, EndsServeBy};

use super::jam::Ended;
use super::serve_options::WordsFault;
use super::serve_words::{ServeWords, asked_by};
use super::serving::{Served, config_for, serve_session};
use super::status::Status;
use super::telling::{TellFault, tell};
use super::verdict::Verdict;
use super::word::Word;
use jm_edge::{Gate, Port, Sink, Ticker};
use std::alloc::Global;
use std::sync::Wait;
use std::thread::Threads;

// Tells of a session that was served, and gives how the call ends.
fn finish<K: Sink>(asked: &ServeWords, served: &Served, sink: &mut K, alloc: Global) -> Status
    ensures ends { EndsWith result (verdict_of asked.now served.now.control served.now.rtp served.now.tape.items)
        (line_of asked.now served.now.control served.now.rtp served.now.tape.items)
        (record { written = K.written sink.old; faults = K.faults sink.old })
        (record { written = K.written sink.new; faults = K.faults sink.new }) }
    ensures counted { K.faults sink.old ≤ K.faults sink.new }
{
    let full = served.tape.len() == asked.events as usize;
    let verdict = Verdict::of_tape(full)
        .with_end(served.rtp.end)
        .with_end(served.control.end);
    if let Verdict::NoMemory = verdict {
        return Status::NoMemory;
    }
    let send_faults = served
        .control
        .send_faults
        .saturating_add(served.rtp.send_faults);
    let told = tell(
        &config_for(asked),
        served.tape.as_slice(),
        send_faults,
        sink,
        alloc,
    );
    match told {
        Err(TellFault::NoMemory) => Status::NoMemory,
        Ok(()) => match verdict {
            Verdict::PortFault => Status::PortFault,
            Verdict::Full => Status::RecordFull,
            Verdict::NoMemory => Status::NoMemory,
            Verdict::Whole => Status::Done,
        },
        Err(TellFault::WriteFailed) => match verdict {
            Verdict::PortFault => Status::PortFault,
            Verdict::Full => Status::RecordFull,
            Verdict::NoMemory => Status::NoMemory,
            Verdict::Whole => Status::WriteFault,
        },
    }
}

// Serves the session that is asked for, and tells of it.
fn serve_asked<R: Threads + Wait + Sync, P: Port + Send, C: Ticker + Send, G: Gate + Sync, K: Sink>(
    rt: &R,
    asked: &ServeWords,
    control: &mut P,
    data_port: &mut P,
    control_ticks: &mut C,
    data_ticks: &mut C,
    gates: &G,
    sink: &mut K,
    alloc: Global,
) -> Ended
    requires { AreWithin asked.now }
    ensures ends { EndsServe result.status asked.now result.tape.items
        (record { control = record { wire = P.wire control.old; coming = C.coming control_ticks.old }; rtp = record { wire = P.wire data_port.old; coming = C.coming data_ticks.old } })
        (record { control = record { wire = P.wire control.new; coming = C.coming control_ticks.new }; rtp = record { wire = P.wire data_port.new; coming = C.coming data_ticks.new } })
        (record { written = K.written sink.old; faults = K.faults sink.old })
        (record { written = K.written sink.new; faults = K.faults sink.new }) }
    ensures counted { K.faults sink.old ≤ K.faults sink.new }
{
    match serve_session(
        rt,
        asked,
        control,
        data_port,
        control_ticks,
        data_ticks,
        gates,
        alloc,
    ) {
        Err(_) => Ended {
            status: Status::NoMemory,
            tape: Vec::new(alloc),
        },
        Ok(served) => {
            let status = finish(asked, &served, sink, alloc);
            Ended {
                status,
                tape: served.tape,
            }
        }
    }
}

/// Serves a session over two ports, and writes one line that tells of it: `served packets P commands C joins J leaves L
/// send-faults F`.
///
/// The words are `serve --port PORT --turns TURNS`, with `--ssrc SSRC` and `--events EVENTS` where they are given. PORT is from
/// 1,024 to 65,534 and is what `control` is bound to, and `data_port` to the next one; TURNS is how many rounds each worker makes,
/// from 1 to 4,294,967,295; SSRC is that of the host's stream, eight hexadecimal digits, else 4d494449; EVENTS is how many steps the
/// tape takes, from 1 to 4,194,304, else 4194304. The worker of each port makes its rounds in a thread of its own. The first four numbers
/// of the line are counted on the tape, and the last is how many sends failed, which stands still at 2^64 - 1. The tape is legal.
///
/// `Usage` comes only where the words aren't these; where they aren't either that comes or `NoMemory`, and nothing was done.
/// `PortFault` comes where a receive failed, which the port counted; it ended its own worker, and the other made its rounds.
/// `RecordFull` comes exactly where the tape has as many steps as it takes and no receive failed. With both the line was written, or a
/// front of it and the sink's count of faults rose. `WriteFault` comes only where neither is so and the sink's count rose; a front of the
/// line was written. `NoMemory` goes before all; nothing was written then.
pub fn run_serve<
    R: Threads + Wait + Sync,
    P: Port + Send,
    C: Ticker + Send,
    G: Gate + Sync,
    K: Sink,
>(
    rt: &R,
    words: &[Word],
    control: &mut P,
    data_port: &mut P,
    control_ticks: &mut C,
    data_ticks: &mut C,
    gates: &G,
    sink: &mut K,
    alloc: Global,
) -> Ended
    ensures usage { result.status ≡ Status.Usage → serve_of words.now ≡ None }
    ensures ends { EndsServeBy (serve_of words.now) result.status result.tape.items
        (record { control = record { wire = P.wire control.old; coming = C.coming control_ticks.old }; rtp = record { wire = P.wire data_port.old; coming = C.coming data_ticks.old } })
        (record { control = record { wire = P.wire control.new; coming = C.coming control_ticks.new }; rtp = record { wire = P.wire data_port.new; coming = C.coming data_ticks.new } })
        (record { written = K.written sink.old; faults = K.faults sink.old })
        (record { written = K.written sink.new; faults = K.faults sink.new }) }
    ensures counted { K.faults sink.old ≤ K.faults sink.new }
{
    match asked_by(words, alloc) {
        Ok(asked) => serve_asked(
            rt,
            &asked,
            control,
            data_port,
            control_ticks,
            data_ticks,
            gates,
            sink,
            alloc,
        ),
        Err(WordsFault::Refused) => Ended {
            status: Status::Usage,
            tape: Vec::new(alloc),
        },
        Err(WordsFault::Memory) => Ended {
            status: Status::NoMemory,
            tape: Vec::new(alloc),
        },
    }
}
