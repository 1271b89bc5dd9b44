//! The program: a verb's script is read from standard input, and its answers go to standard output. `invite` calls another host
//! over two ports instead, `serve` is a host on the network, and `jam` has threads share a session.
#![tactic(auto)]

mod about;
mod answering;
mod answers;
mod attendance;
mod change;
mod conversation;
mod counting;
mod counts;
mod ended;
mod invitation;
mod invite;
mod jam;
mod jam_words;
mod line_reader;
mod players;
mod read;
mod repair;
mod replay;
mod room;
mod run;
mod serve;
mod serve_options;
mod serve_words;
mod serving;
mod session_answers;
mod ssrc_list;
mod state_lines;
mod status;
mod telling;
mod verb_choice;
mod verb_kind;
mod verdict;
mod word;
mod writing;

use about::about;
use invite::run_invite;
use jam::run_jam;
use jm_edge::{Addr, FreeGate, ReadSource, Sink, Ticker, UdpPort, WallTicker, WriteSink};
use run::run;
use serve::run_serve;
use serve_options::{WordsFault, serve_help};
use serve_words::asked_by;
use status::Status;
use std::alloc::{AllocError, Global};
use std::env;
use std::io::{self, ErrorKind};
use std::net::Net;
use std::process::ExitCode;
use std::rt::Env;
use std::sync::Wait;
use std::thread::Threads;
use verb_choice::verb;
use verb_kind::Verb;
use word::Word;

const USAGE: &str =
    "usage: midi_host replay|read|repair|jam SEED COUNT|invite ADDR TURNS|serve --port P --turns N";

/// The number with which the process ends where no port could be opened.
const NO_PORT: u8 = 7;

/// How often two ports that stand side by side are looked for.
const MOST_PAIRS: u8 = 16;

// The words after the program's name.
fn program_words(rt: &(impl Env + AllocGlobal)) -> io::Result<Vec<Word>> {
    let mut words = Vec::new(rt.alloc());
    for text in env::args(rt)?.skip(1) {
        words.push(Word::new(text.as_str(), rt.alloc())?)?;
    }
    Ok(words)
}

// A port that the system chooses, and the next one, where that is free.
fn open_pair(rt: &(impl Net + AllocGlobal)) -> io::Result<Option<(UdpPort, UdpPort)>> {
    let control = UdpPort::open(rt.alloc(), rt, Addr { host: 0, port: 0 })?;
    match control.local() {
        Some(Addr { port, .. }) if port < u16::MAX => {
            let next = Addr {
                host: 0,
                port: port + 1,
            };
            match UdpPort::open(rt.alloc(), rt, next) {
                Ok(data_port) => Ok(Some((control, data_port))),
                Err(_) => Ok(None),
            }
        }
        _ => Ok(None),
    }
}

// Two ports of this program's own, control first, since hosts take a caller's data port to be the next one.
fn open_ports(rt: &(impl Net + AllocGlobal)) -> Option<(UdpPort, UdpPort)> {
    for _pair in 0..MOST_PAIRS {
        match open_pair(rt) {
            Ok(Some(ports)) => return Some(ports),
            Ok(None) => {}
            Err(_) => return None,
        }
    }
    None
}

// Calls another host over the system's ports and clock, and gives the number with which the process ends.
fn call(words: &[Word], rt: &HostRuntime) -> u8 {
    let Some((mut control, mut data_port)) = open_ports(rt) else {
        return NO_PORT;
    };
    let Ok(clock) = rt.clone() else {
        return Status::NoMemory.number();
    };
    let mut ticks = WallTicker::new(clock);
    let mut sink = WriteSink::new(rt.stdout());
    run_invite(
        words,
        &mut control,
        &mut data_port,
        &mut ticks,
        &mut sink,
        rt.alloc(),
    )
    .number()
}

// A port of this number, at all addresses of the machine.
fn open_port(port: u16, rt: &HostRuntime) -> Option<UdpPort> {
    match UdpPort::open(rt.alloc(), rt, Addr { host: 0, port }) {
        Ok(port) => Some(port),
        Err(_) => {
            let _ = eprintln!(rt; "port {port} can't be opened");
            None
        }
    }
}

// Tells of the options of `serve`, and gives the number with which the process ends.
fn tell_options(rt: &HostRuntime) -> u8 {
    let Ok(text) = serve_help(rt.alloc()) else {
        return Status::NoMemory.number();
    };
    match print!(rt; "{text}") {
        Ok(()) => Status::Done.number(),
        Err(_) => Status::WriteFault.number(),
    }
}

// The two ports that the words name, or the number with which the process ends.
fn open_served(words: &[Word], rt: &HostRuntime) -> Result<(UdpPort, UdpPort), u8> {
    let asked = match asked_by(words, rt.alloc()) {
        Ok(asked) => asked,
        Err(WordsFault::Refused) => return Err(Status::Usage.number()),
        Err(WordsFault::Memory) => return Err(Status::NoMemory.number()),
    };
    let next = asked.port + 1;
    match (open_port(asked.port, rt), open_port(next, rt)) {
        (Some(control), Some(data_port)) => {
            let _ = eprintln!(rt;
                "midi_host serves at the ports {} and {next}: add it by this machine's address and the first of them",
                asked.port
            );
            Ok((control, data_port))
        }
        _ => Err(NO_PORT),
    }
}

// A clock for each worker.
fn clocks(rt: &HostRuntime) -> Option<(WallTicker<HostRuntime>, WallTicker<HostRuntime>)> {
    let Ok(first) = rt.clone() else {
        return None;
    };
    let Ok(second) = rt.clone() else {
        return None;
    };
    Some((WallTicker::new(first), WallTicker::new(second)))
}

// Serves a session over these ports, and gives the number with which the process ends.
fn serve_over<R: Threads + Wait + Sync, C: Ticker + Send + Drop, K: Sink>(
    rt: &R,
    words: &[Word],
    ports: (UdpPort, UdpPort),
    ticks: (C, C),
    sink: &mut K,
    alloc: Global,
) -> u8 {
    let (mut control, mut data_port) = ports;
    let (mut control_ticks, mut data_ticks) = ticks;
    run_serve(
        rt,
        words,
        &mut control,
        &mut data_port,
        &mut control_ticks,
        &mut data_ticks,
        &FreeGate,
        sink,
        alloc,
    )
    .status
    .number()
}

// Whether the options of `serve` are asked for.
fn asks_for_options(words: &[Word]) -> bool {
    match words {
        [_verb, word] => word.as_bytes() == b"--help".as_slice(),
        _ => false,
    }
}

// Answers lines, or tells of the program, and gives the number with which the process ends.
fn answer(words: &[Word], rt: &HostRuntime) -> u8 {
    if let Some(text) = about(words) {
        return match print!(rt; "{text}") {
            Ok(()) => Status::Done.number(),
            Err(_) => Status::WriteFault.number(),
        };
    }
    let mut source = ReadSource::new(rt.stdin());
    let mut sink = WriteSink::new(rt.stdout());
    run(words, &mut source, &mut sink, rt.alloc()).number()
}

fn main(rt: HostRuntime) -> ExitCode {
    let number = match program_words(&rt) {
        Ok(words) => match verb(words.as_slice()) {
            Verb::Plain => answer(words.as_slice(), &rt),
            Verb::Jam => {
                let mut sink = WriteSink::new(rt.stdout());
                run_jam(&rt, words.as_slice(), &mut sink, &FreeGate, rt.alloc())
                    .status
                    .number()
            }
            Verb::Invite => call(words.as_slice(), &rt),
            Verb::Serve => {
                if asks_for_options(words.as_slice()) {
                    tell_options(&rt)
                } else {
                    let words = words.as_slice();
                    match (open_served(words, &rt), clocks(&rt)) {
                        (Ok(ports), Some(ticks)) => {
                            let mut sink = WriteSink::new(rt.stdout());
                            serve_over(&rt, words, ports, ticks, &mut sink, rt.alloc())
                        }
                        (Err(number), _) => number,
                        (Ok(_ports), None) => Status::NoMemory.number(),
                    }
                }
            }
        },
        Err(error) if error.kind() == ErrorKind::OutOfMemory => Status::NoMemory.number(),
        Err(_) => Status::Usage.number(),
    };
    if number == Status::Usage.number() {
        let _ = eprintln!(rt; "{USAGE}");
    }
    ExitCode::from(number)
}

#[cfg(test)]
mod invite_tests;
#[cfg(test)]
mod jam_tests;
#[cfg(test)]
mod loss_tests;
#[cfg(test)]
mod serve_tests;
#[cfg(test)]
mod tests;
