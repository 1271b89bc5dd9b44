//! The machine.

use crate::dialed::{DialAct, Dialed, EndCause, Phase};
use crate::stage::Stage;
use apple_msg::{Message, Name};
use apple_session::{PortKind, offset};
use jm_edge::Addr;
use std::marker::Model;

/// How long an invitation waits for its answer before it is sent again, in units of 100 microseconds.
const RETRY: u64 = 10_000;

/// How long it is from one question for the host's clock to the next.
const CLOCK_PERIOD: u64 = 100_000;

/// How often one port is asked.
const MOST_TRIES: u8 = 12;

/// Calls one host: asks its control port and then its data port, compares the clocks, and tells it what was
/// received.
#[derive(Debug, Drop)]
pub struct Inviter {
    ssrc: u32,
    token: u32,
    name: Name,
    to: Addr,
    stage: Stage,
}

impl Model for Inviter {
    ghost use Rattle.std.specs.Prelude.{◌<◌};
    ghost use Rattle.apple_invite.specs.Caller.{Caller};

    ghost Value = { Caller };

    ghost view = { λ i. record { ssrc = i.ssrc; token = i.token; name = i.name; to = i.to; stage = i.stage } };

    ghost invariant = { λ i. i.to.port < 65535 };
}

impl Inviter {
    ghost use Rattle.std.specs.Prelude.{◌≡◌, ℕ, ◌<◌, ◌≤◌, ◌^◌};
    ghost use Rattle.apple_invite.specs.Caller.{fresh, phase_of, address_of};
    ghost use Rattle.apple_invite.specs.Machine.{Gives, invitation, ended, asks_control, asks_data, asks_clock, asked_control, asked_data, clocked, in_session, ticks, hears, reports, closes, step};

    /// Calls the host whose control port is at `to` and whose data port is the next one there. `ssrc` is the
    /// caller's own, `token` the number of this invitation.
    pub fn new(ssrc: u32, token: u32, name: Name, to: Addr) -> Inviter
        requires { to.port < 65535 }
        ensures { result ≡ fresh ssrc token name to }
    {
        Inviter {
            ssrc,
            token,
            name,
            to,
            stage: Stage::Fresh,
        }
    }

    /// How far the invitation has come.
    pub fn phase(&self) -> Phase
        ensures { result ≡ phase_of self.now.stage }
    {
        self.stage.phase()
    }

    /// The moment is `now`, in units of 100 microseconds.
    ///
    /// - The first such call asks the host's control port.
    /// - A port that was asked is asked again once a second has gone by since it was asked last, up to twelve
    ///   times. Another second after the twelfth the invitation ends with `NoAnswer`.
    /// - While it is open the host is asked for its clock once ten seconds have gone by since it was asked last.
    /// - All else changes nothing. A moment before the last one is one at which no time has gone by.
    #[tactic(auto, unfolding(crate::specs::Machine::step))]
    pub fn on_time(&mut self, now: u64) -> Dialed
        requires { now ≤ 2 ^ 62 }
        ensures dialed { result ≡ (step self.old (ticks now)).dialed }
        ensures caller { self.new ≡ (step self.old (ticks now)).caller }
    {
        match self.stage {
            Stage::Fresh => self.ask_control(1, now),
            Stage::AskCtl { tries, due } => {
                if now < due {
                    return Dialed::silent(DialAct::Plain);
                }
                if tries >= MOST_TRIES {
                    return self.ended(EndCause::NoAnswer);
                }
                self.ask_control(tries + 1, now)
            }
            Stage::AskRtp { host, tries, due } => {
                if now < due {
                    return Dialed::silent(DialAct::Plain);
                }
                if tries >= MOST_TRIES {
                    return self.ended(EndCause::NoAnswer);
                }
                self.ask_data(host, tries + 1, now)
            }
            Stage::Open { host, due, .. } => {
                if now < due {
                    return Dialed::silent(DialAct::Plain);
                }
                self.ask_clock(host, now, DialAct::Plain)
            }
            Stage::Closed(_) => Dialed::silent(DialAct::Plain),
        }
    }

    /// A message came to `port` from `from` at the moment `now`, in units of 100 microseconds. It counts only from the
    /// host's address of that port.
    ///
    /// - The control port was asked and says OK with the token of this invitation: the SSRC of that host is kept and
    ///   its data port is asked.
    /// - The data port was asked and says OK with the token and the SSRC that was kept: `Opened`, and the host is asked
    ///   for its clock.
    /// - The port that was asked says NO with the token: the end.
    /// - The host of the SSRC that was kept says bye on either port: the end.
    /// - The host's clock comes on the data port, in answer to the last question, for the first time: `Clocked`, and
    ///   the exchange is told to the host.
    /// - All else is `Ignored` and changes nothing.
    #[tactic(auto, unfolding(crate::specs::Machine::step))]
    pub fn on_message(&mut self, port: PortKind, from: Addr, m: &Message, now: u64) -> Dialed
        requires { now ≤ 2 ^ 62 }
        ensures dialed { result ≡ (step self.old (hears port from m.now now)).dialed }
        ensures caller { self.new ≡ (step self.old (hears port from m.now now)).caller }
    {
        if from != self.address(port) {
            return Dialed::ignored();
        }
        match self.stage {
            Stage::AskCtl { .. } => self.asked_control(port, m, now),
            Stage::AskRtp { host, .. } => self.asked_data(host, port, m, now),
            Stage::Open { host, due, asked } => self.in_session(host, due, asked, port, m, now),
            Stage::Fresh | Stage::Closed(_) => Dialed::ignored(),
        }
    }

    /// Tells the host the low 16 bits of the number of the last packet that was received. `Ignored` exactly where the
    /// phase isn't `Open`; then nothing is sent.
    #[tactic(auto, unfolding(crate::specs::Machine::step))]
    pub fn feedback(&mut self, seq: u16) -> Dialed
        ensures dialed { result ≡ (step self.old (reports seq)).dialed }
        ensures caller { self.new ≡ (step self.old (reports seq)).caller }
    {
        match self.stage {
            Stage::Open { .. } => {
                let message = Message::Feedback {
                    ssrc: self.ssrc,
                    seq,
                };
                Dialed::sends(PortKind::Ctl, message, DialAct::Plain)
            }
            Stage::Fresh | Stage::AskCtl { .. } | Stage::AskRtp { .. } | Stage::Closed(_) => {
                Dialed::ignored()
            }
        }
    }

    /// Says bye to the host and ends. `Ignored` exactly where nothing was asked yet or the end has come; then nothing
    /// is sent.
    #[tactic(auto, unfolding(crate::specs::Machine::step))]
    pub fn close(&mut self) -> Dialed
        ensures dialed { result ≡ (step self.old closes).dialed }
        ensures caller { self.new ≡ (step self.old closes).caller }
    {
        match self.stage {
            Stage::AskCtl { .. } | Stage::AskRtp { .. } | Stage::Open { .. } => {
                self.stage = Stage::Closed(EndCause::Ours);
                let message = Message::Bye {
                    token: self.token,
                    ssrc: self.ssrc,
                };
                Dialed::sends(PortKind::Ctl, message, DialAct::Ended(EndCause::Ours))
            }
            Stage::Fresh | Stage::Closed(_) => Dialed::ignored(),
        }
    }

    /// The host's address of a port.
    fn address(&self, port: PortKind) -> Addr
        ensures { result ≡ address_of self.now.to port }
    {
        match port {
            PortKind::Ctl => self.to,
            PortKind::Rtp => Addr {
                host: self.to.host,
                port: self.to.port + 1,
            },
        }
    }

    fn invitation(&self) -> Message
        ensures { result ≡ invitation self.now }
    {
        Message::Invite {
            token: self.token,
            ssrc: self.ssrc,
            name: self.name.copy(),
        }
    }

    fn ended(&mut self, cause: EndCause) -> Dialed
        ensures { Gives self.old self.new result (ended self.old cause) }
    {
        self.stage = Stage::Closed(cause);
        Dialed::silent(DialAct::Ended(cause))
    }

    fn ask_control(&mut self, tries: u8, now: u64) -> Dialed
        requires { now ≤ 2 ^ 62 }
        ensures { Gives self.old self.new result (asks_control self.old tries now) }
    {
        self.stage = Stage::AskCtl {
            tries,
            due: now + RETRY,
        };
        Dialed::sends(PortKind::Ctl, self.invitation(), DialAct::Plain)
    }

    fn ask_data(&mut self, host: u32, tries: u8, now: u64) -> Dialed
        requires { now ≤ 2 ^ 62 }
        ensures { Gives self.old self.new result (asks_data self.old host tries now) }
    {
        self.stage = Stage::AskRtp {
            host,
            tries,
            due: now + RETRY,
        };
        Dialed::sends(PortKind::Rtp, self.invitation(), DialAct::Plain)
    }

    fn ask_clock(&mut self, host: u32, now: u64, act: DialAct) -> Dialed
        requires { now ≤ 2 ^ 62 }
        ensures { Gives self.old self.new result (asks_clock self.old host now act) }
    {
        self.stage = Stage::Open {
            host,
            due: now + CLOCK_PERIOD,
            asked: Some(now),
        };
        let message = Message::Clock {
            ssrc: self.ssrc,
            count: 0,
            times: [now, 0, 0],
        };
        Dialed::sends(PortKind::Rtp, message, act)
    }

    fn asked_control(&mut self, port: PortKind, m: &Message, now: u64) -> Dialed
        requires { now ≤ 2 ^ 62 }
        ensures { Gives self.old self.new result (asked_control self.old port m.now now) }
    {
        match (port, m) {
            (PortKind::Ctl, Message::Accept { token, ssrc, .. }) if *token == self.token => {
                self.ask_data(*ssrc, 1, now)
            }
            (PortKind::Ctl, Message::Reject { token, .. }) if *token == self.token => {
                self.ended(EndCause::Rejected)
            }
            _ => Dialed::ignored(),
        }
    }

    fn asked_data(&mut self, host: u32, port: PortKind, m: &Message, now: u64) -> Dialed
        requires { now ≤ 2 ^ 62 }
        ensures { Gives self.old self.new result (asked_data self.old host port m.now now) }
    {
        match (port, m) {
            (PortKind::Rtp, Message::Accept { token, ssrc, .. })
                if *token == self.token && *ssrc == host => {
                self.ask_clock(host, now, DialAct::Opened)
            }
            (PortKind::Rtp, Message::Reject { token, .. }) if *token == self.token => {
                self.ended(EndCause::Rejected)
            }
            (_, Message::Bye { ssrc, .. }) if *ssrc == host => self.ended(EndCause::Bye),
            _ => Dialed::ignored(),
        }
    }

    fn in_session(
        &mut self,
        host: u32,
        due: u64,
        asked: Option<u64>,
        port: PortKind,
        m: &Message,
        now: u64,
    ) -> Dialed
        ensures { Gives self.old self.new result (in_session self.old host due asked port m.now now) }
    {
        match (port, m) {
            (PortKind::Rtp, Message::Clock { ssrc, count, times })
                if *ssrc == host && *count == 1 && asked == Some(times[0]) => {
                self.clocked(host, due, [times[0], times[1], now])
            }
            (_, Message::Bye { ssrc, .. }) if *ssrc == host => self.ended(EndCause::Bye),
            _ => Dialed::ignored(),
        }
    }

    fn clocked(&mut self, host: u32, due: u64, times: [u64; 3]) -> Dialed
        ensures { Gives self.old self.new result (clocked self.old host due times) }
    {
        self.stage = Stage::Open {
            host,
            due,
            asked: None,
        };
        let act = DialAct::Clocked {
            offset: offset(&times),
        };
        let message = Message::Clock {
            ssrc: self.ssrc,
            count: 2,
            times,
        };
        Dialed::sends(PortKind::Rtp, message, act)
    }
}
