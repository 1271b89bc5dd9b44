//! The book of one session: a core, and the tape of the steps that were taken.

ghost use Rattle.std.specs.Prelude.{◌≡◌, ◌+◌, ◌≤◌, ◌<◌, false, [], length, IfOk, OnOk, IsTrue, if◌then◌else◌};
ghost use Rattle.jm_wire.specs.Octets.{Appends};
ghost use Rattle.jm_book.specs.Book.{Told, IsReady, Takes};
ghost use Rattle.jm_book.specs.Commands.{HaveCommands};
ghost use Rattle.jm_book.specs.Stream.{stream_of, unsent};
ghost use Rattle.jm_book.specs.Session.{session_of, checkpoint_of};
ghost use Rattle.jm_book.specs.Packet.{packet_of, HasShortNext};
ghost use Rattle.jm_book.specs.Answers.{is_entered, is_accepted, is_packet, is_moved, is_joined, is_left, is_noted, is_given, is_said};
ghost use Rattle.jm_book.specs.BookAnswers.{has_room, enter_answer, play_answer, cut_answer, ack_answer, join_answer, leave_answer, hear_answer, feedback_answer, say_answer, feedback_list, address_list};
ghost use Rattle.jm_book.specs.Legal.{IsLegal};

use crate::answers::{Acked, Acted, Cutted, Entered, Given, Gone, Heard, Joined, Played, Said};
use crate::keeper::Core;
use crate::lists::{AddrList, FeedbackList};
use crate::play::CorePlayed;
use crate::steps::{Config, Step};
use crate::tape::{Bare, Tape};
use apple_msg::Message;
use apple_session::PortKind;
use jm_cmds::{Command, Sent};
use jm_edge::Addr;
use jm_wire::Octets;
use std::alloc::{AllocError, Global};
use std::marker::Model;

/// One session: its configuration and the list of the steps that were taken.
#[derive(Debug, Drop)]
pub struct Book {
    core: Core,
    tape: Tape,
}

impl Model for Book {
    ghost use Rattle.jm_book.specs.Book.{Told};
    ghost use Rattle.jm_book.specs.Kept.{IsKept};

    ghost Value = { Told };

    ghost view = { λ b. record { config = b.core.config; steps = b.tape.steps; spare = b.tape.spare } };

    ghost invariant = { λ b. IsKept b.core b.tape };
}

impl Book {
    /// A session of no steps. It fails where memory runs out.
    pub fn new(cfg: Config, alloc: Global) -> Result<Book, AllocError>
        requires { (1 ≤ cfg.events) × (cfg.events ≤ 4194304) }
        ensures { IfOk result (λ b. (b.config ≡ cfg) × (b.steps ≡ [])) }
    {
        let core = Core::new(cfg, alloc)?;
        Ok(Book {
            core,
            tape: Tape::new(alloc),
        })
    }

    /// Makes room for one more step at least, unless the tape is full. Nothing else changes.
    pub fn reserve(&mut self) -> Result<(), AllocError>
        ensures config { self.new.config ≡ self.old.config }
        ensures steps { self.new.steps ≡ self.old.steps }
        ensures room { OnOk result (IsReady self.new) }
    {
        self.tape.reserve()
    }

    /// Whether a step may still be taken.
    fn has_room(&self) -> bool
        ensures { result ≡ has_room self.now.config self.now.steps }
    {
        self.tape.len() < self.core.events() as usize
    }

    /// A local player enters. Players have the numbers 0, 1 and so on.
    pub fn enter(&mut self) -> Entered
        requires { IsReady self.old }
        ensures answer { result ≡ enter_answer self.old.config self.old.steps }
        ensures taken { Takes self.old self.new (is_entered result) Step.Enter }
    {
        let room = self.has_room();
        let answer = self.core.enter(room);
        if let Entered::Player(_) = answer {
            self.tape.push(Bare::Enter);
        }
        answer
    }

    /// A participant joins. Its mark is the last packet that was sent, or 0 where none was; its
    /// player number is 64 and the least slot that no joined participant has.
    pub fn join(&mut self, ssrc: u32) -> Joined
        requires { IsReady self.old }
        ensures answer { result ≡ join_answer self.old.config self.old.steps ssrc }
        ensures taken { Takes self.old self.new (is_joined result) (Step.Join ssrc) }
    {
        let room = self.has_room();
        let answer = self.core.join(ssrc, room);
        if let Joined::At { .. } = answer {
            self.tape.push(Bare::Join { ssrc });
        }
        answer
    }

    /// A participant leaves. Its peer is dropped, so that its next invitation begins anew.
    pub fn leave(&mut self, ssrc: u32) -> Gone
        requires { IsReady self.old }
        ensures answer { result ≡ leave_answer self.old.config self.old.steps ssrc }
        ensures taken { Takes self.old self.new (is_left result) (Step.Leave ssrc) }
    {
        let room = self.has_room();
        let answer = self.core.leave(ssrc, room);
        if let Gone::Left = answer {
            self.tape.push(Bare::Leave { ssrc });
        }
        answer
    }

    /// A participant reports the low 16 bits of the last packet that it received, which moves its
    /// mark up to that packet.
    pub fn ack(&mut self, ssrc: u32, seq: u16) -> Acked
        requires { IsReady self.old }
        ensures answer { result ≡ ack_answer self.old.config self.old.steps ssrc seq }
        ensures taken { Takes self.old self.new (is_moved result) (Step.Ack ssrc seq) }
    {
        let room = self.has_room();
        let answer = self.core.ack(ssrc, seq, room);
        if let Acked::Moved { .. } = answer {
            self.tape.push(Bare::Ack { ssrc, seq });
        }
        answer
    }

    /// The host received the participant's own packet with these low 16 bits of its number. The number is kept
    /// until a later one comes or the participant leaves.
    pub fn hear(&mut self, ssrc: u32, seq: u16) -> Heard
        requires { IsReady self.old }
        ensures answer { result ≡ hear_answer self.old.config self.old.steps ssrc }
        ensures taken { Takes self.old self.new (is_noted result) (Step.Hear ssrc seq) }
    {
        let room = self.has_room();
        let answer = self.core.hear(ssrc, seq, room);
        if let Heard::Noted = answer {
            self.tape.push(Bare::Hear { ssrc, seq });
        }
        answer
    }

    /// Puts into `out` what is to be reported to the joined peers, in their order: to each that was heard, at the
    /// address of its control port, the number of the last packet that came from it.
    pub fn feedback(&mut self, out: &mut FeedbackList) -> Given
        requires { IsReady self.old }
        ensures answer { result ≡ feedback_answer self.old.config self.old.steps }
        ensures taken { Takes self.old self.new (is_given result) Step.Feedback }
        ensures list { out.new ≡ (if is_given result then feedback_list self.old.config self.old.steps else out.old) }
    {
        let room = self.has_room();
        let answer = self.core.feedback(out, room);
        if let Given::Given = answer {
            self.tape.push(Bare::Feedback);
        }
        answer
    }

    /// Answers a message that came to `port` from `from` at the moment `now`, in units of 100 microseconds. It is
    /// one step, unless it is ignored, or reports what is old or not sent.
    pub fn say(&mut self, port: PortKind, from: Addr, m: &Message, now: u64) -> Said
        requires { IsReady self.old }
        ensures answer { result ≡ say_answer self.old.config self.old.steps port from m.now now }
        ensures taken { Takes self.old self.new (is_said result) (Step.Say port from m.now now) }
    {
        let room = self.has_room();
        let answer = self.core.say(port, from, m, now, room);
        if answer.is_taken() {
            self.tape.push(Bare::Say {
                port,
                from,
                message: m.copy(),
                now,
            });
        }
        answer
    }
}

impl Book {
    /// A player's command, at this tick in units of 100 microseconds, becomes pending. It gets the
    /// latest tick that was taken, where that is later. Where it has over 2,046 data octets its segments wait. A refused
    /// command is handed back.
    pub fn play(&mut self, player: u8, command: Command, tick: u64) -> Played
        requires { IsReady self.old }
        ensures answer { result ≡ play_answer self.old.config self.old.steps player command tick }
        ensures taken { Takes self.old self.new (is_accepted result) (Step.Play player command tick) }
    {
        let room = self.has_room();
        let answer = self
            .core
            .play(player, &command, tick, self.tape.commands(), room);
        match answer {
            CorePlayed::Refused { why } => Played::Refused { why, command },
            CorePlayed::Accepted { serial, kept } => {
                let packet = self.core.number_of_pending();
                let latest = self.core.tick();
                let sent = Sent {
                    packet,
                    tick: latest,
                    command,
                };
                self.tape.push_play(player, tick, sent);
                Played::Accepted { serial, kept }
            }
        }
    }

    /// All pending commands become the next packet, or the first segment that waits does (RFC 6295, section 3.2). Its octets
    /// are put into `out`, at most 21,099 of them. A packet without commands has this tick, in units of 100 microseconds, or the
    /// latest one that was taken, where that is later. A refusal leaves `out` as it was.
    pub fn cut(&mut self, tick: u64, out: &mut Octets) -> Cutted
        requires ready { IsReady self.old }
        requires empty { out.old.octets ≡ [] }
        requires room { 21100 ≤ out.old.spare }
        ensures answer { result ≡ cut_answer self.old.config self.old.steps }
        ensures taken { Takes self.old self.new (is_packet result) (Step.Cut tick) }
        ensures packet { IsTrue (is_packet result) → Appends out.old out.new (packet_of (session_of self.old.config self.old.steps) tick) }
        ensures refused { is_packet result ≡ false → out.new ≡ out.old }
        ensures bound { length out.new.octets ≤ 21099 }
        ensures parts { IsTrue (is_packet result) → HasShortNext (session_of self.old.config self.old.steps) tick }
    {
        let room = self.has_room();
        let commands = self.tape.commands();
        let first_pending = commands.len() - self.core.pending();
        let answer = self.core.cut(tick, &commands[..first_pending], out, room);
        if let Cutted::Packet { .. } = answer {
            self.tape.push(Bare::Cut { tick });
        }
        answer
    }
}

impl Book {
    /// The synchronization source of the host's stream.
    pub fn ssrc(&self) -> u32
        ensures { result ≡ self.now.config.ssrc }
    {
        self.core.ssrc()
    }

    /// How many packets were sent, which is the next one's number.
    pub fn packets(&self) -> u64
        ensures { result ≡ length (stream_of self.now.steps).packets }
    {
        self.core.packets()
    }

    /// The first packet of which a journal written now would tell: the least mark of the joined
    /// participants, or with none joined the last packet sent, or 0.
    pub fn checkpoint(&self) -> u64
        ensures { result ≡ checkpoint_of (session_of self.now.config self.now.steps) }
    {
        self.core.checkpoint()
    }

    /// How many commands are pending. A long one, of over 2,046 data octets, counts as its segments that wait, at most 33.
    pub fn pending(&self) -> usize
        ensures { result ≡ unsent (stream_of self.now.steps) }
    {
        self.core.unsent_count()
    }

    /// Puts into `out` the data addresses of the joined peers, in their order: where packets go.
    pub fn addresses(&self, out: &mut AddrList)
        ensures { out.new ≡ address_list self.now.config self.now.steps }
    {
        self.core.addresses(out);
    }

    /// How many steps were taken. Each was taken by what the calls answer after the steps before it, and the command of
    /// each play has its numbers within their bounds.
    pub fn steps(&self) -> usize
        ensures number { result ≡ length self.now.steps }
        ensures legal { IsLegal self.now.config self.now.steps }
        ensures commands { HaveCommands self.now.steps }
    {
        self.tape.len()
    }

    /// Hands out the tape: the steps that were taken, in order. It takes no memory.
    pub fn finish(self) -> Vec<Step>
        ensures { result.items ≡ self.steps }
    {
        let Book { core: _, tape } = self;
        tape.finish()
    }
}
