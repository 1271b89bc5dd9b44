//! A session without its tape: who takes part, and the counts and the MIDI list of what is pending.

ghost use Rattle.std.specs.Prelude.{◌≡◌, ◌+◌, ◌-◌, ◌<◌, ◌≤◌, ◌^◌, max, [], IfOk, if◌then◌else◌};
ghost use Rattle.jm_section.specs.declared.next.Place.TheVariants.{First};
ghost use Rattle.jm_book.specs.Members.{no_members};
ghost use Rattle.jm_book.specs.Participants.{checkpoint_at};
ghost use Rattle.jm_book.specs.Answers.{members_enter, members_ack, members_join, members_leave, members_hear, members_say, answer_feedback, is_entered, is_moved, is_joined, is_left, is_noted, is_given, is_said, after_if, feedback_of, addresses_of};
ghost use Rattle.jm_book.specs.Core.{next_tick, next_delta, count_held, held_number, with_members};

use crate::answers::{Acked, Entered, Given, Gone, Heard, Joined, Said};
use crate::lists::{AddrList, FeedbackList};
use crate::roster::{Room, Roster};
use crate::steps::{Config, Step};
use crate::waiting::Unsent;
use apple_msg::Message;
use apple_session::PortKind;
use jm_edge::Addr;
use jm_section::Place;
use jm_wire::Octets;
use std::alloc::{AllocError, Global};
use std::marker::Model;

/// How many octets a MIDI list may have.
pub(crate) const LONGEST_LIST: usize = 4095;

/// A session without its tape. The commands that were played are no part of it: the calls that ask the journal are
/// lent them.
#[derive(Debug, Drop)]
pub(crate) struct Core {
    pub(crate) config: Config,
    pub(crate) roster: Roster,
    /// How many packets were sent: the next one's number.
    pub(crate) packets: u64,
    /// How many plays were accepted: the next one's serial.
    pub(crate) plays: u64,
    /// How many commands are pending.
    pub(crate) pending: usize,
    /// The latest tick of a play or a cut.
    pub(crate) tick: u64,
    /// The tick of the first pending command.
    pub(crate) first: u64,
    /// The MIDI list of what is pending, without a long command.
    pub(crate) list: Octets,
    /// The place behind it.
    pub(crate) place: Place,
    /// The segments of a long command that weren't sent.
    pub(crate) unsent: Unsent,
}

impl Model for Core {
    ghost use Rattle.std.specs.Prelude.{length};
    ghost use Rattle.jm_book.specs.Core.{CoreTold, IsInLimits};

    ghost Value = { CoreTold };

    ghost view = { λ c. record { config = c.config; members = c.roster; packets = c.packets; plays = c.plays; pending = c.pending; tick = c.tick; first = c.first; list = c.list.octets; place = c.place; waiting = c.unsent } };

    ghost invariant = { λ c. IsInLimits c.pending c.list };
}

impl Core {
    /// A session of no steps. It fails where memory runs out.
    pub(crate) fn new(config: Config, alloc: Global) -> Result<Core, AllocError>
        ensures { IfOk result (λ c. c ≡ record { config = config; members = no_members config; packets = 0; plays = 0; pending = 0; tick = 0; first = 0; list = []; place = First; waiting = [] }) }
    {
        let list = Octets::with_room(LONGEST_LIST, alloc)?;
        let unsent = Unsent::new(alloc)?;
        let roster = Roster::new(&config);
        Ok(Core {
            config,
            roster,
            packets: 0,
            plays: 0,
            pending: 0,
            tick: 0,
            first: 0,
            list,
            place: Place::First,
            unsent,
        })
    }

    /// How many steps a tape takes.
    pub(crate) fn events(&self) -> u32
        ensures { result ≡ self.now.config.events }
    {
        self.config.events
    }

    pub(crate) fn ssrc(&self) -> u32
        ensures { result ≡ self.now.config.ssrc }
    {
        self.config.ssrc
    }

    pub(crate) fn packets(&self) -> u64
        ensures { result ≡ self.now.packets }
    {
        self.packets
    }

    pub(crate) fn pending(&self) -> usize
        ensures number { result ≡ self.now.pending }
        ensures bound { result ≤ 256 }
    {
        self.pending
    }

    /// How many commands are pending, a long one counted by its segments that wait.
    pub(crate) fn unsent_count(&self) -> usize
        ensures { result ≡ count_held self.now }
    {
        let waiting = self.unsent.len();
        if waiting == 0 {
            return self.pending;
        }
        waiting + self.pending.saturating_sub(1)
    }

    /// The number of the packet with which what is pending is sent: the next one's, or that of the last segment that waits.
    pub(crate) fn number_of_pending(&self) -> u64
        requires { self.now.packets < 2 ^ 62 }
        ensures { result ≡ held_number self.now }
    {
        self.packets + self.unsent.len().saturating_sub(1) as u64
    }

    /// The latest tick of a play or a cut.
    pub(crate) fn tick(&self) -> u64
        ensures { result ≡ self.now.tick }
    {
        self.tick
    }

    pub(crate) fn checkpoint(&self) -> u64
        ensures { result ≡ checkpoint_at self.now.packets self.now.members.joined }
    {
        self.roster.checkpoint(self.packets)
    }

    pub(crate) fn addresses(&self, out: &mut AddrList)
        ensures { out.new ≡ addresses_of self.now.members.host.peers }
    {
        self.roster.addresses(out);
    }

    /// The tick of the next packet, cut at this tick.
    pub(crate) fn next_tick(&self, tick: u64) -> u64
        ensures { result ≡ next_tick self.now tick }
    {
        if self.pending == 0 {
            return self.tick.max(tick);
        }
        self.first
    }

    /// The ticks between the last pending command and one at this tick.
    pub(crate) fn next_delta(&self, tick: u64) -> u64
        ensures { result ≡ next_delta self.now tick }
    {
        if self.pending == 0 {
            return 0;
        }
        self.tick.max(tick) - self.tick
    }

    pub(crate) fn room(&self, left: bool) -> Room
        ensures { result ≡ record { left = left; events = self.now.config.events } }
    {
        Room {
            left,
            events: self.config.events,
        }
    }
}

impl Core {
    pub(crate) fn enter(&mut self, left: bool) -> Entered
        ensures answer { result ≡ members_enter left self.old.config.events self.old.members }
        ensures after { self.new ≡ with_members self.old (is_entered result) Step.Enter }
    {
        let room = self.room(left);
        self.roster.enter(room)
    }

    pub(crate) fn join(&mut self, ssrc: u32, left: bool) -> Joined
        ensures answer { result ≡ members_join left self.old.config.events self.old.packets self.old.members ssrc }
        ensures after { self.new ≡ with_members self.old (is_joined result) (Step.Join ssrc) }
    {
        let room = self.room(left);
        self.roster.join(room, self.packets, ssrc)
    }

    pub(crate) fn leave(&mut self, ssrc: u32, left: bool) -> Gone
        ensures answer { result ≡ members_leave left self.old.config.events self.old.members ssrc }
        ensures after { self.new ≡ with_members self.old (is_left result) (Step.Leave ssrc) }
    {
        let room = self.room(left);
        self.roster.leave(room, ssrc)
    }

    pub(crate) fn ack(&mut self, ssrc: u32, seq: u16, left: bool) -> Acked
        ensures answer { result ≡ members_ack left self.old.config.events self.old.packets self.old.members ssrc seq }
        ensures after { self.new ≡ with_members self.old (is_moved result) (Step.Ack ssrc seq) }
    {
        let room = self.room(left);
        self.roster.ack(room, self.packets, ssrc, seq)
    }

    pub(crate) fn hear(&mut self, ssrc: u32, seq: u16, left: bool) -> Heard
        ensures answer { result ≡ members_hear left self.old.config.events self.old.members ssrc }
        ensures after { self.new ≡ with_members self.old (is_noted result) (Step.Hear ssrc seq) }
    {
        let room = self.room(left);
        self.roster.hear(room, ssrc, seq)
    }

    pub(crate) fn feedback(&self, out: &mut FeedbackList, left: bool) -> Given
        ensures answer { result ≡ answer_feedback left self.now.config.events }
        ensures list { out.new ≡ (if is_given result then feedback_of self.now.members.joined self.now.members.host.peers else out.old) }
    {
        if !left {
            return Given::RecordFull {
                events: self.config.events,
            };
        }
        self.roster.feedback(out);
        Given::Given
    }

    pub(crate) fn say(
        &mut self,
        port: PortKind,
        from: Addr,
        m: &Message,
        now: u64,
        left: bool,
    ) -> Said
        ensures answer { result ≡ members_say left self.old.config.events self.old.packets self.old.members port from m.now now }
        ensures after { self.new ≡ with_members self.old (is_said result) (Step.Say port from m.now now) }
    {
        if !left {
            return Said::RecordFull {
                events: self.config.events,
            };
        }
        self.roster.say(self.packets, port, from, m, now)
    }
}
