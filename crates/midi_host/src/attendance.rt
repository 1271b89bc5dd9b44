//! Who takes part in a session, followed along its tape.

ghost use Rattle.std.specs.Prelude.{◌≡◌, [], OnOk, IfOk};
ghost use Rattle.apple_session.specs.Conduct.{ssrc_of};
ghost use Rattle.apple_session.specs.Machine.{step};
ghost use Rattle.midi_host.specs.Attendance.{has_room_for, joined_after, change_after, said_by, followed};

use super::change::Change;
use super::ssrc_list::SsrcList;
use apple_msg::{Message, Name};
use apple_session::{Act, Answer, PortKind, Session};
use jm_book::Step;
use jm_edge::Addr;
use std::alloc::{AllocError, Global};
use std::marker::Model;

/// How many participants may be joined at once.
const MOST_JOINED: usize = 32;

/// The host with its peers, and who joined.
#[derive(Debug, Drop)]
pub struct Attendance {
    host: Session,
    joined: SsrcList,
}

impl Model for Attendance {
    ghost use Rattle.midi_host.specs.Attendance.{Attending};

    ghost Value = { Attending };

    ghost view = { λ a. record { host = a.host; joined = a.joined } };
}

// The SSRC that a message names.
fn ssrc_of(message: &Message) -> Option<u32>
    ensures { result ≡ ssrc_of message.now }
{
    match message {
        Message::Invite { ssrc, .. }
        | Message::Accept { ssrc, .. }
        | Message::Reject { ssrc, .. }
        | Message::Bye { ssrc, .. }
        | Message::Clock { ssrc, .. }
        | Message::Feedback { ssrc, .. } => Some(*ssrc),
        Message::RateLimit => None,
    }
}

// Whether there is room for who sent a message.
fn has_room_for(message: &Message, joined: &SsrcList) -> bool
    ensures { result ≡ has_room_for message.now joined.now }
{
    match ssrc_of(message) {
        Some(ssrc) => joined.has(ssrc) || joined.len() < MOST_JOINED,
        None => joined.len() < MOST_JOINED,
    }
}

// What an act changes among those who joined.
fn carry_out(act: Act, joined: &mut SsrcList) -> Result<Change, AllocError>
    ensures joined { OnOk result (joined.new ≡ joined_after act joined.old) }
    ensures change { IfOk result (λ change. change ≡ change_after act joined.old) }
{
    match act {
        Act::Join(ssrc) => {
            if joined.has(ssrc) {
                return Ok(Change::Neither);
            }
            joined.add(ssrc)?;
            Ok(Change::Joins)
        }
        Act::Leave(ssrc) => {
            let was_joined = joined.has(ssrc);
            joined.remove(ssrc);
            if was_joined {
                return Ok(Change::Leaves);
            }
            Ok(Change::Neither)
        }
        Act::Plain | Act::Ack { .. } | Act::Clocked { .. } | Act::Ignored(_) => Ok(Change::Neither),
    }
}

impl Attendance {
    ghost use Rattle.midi_host.specs.declared.change.Change.{Change};

    /// The host alone.
    pub fn new(ssrc: u32, name: Name, alloc: Global) -> Attendance
        ensures { result ≡ record { host = record { ssrc = ssrc; name = name; peers = [] }; joined = [] } }
    {
        Attendance {
            host: Session::new(ssrc, name),
            joined: SsrcList::new(alloc),
        }
    }

    // A message is answered.
    fn say(
        &mut self,
        port: PortKind,
        from: Addr,
        message: &Message,
        now: u64,
    ) -> Result<Change, AllocError>
        ensures { IfOk result (λ change. (self.new, change) ≡ said_by (step self.old.host (has_room_for message.now self.old.joined) port from message.now now) self.old) }
    {
        let room = has_room_for(message, &self.joined);
        let Answer { reply: _, act } = self.host.on_message(room, port, from, message, now);
        carry_out(act, &mut self.joined)
    }

    /// Follows a step that was taken, and tells who joins or leaves by it. At `Err` there was no memory for one more.
    pub fn follow(&mut self, step: &Step) -> Result<Change, AllocError>
        ensures { IfOk result (λ change. (self.new, change) ≡ followed self.old step.now) }
    {
        match step {
            Step::Join { ssrc } => {
                self.joined.add(*ssrc)?;
                Ok(Change::Joins)
            }
            Step::Leave { ssrc } => {
                self.joined.remove(*ssrc);
                self.host.drop_peer(*ssrc);
                Ok(Change::Leaves)
            }
            Step::Say {
                port,
                from,
                message,
                now,
            } => self.say(*port, *from, message, *now),
            Step::Enter
            | Step::Play { .. }
            | Step::Cut { .. }
            | Step::Ack { .. }
            | Step::Hear { .. }
            | Step::Feedback => Ok(Change::Neither),
        }
    }
}
