//! Messages of the session protocol: the machine of invitations answers them, and its acts are carried out on the
//! participants.

ghost use Rattle.std.specs.Prelude.{◌≡◌, ℕ, ◌<◌, true, false, length};
ghost use Rattle.apple_session.specs.declared.answer.Act.TheVariants.{Join, Ack};
ghost use Rattle.apple_session.specs.Conduct.{ssrc_of};
ghost use Rattle.jm_book.specs.Participants.{is_member};
ghost use Rattle.jm_book.specs.Members.{has_room_for, is_named_member, outcome_of, carried_out, said_outcome};
ghost use Rattle.jm_book.specs.Answers.{acted_of, said_of};

use crate::answers::{Acted, Said};
use crate::participants::{MOST_JOINED, Participants, SLOTS};
use crate::roster::{MOST_PLAYERS, Roster};
use apple_msg::Message;
use apple_session::laws::acts_tell;
use apple_session::{Act, Answer, PortKind};
use jm_edge::Addr;

/// The SSRC that a message names.
fn ssrc_of(m: &Message) -> Option<u32>
    ensures { result ≡ ssrc_of m.now }
{
    match m {
        Message::Invite { ssrc, .. }
        | Message::Accept { ssrc, .. }
        | Message::Reject { ssrc, .. }
        | Message::Bye { ssrc, .. }
        | Message::Clock { ssrc, .. }
        | Message::Feedback { ssrc, .. } => Some(*ssrc),
        Message::RateLimit => None,
    }
}

impl Participants {
    /// Whether who sent a message is joined.
    fn has_sender(&self, m: &Message) -> bool
        ensures { result ≡ is_named_member (ssrc_of m.now) self.now }
    {
        match ssrc_of(m) {
            Some(ssrc) => self.has(ssrc),
            None => false,
        }
    }

    /// Whether there is room for who sent a message.
    fn has_room_for(&self, m: &Message) -> bool
        ensures { result ≡ has_room_for m.now self.now }
    {
        self.has_sender(m) || self.len() < usize::from(MOST_JOINED)
    }

    /// Carries out what the machine of invitations asks for, where so many packets were sent. Who joins that has
    /// joined already, or leaves that isn't joined, changes nothing here.
    fn carry_out(&mut self, packets: u64, act: Act) -> Acted
        requires room { (ssrc : ℕ) → act ≡ Join ssrc → is_member ssrc self.old ≡ false → length self.old < SLOTS }
        requires known { (ssrc seq : ℕ) → act ≡ Ack ssrc seq → is_member ssrc self.old ≡ true }
        ensures answer { result ≡ acted_of packets self.old act }
        ensures after { self.new ≡ carried_out packets self.old act }
    {
        match act {
            Act::Plain => Acted::Plain,
            Act::Join(ssrc) => {
                if self.has(ssrc) {
                    return Acted::Plain;
                }
                let one = self.join(packets, ssrc);
                Acted::Joined {
                    mark: one.mark,
                    player: MOST_PLAYERS + one.slot,
                }
            }
            Act::Leave(ssrc) => {
                let was_joined = self.has(ssrc);
                self.remove(ssrc);
                if was_joined {
                    return Acted::Left;
                }
                Acted::Plain
            }
            Act::Ack { ssrc, seq } => {
                let Some(one) = self.find(ssrc) else {
                    unreachable!()
                };
                self.report(packets, one, seq).acted()
            }
            Act::Clocked { offset } => Acted::Clocked { offset },
            Act::Ignored(why) => Acted::Ignored(why),
        }
    }
}

impl Roster {
    /// Answers a message that came to `port` from `from` at the moment `now`, where so many packets were sent.
    pub(crate) fn say(
        &mut self,
        packets: u64,
        port: PortKind,
        from: Addr,
        m: &Message,
        now: u64,
    ) -> Said
        ensures answer { result ≡ said_of packets self.old.joined (outcome_of self.old port from m.now now) }
        ensures after { self.new ≡ said_outcome packets self.old (outcome_of self.old port from m.now now) }
    {
        // The law is called so that it is known here: who takes part joined and has not left.
        acts_tell();
        let room = self.joined.has_room_for(m);
        let Answer { reply, act } = self.host.on_message(room, port, from, m, now);
        let act = self.joined.carry_out(packets, act);
        Said::Done { reply, act }
    }
}
