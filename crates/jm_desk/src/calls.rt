//! The nine calls of a desk.

ghost use Rattle.std.specs.Prelude.{◌≡◌, ◌≤◌, false, [], length, IsTrue, IfOk, IfErr, if◌then◌else◌};
ghost use Rattle.jm_wire.specs.Octets.{Appends};
ghost use Rattle.jm_book.specs.Session.{session_of};
ghost use Rattle.jm_book.specs.Packet.{packet_of};
ghost use Rattle.jm_book.specs.Answers.{is_packet, is_given};
ghost use Rattle.jm_book.specs.Book.{IsReady, Takes};
ghost use Rattle.jm_book.specs.BookAnswers.{cut_answer, feedback_list, address_list};
ghost use Rattle.jm_desk.specs.History.{steps_before};
ghost use Rattle.jm_desk.specs.Sharing.{IsOf, MakesTurn, outcome_of, last_place, config_of, is_sent, is_given_out};

use crate::desk::Desk;
use crate::pass::Pass;
use crate::turn::{Outcome, Turned, Unplayed};
use apple_msg::Message;
use apple_session::PortKind;
use jm_book::{
    Acked, AddrList, Book, Cutted, Entered, FeedbackList, Given, Gone, Heard, Joined, Played, Said,
    Step,
};
use jm_cmds::Command;
use jm_edge::Addr;
use jm_wire::Octets;
use std::alloc::AllocError;
use std::snapshot::Snapshot;
use std::sync::Wait;

// Each call waits for its turn, and is one turn. At `Err` there was no memory for one more step: that was the turn,
// and the book is as it was.
impl Desk {
    /// A local player enters. Players have the numbers 0, 1 and so on.
    pub fn enter<R: Wait>(&self, rt: &R, pass: &mut Pass) -> Result<Turned<Entered>, AllocError>
        requires { IsOf self.now pass.old }
        ensures own { IsOf self.now pass.new }
        ensures turn { MakesTurn self.now pass.old pass.new Step.Enter (outcome_of Outcome.Entered result) }
        ensures at { IfOk result (λ t. t.at ≡ last_place pass.new) }
    {
        let call = Snapshot::of(&Step::Enter);
        let mut held = self.begin(rt, &mut pass.pass, &call)?;
        let answer = held.book.enter();
        Ok(self.end(&mut pass.pass, held, &call, answer))
    }
}

impl Desk {
    /// A player's command, at this tick in units of 100 microseconds, becomes pending. A refused command is handed
    /// back, and so it is where there is no memory for one more step.
    pub fn play<R: Wait>(
        &self,
        rt: &R,
        pass: &mut Pass,
        player: u8,
        command: Command,
        tick: u64,
    ) -> Result<Turned<Played>, Unplayed>
        requires { IsOf self.now pass.old }
        ensures own { IsOf self.now pass.new }
        ensures turn { MakesTurn self.now pass.old pass.new (Step.Play player command tick) (outcome_of Outcome.Played result) }
        ensures at { IfOk result (λ t. t.at ≡ last_place pass.new) }
        ensures back { IfErr result (λ unplayed. unplayed.command ≡ command) }
    {
        let (call, command) = play_call(player, command, tick);
        match self.begin(rt, &mut pass.pass, &call) {
            Err(_) => Err(Unplayed { command }),
            Ok(held) => {
                let mut held = held;
                let answer = held.book.play(player, command, tick);
                Ok(self.end(&mut pass.pass, held, &call, answer))
            }
        }
    }

    /// All pending commands become the next packet, whose octets are put into `out`, at most 21,099 of them, and the
    /// addresses to which it goes into `to`. `tick` is in units of 100 microseconds. Where there is no packet both are
    /// as they were.
    pub fn cut<R: Wait>(
        &self,
        rt: &R,
        pass: &mut Pass,
        tick: u64,
        out: &mut Octets,
        to: &mut AddrList,
    ) -> Result<Turned<Cutted>, AllocError>
        requires own { IsOf self.now pass.old }
        requires empty { out.old.octets ≡ [] }
        requires room { 21100 ≤ out.old.spare }
        ensures own { IsOf self.now pass.new }
        ensures turn { MakesTurn self.now pass.old pass.new (Step.Cut tick) (outcome_of Outcome.Cut result) }
        ensures at { IfOk result (λ t. t.at ≡ last_place pass.new) }
        ensures packet { IsTrue (is_sent result) → Appends out.old out.new (packet_of (session_of (config_of self.now) (steps_before pass.new.view.seen)) tick) }
        ensures addresses { IsTrue (is_sent result) → to.new ≡ address_list (config_of self.now) (steps_before pass.new.view.seen) }
        ensures none { is_sent result ≡ false → (out.new ≡ out.old) × (to.new ≡ to.old) }
        ensures bound { length out.new.octets ≤ 21099 }
    {
        let call = Snapshot::of(&Step::Cut { tick });
        let mut held = self.begin(rt, &mut pass.pass, &call)?;
        let answer = cut_with_addresses(&mut held.book, tick, out, to);
        Ok(self.end(&mut pass.pass, held, &call, answer))
    }

    /// A participant reports the low 16 bits of the last packet that it received, which moves its mark up to that
    /// packet.
    pub fn ack<R: Wait>(
        &self,
        rt: &R,
        pass: &mut Pass,
        ssrc: u32,
        seq: u16,
    ) -> Result<Turned<Acked>, AllocError>
        requires { IsOf self.now pass.old }
        ensures own { IsOf self.now pass.new }
        ensures turn { MakesTurn self.now pass.old pass.new (Step.Ack ssrc seq) (outcome_of Outcome.Acked result) }
        ensures at { IfOk result (λ t. t.at ≡ last_place pass.new) }
    {
        let call = Snapshot::of(&Step::Ack { ssrc, seq });
        let mut held = self.begin(rt, &mut pass.pass, &call)?;
        let answer = held.book.ack(ssrc, seq);
        Ok(self.end(&mut pass.pass, held, &call, answer))
    }

    /// A participant joins. Its mark is the last packet that was sent, or 0 where none was sent.
    pub fn join<R: Wait>(
        &self,
        rt: &R,
        pass: &mut Pass,
        ssrc: u32,
    ) -> Result<Turned<Joined>, AllocError>
        requires { IsOf self.now pass.old }
        ensures own { IsOf self.now pass.new }
        ensures turn { MakesTurn self.now pass.old pass.new (Step.Join ssrc) (outcome_of Outcome.Joined result) }
        ensures at { IfOk result (λ t. t.at ≡ last_place pass.new) }
    {
        let call = Snapshot::of(&Step::Join { ssrc });
        let mut held = self.begin(rt, &mut pass.pass, &call)?;
        let answer = held.book.join(ssrc);
        Ok(self.end(&mut pass.pass, held, &call, answer))
    }

    /// A participant leaves, and its peer is dropped.
    pub fn leave<R: Wait>(
        &self,
        rt: &R,
        pass: &mut Pass,
        ssrc: u32,
    ) -> Result<Turned<Gone>, AllocError>
        requires { IsOf self.now pass.old }
        ensures own { IsOf self.now pass.new }
        ensures turn { MakesTurn self.now pass.old pass.new (Step.Leave ssrc) (outcome_of Outcome.Gone result) }
        ensures at { IfOk result (λ t. t.at ≡ last_place pass.new) }
    {
        let call = Snapshot::of(&Step::Leave { ssrc });
        let mut held = self.begin(rt, &mut pass.pass, &call)?;
        let answer = held.book.leave(ssrc);
        Ok(self.end(&mut pass.pass, held, &call, answer))
    }

    /// The host received the participant's own packet with these low 16 bits of its number, which are kept until a
    /// later one comes or the participant leaves.
    pub fn hear<R: Wait>(
        &self,
        rt: &R,
        pass: &mut Pass,
        ssrc: u32,
        seq: u16,
    ) -> Result<Turned<Heard>, AllocError>
        requires { IsOf self.now pass.old }
        ensures own { IsOf self.now pass.new }
        ensures turn { MakesTurn self.now pass.old pass.new (Step.Hear ssrc seq) (outcome_of Outcome.Heard result) }
        ensures at { IfOk result (λ t. t.at ≡ last_place pass.new) }
    {
        let call = Snapshot::of(&Step::Hear { ssrc, seq });
        let mut held = self.begin(rt, &mut pass.pass, &call)?;
        let answer = held.book.hear(ssrc, seq);
        Ok(self.end(&mut pass.pass, held, &call, answer))
    }

    /// Puts into `out` what is to be reported to the joined peers, in their order. Where it isn't given, `out` is as it
    /// was.
    pub fn feedback<R: Wait>(
        &self,
        rt: &R,
        pass: &mut Pass,
        out: &mut FeedbackList,
    ) -> Result<Turned<Given>, AllocError>
        requires { IsOf self.now pass.old }
        ensures own { IsOf self.now pass.new }
        ensures turn { MakesTurn self.now pass.old pass.new Step.Feedback (outcome_of Outcome.Given result) }
        ensures at { IfOk result (λ t. t.at ≡ last_place pass.new) }
        ensures list { out.new ≡ (if is_given_out result then feedback_list (config_of self.now) (steps_before pass.new.view.seen) else out.old) }
    {
        let call = Snapshot::of(&Step::Feedback);
        let mut held = self.begin(rt, &mut pass.pass, &call)?;
        let answer = held.book.feedback(out);
        Ok(self.end(&mut pass.pass, held, &call, answer))
    }

    /// Answers a message that came to `port` from `from` at the moment `now`, in units of 100 microseconds.
    pub fn say<R: Wait>(
        &self,
        rt: &R,
        pass: &mut Pass,
        port: PortKind,
        from: Addr,
        m: &Message,
        now: u64,
    ) -> Result<Turned<Said>, AllocError>
        requires { IsOf self.now pass.old }
        ensures own { IsOf self.now pass.new }
        ensures turn { MakesTurn self.now pass.old pass.new (Step.Say port from m.now now) (outcome_of Outcome.Said result) }
        ensures at { IfOk result (λ t. t.at ≡ last_place pass.new) }
    {
        let call = Snapshot::of(&Step::Say {
            port,
            from,
            message: m.copy(),
            now,
        });
        let mut held = self.begin(rt, &mut pass.pass, &call)?;
        let answer = held.book.say(port, from, m, now);
        Ok(self.end(&mut pass.pass, held, &call, answer))
    }
}

// The call that plays this command, which is given back.
fn play_call(player: u8, command: Command, tick: u64) -> (Snapshot<Step>, Command)
    ensures call { result.0.value ≡ Step.Play player command tick }
    ensures same { result.1 ≡ command }
{
    let call = Step::Play {
        player,
        command,
        tick,
    };
    let told = Snapshot::of(&call);
    match call {
        Step::Play { command, .. } => (told, command),
        _ => unreachable!(),
    }
}

// Cuts, and puts into `to` where the packet goes.
fn cut_with_addresses(book: &mut Book, tick: u64, out: &mut Octets, to: &mut AddrList) -> Cutted
    requires ready { IsReady book.old }
    requires empty { out.old.octets ≡ [] }
    requires room { 21100 ≤ out.old.spare }
    ensures answer { result ≡ cut_answer book.old.config book.old.steps }
    ensures taken { Takes book.old book.new (is_packet result) (Step.Cut tick) }
    ensures packet { IsTrue (is_packet result) → Appends out.old out.new (packet_of (session_of book.old.config book.old.steps) tick) }
    ensures addresses { IsTrue (is_packet result) → to.new ≡ address_list book.old.config book.old.steps }
    ensures refused { is_packet result ≡ false → (out.new ≡ out.old) × (to.new ≡ to.old) }
    ensures bound { length out.new.octets ≤ 21099 }
{
    let mut addresses = AddrList::new();
    book.addresses(&mut addresses);
    let answer = book.cut(tick, out);
    if let Cutted::Packet { .. } = answer {
        *to = addresses;
    }
    answer
}
