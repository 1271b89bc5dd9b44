//! The latest value of each controller, by the order in which they were sent.

ghost use Rattle.std.specs.Prelude.{ℕ, ◌≡◌, ◌<◌, ◌≤◌, ◌==◌, if◌then◌else◌, true, false, not, [], ◌∷◌, Some, MatchOption, length, filter, slice_index};
ghost use Rattle.jm_recency.specs.Recency.{holds, without, since_stamp, AreUpTo, from_key, IsAtKey};
ghost use Rattle.jm_cmds.specs.Control.{is_entry};
ghost use Rattle.jm_cmds.specs.KeptItem.{kept_since};
ghost use Rattle.ch_control.specs.declared.events.ControlEvent.TheVariants.{Set};
ghost use Rattle.ch_control.specs.ControlEvent.{is_kept, IsWithin};
ghost use Rattle.std.specs.List.{list_any};
ghost use Rattle.jm_wire.specs.Octets.{Appends};
ghost use Rattle.jm_cmds.specs.KeptItem.{kept_fresh};
ghost use Rattle.jm_chapter.specs.Logs.{logs_in};
ghost use Rattle.ch_control.specs.Counts.{IsSession};
ghost use Rattle.ch_control.specs.ControlTable.{AreKeptUpTo, controls_in, kept_noted, logs_of, logs_count, kept_texts, twin_of, left_by_121};

use crate::events::ControlEvent;
use crate::session::Session;
use jm_chapter::{PlaceLogs, Tally};
use jm_cmds::{D7, is_packet_before, s_of};
use jm_recency::Recency;
use jm_wire::Octets;

/// The controllers of a channel that a journal codes, each with its packet and its value. Of the two numbers of an item
/// one at most is there.
#[derive(Debug, Drop)]
pub(crate) struct Latest {
    /// The numbers with their packets, the one that was sent longest ago first.
    pub(crate) order: Recency<128>,
    /// The value of each number that is there.
    pub(crate) values: [D7; 128],
}

/// A controller of a walk along the kept ones.
#[derive(Clone, Copy, Drop)]
struct Visit {
    packet: u64,
    logs: PlaceLogs,
    /// The one behind it.
    next: Option<u16>,
}

/// The other number of the same item, or the number itself where there is none.
fn twin_of(number: u16) -> u16
    ensures { result ≡ twin_of number }
{
    match number {
        124 => 125,
        125 => 124,
        126 => 127,
        127 => 126,
        other => other,
    }
}

/// Whether Control 121 leaves this controller.
#[tactic(auto, unfolding(crate::specs::ControlEvent::is_kept))]
fn is_left(number: u16) -> bool
    ensures { result ≡ is_kept number }
{
    matches!(number, 0 | 32 | 120..)
}

/// The first controller that Control 121 sets back.
#[tactic(auto, using(crate::proofs::LatestLaws::set_back_step, crate::proofs::LatestLaws::fewer))]
fn first_set_back(order: &Recency<128>) -> Option<u16>
    ensures { MatchOption result (left_by_121 order.now ≡ order.now)
        (λ k. (left_by_121 (without k order.now) ≡ left_by_121 order.now)
        × (length (without k order.now) < length order.now)) }
{
    let mut at = order.first();
    while let Some(k) = at {
        if !is_left(k) {
            return Some(k);
        }
        let (_, next) = order.visit(k);
        at = next;
    }
    None
}

/// Takes out what Control 121 sets back. Of what stays there are eight at most, so it takes the time of what goes.
fn set_back(order: &mut Recency<128>)
    ensures { order.new ≡ left_by_121 order.old }
{
    while let Some(k) = first_set_back(order) {
        order.drop_key(k);
    }
}

impl Latest {
    /// No controller.
    pub(crate) fn none() -> Latest
        ensures { result.order ≡ [] }
    {
        let values = [D7::low(0); 128];
        Latest {
            order: Recency::new(),
            values,
        }
    }

    /// Takes out what a control of this number ends.
    fn end(&mut self, number: u16)
        ensures order { self.new.order ≡ without (twin_of number) (if number == 121 then left_by_121 self.old.order else self.old.order) }
        ensures values { self.new.values ≡ self.old.values }
    {
        if number == 121 {
            set_back(&mut self.order);
        }
        self.order.drop_key(twin_of(number));
    }

    /// One control more, which none of what is there goes out behind.
    #[tactic(auto, using(crate::proofs::LatestLaws::ended_up_to, crate::proofs::LatestLaws::controls_set, crate::proofs::LatestLaws::set_apart))]
    fn set(&mut self, number: D7, value: D7, packet: u64)
        requires order { AreUpTo packet self.old.order }
        requires within { is_entry number ≡ false }
        requires apart { holds 6 self.old.order ≡ false }
        ensures kept { controls_in self.new.values self.new.order
            ≡ kept_noted (Set number value) packet (controls_in self.old.values self.old.order) }
        ensures apart { holds 6 self.new.order ≡ false }
    {
        let key = number.get() as u16;
        self.end(key);
        self.order.touch(key, packet);
        self.values[number.get() as usize] = value;
    }
    /// One event more, which none of what is there goes out behind.
    #[tactic(auto, using(crate::proofs::LatestLaws::stamps_up_to))]
    pub(crate) fn note(&mut self, event: &ControlEvent, packet: u64)
        requires order { AreKeptUpTo packet (controls_in self.old.values self.old.order) }
        requires within { IsWithin event.now }
        requires apart { holds 6 self.old.order ≡ false }
        ensures kept { controls_in self.new.values self.new.order
            ≡ kept_noted event.now packet (controls_in self.old.values self.old.order) }
        ensures apart { holds 6 self.new.order ≡ false }
    {
        match event {
            ControlEvent::Set { number, value } => self.set(*number, *value, packet),
            ControlEvent::Dropped => self.order.clear(),
            ControlEvent::Other => {}
        }
    }

    /// Lets go what is of a packet before this one.
    pub(crate) fn cut(&mut self, packet: u64)
        requires { holds 6 self.old.order ≡ false }
        ensures kept { controls_in self.new.values self.new.order ≡ kept_since packet (controls_in self.old.values self.old.order) }
        ensures apart { holds 6 self.new.order ≡ false }
    {
        self.order.trim(packet);
    }

    /// The controller at which a walk is.
    fn visit(&self, k: u16, session: &Session) -> Visit
        requires key { holds k self.now.order ≡ true }
        requires session { IsSession session.now }
        ensures here { from_key self.now.order (Some k) ≡ (k, result.packet) ∷ from_key self.now.order result.next }
        ensures at { IsAtKey self.now.order result.next }
        ensures logs { logs_in result.logs ≡ logs_of session.now.counts session.now.pedal.toggles (Set k (slice_index self.now.values k)) }
    {
        prove!(self.order.holds(k));
        let (packet, next) = self.order.visit(k);
        let number = D7::low((k % 128) as u8);
        let logs = session.logs(number, self.values[number.get() as usize]);
        Visit { packet, logs, next }
    }

    /// How many logs there are, and whether one is of the packet before.
    pub(crate) fn tally(&self, session: &Session, packet: u64) -> Tally
        requires session { IsSession session.now }
        requires apart { holds 6 self.now.order ≡ false }
        ensures logs { result.logs ≡ logs_count session.now.counts session.now.pedal.toggles (controls_in self.now.values self.now.order) }
        ensures fresh { result.fresh ≡ list_any (kept_fresh packet) (controls_in self.now.values self.now.order) }
        ensures few { result.logs ≤ 128 }
    {
        // For the prover, which learns the keys' bound by this.
        let _ = self.order.len();
        let mut logs = 0usize;
        let mut fresh = false;
        let mut at = self.order.first();
        while let Some(k) = at {
            let visit = self.visit(k, session);
            logs += visit.logs.len();
            fresh = fresh || is_packet_before(visit.packet, packet);
            at = visit.next;
        }
        Tally { logs, fresh }
    }

    /// Appends the logs.
    pub(crate) fn write_logs(&self, session: &Session, packet: u64, out: &mut Octets)
        requires session { IsSession session.now }
        requires spare { length (kept_texts session.now.counts session.now.pedal.toggles packet (controls_in self.now.values self.now.order)) ≤ out.old.spare }
        ensures { Appends out.old out.new (kept_texts session.now.counts session.now.pedal.toggles packet (controls_in self.now.values self.now.order)) }
    {
        let mut at = self.order.first();
        while let Some(k) = at {
            let visit = self.visit(k, session);
            visit
                .logs
                .write(s_of(is_packet_before(visit.packet, packet)), out);
            at = visit.next;
        }
    }
}
