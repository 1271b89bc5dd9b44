//! The table of Chapter W.

ghost use Rattle.std.specs.Prelude.{ℕ, ◌≡◌, ◌+◌, ◌<◌, ◌≤◌, List, [], ◌∷◌, ◌++◌, length};
ghost use Rattle.std.specs.List.{list_any, AllByRecursion};
ghost use Rattle.jm_wire.specs.Octets.{Appends};
ghost use Rattle.jm_cmds.specs.declared.history.Sent.{Sent};
ghost use Rattle.jm_cmds.specs.Channels.{own_channel, IsForChannel};
ghost use Rattle.jm_cmds.specs.KeptItem.{kept_fresh, kept_since};
ghost use Rattle.jm_cmds.specs.Sent.{packet_of};
ghost use Rattle.ch_voice.specs.WheelEvent.{wheel_event};
ghost use Rattle.ch_voice.specs.ChapterW.{chapter_w, fresh_w};
ghost use Rattle.ch_voice.specs.WheelTable.{wheel_kept, wheel_noted, wheel_text};

use crate::events::{WheelEvent, wheel_event};
use crate::w::{log_len, write_wheel_log};
use jm_cmds::{Command, is_packet_before, s_of};
use jm_wire::Octets;
use std::marker::Model;

/// What Chapter W needs of a channel's history since the checkpoint: the move of the wheel that is coded.
///
/// The plain functions of [`crate::w`] tell the same of a list of all commands. A table serves one channel;
/// each call takes constant time and no memory.
#[derive(Debug, Drop)]
pub struct WheelTable {
    /// The packet and the move.
    kept: Option<(u64, WheelEvent)>,
}

impl Model for WheelTable {
    ghost use Rattle.std.specs.Prelude.{List, ℕ};
    ghost use Rattle.std.specs.Option.{option_to_list};
    ghost use Rattle.ch_voice.specs.declared.events.WheelEvent.{WheelEvent as WheelMove};

    ghost Value = { List (ℕ × WheelMove) };

    ghost view = { λ t. option_to_list t.kept };
}

impl WheelTable {
    /// The table of no command, with checkpoint 0.
    pub fn new() -> Self
        ensures empty { result ≡ [] }
        ensures stands { (channel : ℕ) → result ≡ wheel_kept channel 0 [] }
    {
        WheelTable { kept: None }
    }

    /// Notes one command more: it is of the table's channel or of none, and goes out in this packet, which
    /// isn't before the checkpoint. `tick` isn't looked at; each table takes it.
    pub fn note(&mut self, command: &Command, packet: u64, tick: u64)
        ensures change { self.new ≡ wheel_noted (wheel_event (own_channel command.now) command.now) packet self.old }
        ensures stands { (channel from : ℕ) (sent : List Sent) → self.old ≡ wheel_kept channel from sent
            → IsForChannel channel command.now → from ≤ packet
            → self.new ≡ wheel_kept channel from (sent ++ record { packet = packet; tick = tick; command = command.now } ∷ []) }
    {
        let _ = tick;
        self.change(wheel_event(command, command.own_channel()), packet);
    }

    /// One event more.
    fn change(&mut self, event: WheelEvent, packet: u64)
        ensures { self.new ≡ wheel_noted event packet self.old }
    {
        match event {
            WheelEvent::Moved { .. } => self.kept = Some((packet, event)),
            WheelEvent::Cleared => self.kept = None,
            WheelEvent::Other => {}
        }
    }

    /// Sets the checkpoint to this packet, which isn't before the present one.
    pub fn trim(&mut self, packet: u64)
        ensures change { self.new ≡ kept_since packet self.old }
        ensures stands { (channel from : ℕ) (sent : List Sent) → self.old ≡ wheel_kept channel from sent
            → from ≤ packet → self.new ≡ wheel_kept channel packet sent }
    {
        self.cut(packet);
    }

    /// Lets go what is of a packet before this one.
    fn cut(&mut self, packet: u64)
        ensures { self.new ≡ kept_since packet self.old }
    {
        if let Some((sent_in, _)) = self.kept {
            if sent_in < packet {
                self.kept = None;
            }
        }
    }

    /// The number of Chapter W's octets in the journal of this packet, which is past each noted one: 2, or 0
    /// where the wheel isn't coded.
    pub fn len(&self, packet: u64, tick: u64) -> usize
        ensures number { result ≡ length (wheel_text packet self.now) }
        ensures bound { result ≤ 2 }
        ensures stands { (channel from : ℕ) (sent : List Sent) → self.now ≡ wheel_kept channel from sent
            → AllByRecursion (λ place. packet_of place < packet) sent → result ≡ length (chapter_w channel from packet sent) }
    {
        let _ = tick;
        self.text_len(packet)
    }

    /// The number of the octets of what is kept.
    fn text_len(&self, packet: u64) -> usize
        ensures number { result ≡ length (wheel_text packet self.now) }
        ensures bound { result ≤ 2 }
    {
        let _ = packet;
        match self.kept {
            None => 0,
            Some((_, event)) => log_len(&event),
        }
    }

    /// Appends Chapter W for the journal of this packet, which is past each noted one. `out` has room for
    /// [`WheelTable::len`] octets.
    pub fn write(&self, packet: u64, tick: u64, out: &mut Octets)
        requires { length (wheel_text packet self.now) ≤ out.old.spare }
        ensures text { Appends out.old out.new (wheel_text packet self.now) }
        ensures stands { (channel from : ℕ) (sent : List Sent) → self.now ≡ wheel_kept channel from sent
            → AllByRecursion (λ place. packet_of place < packet) sent → Appends out.old out.new (chapter_w channel from packet sent) }
    {
        let _ = tick;
        self.write_text(packet, out);
    }

    /// Appends the octets of what is kept.
    fn write_text(&self, packet: u64, out: &mut Octets)
        requires { length (wheel_text packet self.now) ≤ out.old.spare }
        ensures { Appends out.old out.new (wheel_text packet self.now) }
    {
        if let Some((sent_in, event)) = self.kept {
            write_wheel_log(s_of(is_packet_before(sent_in, packet)), &event, out);
        }
    }

    /// Whether the S bit of the chapter in the journal of this packet is 0.
    pub fn fresh(&self, packet: u64) -> bool
        ensures test { result ≡ list_any (kept_fresh packet) self.now }
        ensures stands { (channel from : ℕ) (sent : List Sent) → self.now ≡ wheel_kept channel from sent
            → AllByRecursion (λ place. packet_of place < packet) sent → result ≡ fresh_w channel from packet sent }
    {
        self.is_fresh(packet)
    }

    /// Whether what is kept is of the packet before.
    fn is_fresh(&self, packet: u64) -> bool
        ensures { result ≡ list_any (kept_fresh packet) self.now }
    {
        match self.kept {
            None => false,
            Some((sent_in, _)) => is_packet_before(sent_in, packet),
        }
    }

    /// Makes the content that of `other`.
    pub fn copy_from(&mut self, other: &Self)
        ensures { self.new ≡ other.now }
    {
        self.kept = other.kept;
    }
}
