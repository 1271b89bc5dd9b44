//! A player's commands: which are taken, and what the pending list is with one more.

ghost use Rattle.std.specs.Prelude.{◌≡◌, ◌+◌, ◌≤◌, ◌<◌, ◌^◌, ◌∷◌, ◌++◌, [], false, max, length, None, MatchOption, if◌then◌else◌};
ghost use Rattle.jm_cmds.specs.Sent.{packet_of as sent_packet};
ghost use Rattle.jm_cmds.specs.Command.{is_long};
ghost use Rattle.jm_cmds.specs.History.{InOrder};
ghost use Rattle.jm_section.specs.Section.{item_text};
ghost use Rattle.jm_journal.specs.Limits.{KeepsLimits, fit_of};
ghost use Rattle.jm_book.specs.Participants.{checkpoint_at};
ghost use Rattle.jm_book.specs.Answers.{is_kept, fit_refusal, what_of, is_behind_others, cut_refusal};
ghost use Rattle.jm_book.specs.Core.{next_delta, next_octets, core_refusal, core_played_as, is_core_accepted, with_octets_at, with_command, IsLongMessage, HasRoom};

use crate::answers::PlayFault;
use crate::keeper::{Core, LONGEST_LIST};
use crate::waiting::full_part;
use jm_cmds::{Command, Sent};
use jm_journal::{Fit, plain_fits};
use jm_section::{PartKind, Place, next_len, next_segment_len, segment_len, write_next};

/// How many commands may be pending.
const MOST_PENDING: usize = 256;

/// The widest delta that a field of four octets holds.
const WIDEST_DELTA: u64 = 0x0FFF_FFFF;

/// What a core answers to a play: that of a book, without the command.
#[derive(Clone, Copy, Debug, PartialEq, Eq)]
pub(crate) enum CorePlayed {
    Accepted { serial: u64, kept: bool },
    Refused { why: PlayFault },
}

/// Whether a command is kept for repair: a SysEx of over 254 data octets is not.
fn is_kept(command: &Command) -> bool
    ensures { result ≡ is_kept command.now }
{
    match command {
        Command::Sysex(message) => message.is_kept(),
        _ => true,
    }
}

/// Why a command doesn't fit behind others, if it doesn't.
fn fit_refusal(fit: Fit) -> Option<PlayFault>
    ensures { result ≡ fit_refusal fit }
{
    match fit {
        Fit::Yes => None,
        Fit::ParamsFull { channel, kept } => Some(PlayFault::ParamsFull { channel, kept }),
        Fit::PolyFull { channel, kept } => Some(PlayFault::PolyFull { channel, kept }),
        Fit::SysexFull { logs, octets } => Some(PlayFault::SysexFull { logs, octets }),
    }
}

/// The data octets of a long command.
fn long_message(command: &Command) -> Option<&[u8]>
    ensures { MatchOption result (is_long command.now ≡ false) (λ octets. IsLongMessage command.now octets.now) }
{
    match command {
        Command::Sysex(message) => {
            if message.is_long() {
                return Some(message.as_slice());
            }
            None
        }
        _ => None,
    }
}

/// How many octets a command, or a long one's first segment, adds to a MIDI list.
#[tactic(auto, using(crate::proofs::Listing::whole_item, crate::proofs::Listing::long_item, crate::proofs::Listing::part_few))]
fn listed_len(place: Place, delta: u64, command: &Command) -> usize
    ensures value { result ≡ length (item_text place record { delta = delta; what = what_of command.now }) }
    ensures bound { result ≤ 2052 }
{
    match long_message(command) {
        Some(octets) => next_segment_len(place, delta, PartKind::First, full_part(octets)),
        None => next_len(place, delta, command),
    }
}

impl Core {
    /// Whether a command fits behind these, were they all sent.
    fn fit_after(&self, commands: &[Sent], command: &Command) -> Fit
        requires order { InOrder sent_packet commands.now }
        requires limits { KeepsLimits (checkpoint_at self.now.packets self.now.members.joined) commands.now }
        ensures { result ≡ fit_of (checkpoint_at self.now.packets self.now.members.joined) commands.now command.now }
    {
        plain_fits(commands, self.checkpoint(), command)
    }

    /// The length of the MIDI list of what is pending and this command, or a long one's first segment.
    fn next_octets(&self, command: &Command, tick: u64) -> usize
        ensures value { result ≡ next_octets self.now command.now tick }
        ensures bound { result ≤ 8192 }
    {
        self.list.as_slice().len() + listed_len(self.place, self.next_delta(tick), command)
    }

    /// Why a cut has to come before a play where no segment waits, if it has to.
    fn list_refusal(&self, command: &Command, tick: u64) -> Option<PlayFault>
        ensures answer { result ≡ cut_refusal [] (is_behind_others command.now self.now.pending) self.now.pending (next_octets self.now command.now tick) (next_delta self.now tick) }
        ensures room { result ≡ None → HasRoom self.now command.now tick }
    {
        let pending = self.pending;
        let octets = self.next_octets(command, tick);
        let delta = self.next_delta(tick);
        let behind = command.is_long() && pending > 0;
        if behind || pending >= MOST_PENDING || octets > LONGEST_LIST || delta > WIDEST_DELTA {
            return Some(PlayFault::NeedsCut {
                pending,
                octets,
                delta,
            });
        }
        None
    }

    /// Why a cut has to come before a play, if it has to.
    #[tactic(auto, using(crate::proofs::Holding::none_waits, crate::proofs::Holding::one_waits))]
    fn cut_refusal(&self, command: &Command, tick: u64) -> Option<PlayFault>
        ensures answer { result ≡ cut_refusal self.now.waiting (is_behind_others command.now self.now.pending) self.now.pending (next_octets self.now command.now tick) (next_delta self.now tick) }
        ensures room { result ≡ None → HasRoom self.now command.now tick }
    {
        match self.unsent.next() {
            Some(segment) => Some(PlayFault::NeedsCut {
                pending: self.unsent.len(),
                octets: segment_len(segment.kind, segment.octets),
                delta: 0,
            }),
            None => self.list_refusal(command, tick),
        }
    }

    /// Why a play is refused, if it is. `commands` are all that were played before.
    fn refusal(
        &self,
        player: u8,
        command: &Command,
        tick: u64,
        commands: &[Sent],
        left: bool,
    ) -> Option<PlayFault>
        requires order { InOrder sent_packet commands.now }
        requires limits { KeepsLimits (checkpoint_at self.now.packets self.now.members.joined) commands.now }
        ensures answer { result ≡ core_refusal left self.now commands.now player command.now tick }
        ensures room { result ≡ None → HasRoom self.now command.now tick }
    {
        if !self.roster.is_known(player) {
            return Some(PlayFault::UnknownPlayer);
        }
        if !left {
            return Some(PlayFault::RecordFull {
                events: self.config.events,
            });
        }
        match fit_refusal(self.fit_after(commands, command)) {
            Some(why) => return Some(why),
            None => {}
        }
        self.cut_refusal(command, tick)
    }

    /// A command's octets join the MIDI list, or wait as segments where it is long.
    #[tactic(auto, using(crate::proofs::Listing::whole_item))]
    fn take_octets(&mut self, command: &Command, delta: u64)
        requires few { delta < 2 ^ 28 }
        requires room { length self.old.list + length (item_text self.old.place record { delta = delta; what = what_of command.now }) ≤ 4095 }
        ensures { self.new ≡ with_octets_at self.old command.now delta }
    {
        match long_message(command) {
            Some(octets) => self.unsent.begin(octets),
            None => self.place = write_next(self.place, delta as u32, command, &mut self.list),
        }
    }

    /// A player's command becomes pending: its octets join the MIDI list, or wait as segments where it is long. `commands`
    /// are all that were played before.
    pub(crate) fn play(
        &mut self,
        player: u8,
        command: &Command,
        tick: u64,
        commands: &[Sent],
        left: bool,
    ) -> CorePlayed
        requires few { self.old.plays < 2 ^ 62 }
        requires order { InOrder sent_packet commands.now }
        requires limits { KeepsLimits (checkpoint_at self.old.packets self.old.members.joined) commands.now }
        ensures answer { result ≡ core_played_as self.old.plays command.now (core_refusal left self.old commands.now player command.now tick) }
        ensures after { self.new ≡ (if is_core_accepted result then with_command self.old command.now tick else self.old) }
    {
        match self.refusal(player, command, tick, commands, left) {
            Some(why) => return CorePlayed::Refused { why },
            None => {}
        }
        let serial = self.plays;
        let delta = self.next_delta(tick);
        self.first = self.next_tick(tick);
        self.take_octets(command, delta);
        self.tick = self.tick.max(tick);
        self.pending += 1;
        self.plays += 1;
        CorePlayed::Accepted {
            serial,
            kept: is_kept(command),
        }
    }
}
