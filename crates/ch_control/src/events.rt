//! What a command means for the controllers of one channel.

ghost use Rattle.std.specs.Prelude.{◌≡◌, ◌+◌, ◌%◌, ◌<◌, ◌∷◌, []};
ghost use Rattle.jm_chapter.specs.Logs.{logs_in};
ghost use Rattle.ch_control.specs.ControlEvent.{item_of, is_kept, control_event, IsWithin, event_ends, control_ends, is_control, control_count, value_field};
ghost use Rattle.ch_control.specs.ChapterC.{set_logs, event_logs};

use jm_chapter::{Items, Log, PlaceLogs};
use jm_cmds::{Channel, Command, D7, Sent, is_counted, is_entry, pedal_after};

/// What a command means for the controllers of one channel.
#[derive(Clone, Copy, PartialEq, Eq, Debug)]
pub enum ControlEvent {
    /// A controller takes a value. It is none of 6 and 38, of which Chapter M speaks.
    Set { number: D7, value: D7 },
    /// All controllers are dropped.
    Dropped,
    /// Nothing.
    Other,
}

/// The item of a controller: its number, but 124 and 125 are one item, and so are 126 and 127
/// (RFC 6295, A.3.1).
#[tactic(auto, unfolding(crate::specs::ControlEvent::item_of))]
fn item_of(number: D7) -> u8
    ensures { result ≡ item_of number }
{
    match number.get() {
        125 => 124,
        127 => 126,
        other => other,
    }
}

/// Whether Control 121 leaves it as it is: 0, 32 and 120 to 127. That these are coded while they are active,
/// and all others while they are C-active (RFC 6295, A.1), is this project's own choice.
#[tactic(auto, unfolding(crate::specs::ControlEvent::is_kept))]
fn is_kept(number: D7) -> bool
    ensures { result ≡ is_kept number }
{
    matches!(number.get(), 0 | 32 | 120..)
}

/// What this command means for the controllers of this channel.
pub fn control_event(command: &Command, channel: Channel) -> ControlEvent
    ensures event { result ≡ control_event channel command.now }
    ensures within { IsWithin result }
{
    match command {
        Command::Control {
            channel: at,
            number,
            value,
        } => {
            if *at == channel && !is_entry(*number) {
                // For the prover, which learns its range by this.
                let _number = number.get();
                return ControlEvent::Set {
                    number: *number,
                    value: *value,
                };
            }
            ControlEvent::Other
        }
        _ => {
            if command.is_reset() {
                return ControlEvent::Dropped;
            }
            ControlEvent::Other
        }
    }
}

/// Whether the later event takes the place of the earlier one, or makes it inactive.
fn event_ends(earlier: &ControlEvent, later: &ControlEvent) -> bool
    ensures { result ≡ event_ends earlier.now later.now }
{
    let number = match earlier {
        ControlEvent::Set { number, .. } => *number,
        ControlEvent::Dropped | ControlEvent::Other => return false,
    };
    match later {
        ControlEvent::Set { number: other, .. } => {
            item_of(number) == item_of(*other) || other.get() == 121 && !is_kept(number)
        }
        ControlEvent::Dropped => true,
        ControlEvent::Other => false,
    }
}

/// The controllers of a channel, as items: the last command of each item that is active stands.
#[derive(Clone, Copy)]
pub(crate) struct Controls {
    pub(crate) channel: Channel,
}

impl Items for Controls {
    ghost ends = { λ s. control_ends s.channel };

    fn is_ended(&self, place: &Sent, later: &Sent) -> bool {
        let event = control_event(&place.command, self.channel);
        event_ends(&event, &control_event(&later.command, self.channel))
    }
}

/// Whether this event is of this controller.
fn is_control(event: &ControlEvent, number: D7) -> bool
    ensures { result ≡ is_control number event.now }
{
    match event {
        ControlEvent::Set { number: other, .. } => *other == number,
        ControlEvent::Dropped | ControlEvent::Other => false,
    }
}

/// The number of commands of this controller of the channel in the session, modulo 64.
fn count_of(session: &[Sent], channel: Channel, number: D7) -> u8
    ensures count { result ≡ control_count channel number session.now % 64 }
    ensures bound { result < 64 }
{
    let mut count = 0usize;
    for place in session {
        if is_control(&control_event(&place.command, channel), number) {
            count += 1;
        }
    }
    (count % 64) as u8
}

/// The second octet of a controller's log: 0 and the value, or 1, 1 and the count (RFC 6295, A.3.2). Which
/// controllers are counted, over the whole session, is this project's own choice.
fn value_field(session: &[Sent], channel: Channel, number: D7, value: D7) -> u8
    ensures { result ≡ value_field channel session.now number value }
{
    if is_counted(number) {
        return 192 + count_of(session, channel, number);
    }
    value.get()
}

/// The logs of a controller with this value: the value or the count, and behind that of Control 64, the
/// sustain pedal, 1, 0 and its toggles (RFC 6295, A.3.2 and A.3.3). That Control 64 is told by both is this
/// project's own choice.
fn set_logs(number: D7, value: D7, session: &[Sent], channel: Channel) -> PlaceLogs
    ensures { logs_in result ≡ set_logs channel session.now number value }
{
    let field = value_field(session, channel, number, value);
    let log = Log { number, field };
    if number.get() == 64 {
        let field = 128 + pedal_after(session, channel).toggles;
        return PlaceLogs::Two(log, Log { number, field });
    }
    PlaceLogs::One(log)
}

/// The logs of this event of the session.
pub(crate) fn event_logs(event: ControlEvent, session: &[Sent], channel: Channel) -> PlaceLogs
    ensures { logs_in result ≡ event_logs channel session.now event }
{
    match event {
        ControlEvent::Set { number, value } => set_logs(number, value, session, channel),
        ControlEvent::Dropped | ControlEvent::Other => PlaceLogs::Empty,
    }
}
