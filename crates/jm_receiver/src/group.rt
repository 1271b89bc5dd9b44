//! The order in which repair takes the logs of a channel.

ghost use Rattle.std.specs.Prelude.{◌≡◌};
ghost use Rattle.jm_receiver.specs.Group.{channel_in, is_of, control, note_of, command_of, all_groups, all_channels};

use jm_cmds::{Channel, Command, D7};
use jm_reader::LogKind;

/// Logs of a channel that are taken together. Groups are taken in this order, so that All Notes Off, which is a
/// controller, comes before the notes.
#[derive(Clone, Copy, PartialEq, Eq, Debug)]
pub(crate) enum Group {
    Programs,
    Params,
    Controls,
    Wheels,
    Released,
    Struck,
    Pressures,
    Polys,
}

/// The groups in their order.
#[tactic(auto, unfolding(crate::specs::Group::all_groups))]
pub(crate) fn all_groups() -> [Group; 8]
    ensures { result ≡ all_groups }
{
    [
        Group::Programs,
        Group::Params,
        Group::Controls,
        Group::Wheels,
        Group::Released,
        Group::Struck,
        Group::Pressures,
        Group::Polys,
    ]
}

/// The sixteen channels.
#[tactic(auto, unfolding(crate::specs::Group::all_channels))]
pub(crate) fn all_channels() -> [Channel; 16]
    ensures { result ≡ all_channels }
{
    [
        Channel::low(0),
        Channel::low(1),
        Channel::low(2),
        Channel::low(3),
        Channel::low(4),
        Channel::low(5),
        Channel::low(6),
        Channel::low(7),
        Channel::low(8),
        Channel::low(9),
        Channel::low(10),
        Channel::low(11),
        Channel::low(12),
        Channel::low(13),
        Channel::low(14),
        Channel::low(15),
    ]
}

/// The channel of a log of this group.
fn channel_in(group: &Group, log: &LogKind) -> Option<Channel>
    ensures { result ≡ channel_in group.now log.now }
{
    match group {
        Group::Programs => match log {
            LogKind::Program { channel, .. } => Some(*channel),
            _ => None,
        },
        Group::Params => match log {
            LogKind::Param { channel, .. } => Some(*channel),
            _ => None,
        },
        Group::Controls => match log {
            LogKind::Control { channel, .. } => Some(*channel),
            LogKind::Toggle { channel, .. } => Some(*channel),
            LogKind::Count { channel, .. } => Some(*channel),
            _ => None,
        },
        Group::Wheels => match log {
            LogKind::Wheel { channel, .. } => Some(*channel),
            _ => None,
        },
        Group::Released => match log {
            LogKind::NoteOff { channel, .. } => Some(*channel),
            _ => None,
        },
        Group::Struck => match log {
            LogKind::NoteOn { channel, .. } => Some(*channel),
            _ => None,
        },
        Group::Pressures => match log {
            LogKind::Pressure { channel, .. } => Some(*channel),
            _ => None,
        },
        Group::Polys => match log {
            LogKind::Poly { channel, .. } => Some(*channel),
            _ => None,
        },
    }
}

/// Whether the log is of this group and channel.
pub(crate) fn is_of(group: &Group, channel: Channel, log: &LogKind) -> bool
    ensures { result ≡ is_of group.now channel log.now }
{
    match channel_in(group, log) {
        Some(at) => at.get() == channel.get(),
        None => false,
    }
}

/// A controller takes a value.
fn control(channel: Channel, number: D7, value: D7) -> Command
    ensures { result ≡ control channel number value }
{
    Command::Control {
        channel,
        number,
        value,
    }
}

/// The command that the log of a note stands for. A released note has velocity 64.
fn note_of(log: &LogKind) -> Option<Command>
    ensures { result ≡ note_of log.now }
{
    match log {
        LogKind::NoteOff { channel, note } => Some(Command::NoteOff {
            channel: *channel,
            note: *note,
            velocity: D7::low(64),
        }),
        LogKind::NoteOn {
            channel,
            note,
            velocity,
            ..
        } => Some(Command::NoteOn {
            channel: *channel,
            note: *note,
            velocity: *velocity,
        }),
        LogKind::Poly {
            channel,
            note,
            value,
        } => Some(Command::PolyPressure {
            channel: *channel,
            note: *note,
            value: *value,
        }),
        _ => None,
    }
}

/// The command that a log stands for, if it is the log of a controller, the wheel, a note or a pressure. A log that counts
/// commands stands for its controller with value 0.
pub(crate) fn command_of(log: &LogKind) -> Option<Command>
    ensures { result ≡ command_of log.now }
{
    match log {
        LogKind::Control {
            channel,
            number,
            value,
        } => Some(control(*channel, *number, *value)),
        LogKind::Count {
            channel,
            number,
            ..
        } => Some(control(*channel, *number, D7::low(0))),
        LogKind::Wheel {
            channel,
            first,
            second,
        } => Some(Command::Wheel {
            channel: *channel,
            first: *first,
            second: *second,
        }),
        LogKind::Pressure { channel, value } => Some(Command::Pressure {
            channel: *channel,
            value: *value,
        }),
        _ => note_of(log),
    }
}
