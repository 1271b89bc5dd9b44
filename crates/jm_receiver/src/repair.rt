//! Repairing a state by the logs of a journal.

ghost use Rattle.std.specs.Prelude.{◌≡◌, ◌<◌};
ghost use Rattle.jm_cmds.specs.Control.{is_reset_message};
ghost use Rattle.jm_receiver.specs.Group.{command_of};
ghost use Rattle.jm_receiver.specs.Repair.{is_reset_log, has_reset, cleared, messages_ahead, is_ahead, counts, with_message, messages_repaired, with_session_log, session_repaired, high_entered, low_entered, applied_if, with_channel_log, with_log_of, group_repaired, channel_repaired, repaired};

use crate::group::{Group, all_channels, all_groups, command_of, is_of};
use jm_cmds::{Channel, D7, SequencerPart, TimePart, is_reset_message};
use jm_reader::{Log, LogKind};
use jm_state::{ProgramPart, State};

/// Whether this log makes all parts absent.
pub(crate) fn is_reset_log(log: &LogKind) -> bool
    ensures { result ≡ is_reset_log log.now }
{
    match log {
        LogKind::Reset { .. } => true,
        LogKind::Sysex { octets, .. } => is_reset_message(octets.as_slice()),
        _ => false,
    }
}

/// Whether one of these logs makes all parts absent.
pub(crate) fn has_reset(logs: &[Log]) -> bool
    ensures { result ≡ has_reset logs.now }
{
    for log in logs {
        if is_reset_log(&log.what) {
            return true;
        }
    }
    false
}

/// How many messages a log's number is ahead of the number that the state had before, modulo 256.
fn messages_ahead(before: u8, count: u8) -> u16
    ensures { result ≡ messages_ahead before count }
{
    (u16::from(count) + 256 - u16::from(before)) % 256
}

/// Whether a log's number is 1 to 128 ahead of the number that the state had before, modulo 256.
fn is_ahead(before: u8, count: u8) -> bool
    ensures { result ≡ is_ahead before count }
{
    let ahead = messages_ahead(before, count);
    1 <= ahead && ahead <= 128
}

/// Whether the log has a message that the state still has to count: where a reset is among the logs each, else one
/// whose number is ahead of the one that the state had before. That 128 are the most is this project's own rule.
pub(crate) fn counts(reset: bool, before: u8, log: &LogKind) -> bool
    ensures { result ≡ counts reset before log.now }
{
    match log {
        LogKind::Sysex { count, octets } => {
            !is_reset_message(octets.as_slice()) && (reset || is_ahead(before, *count))
        }
        _ => false,
    }
}

/// Counts the message of a log.
fn count_message(s: &mut State, reset: bool, before: u8, log: &Log)
    ensures { s.new ≡ with_message reset before s.old log.now }
{
    if counts(reset, before, &log.what) {
        s.set_sysex_count(s.sysex_count().wrapping_add(1));
    }
}

/// Counts the messages of the logs.
fn count_messages(s: &mut State, logs: &[Log])
    ensures { s.new ≡ messages_repaired logs.now s.old }
{
    let reset = has_reset(logs);
    let before = s.sysex_count();
    for log in logs {
        count_message(s, reset, before, log);
    }
}

/// Sets the part of the whole session that the log has.
fn set_session(s: &mut State, log: &LogKind)
    ensures { s.new ≡ with_session_log s.old log.now }
{
    match log {
        LogKind::Song { song } => s.set_song(Some(*song)),
        LogKind::Sequencer {
            running,
            downbeat,
            position,
        } => s.set_sequencer(Some(SequencerPart {
            running: *running,
            downbeat: *downbeat,
            position: *position % 524_288,
        })),
        LogKind::TimeCode {
            complete,
            partial,
            backward,
            point,
        } => s.set_time_code(Some(TimePart {
            complete: *complete,
            partial: *partial,
            backward: *backward,
            point: *point % 8,
        })),
        _ => {}
    }
}

/// Sets the parts of the whole session that the logs have.
fn set_sessions(s: &mut State, logs: &[Log])
    ensures { s.new ≡ session_repaired logs.now s.old }
{
    for log in logs {
        set_session(s, &log.what);
    }
}

/// Enters a high half of a parameter's value, where there is one.
fn enter_high(s: &mut State, channel: Channel, nrpn: bool, high: D7, low: D7, value: Option<D7>)
    ensures { s.new ≡ high_entered s.old channel nrpn high low value }
{
    match value {
        None => {}
        Some(value) => s.set_param_high(channel, nrpn, high, low, Some(value)),
    }
}

/// Enters a low half of a parameter's value, where there is one.
fn enter_low(s: &mut State, channel: Channel, nrpn: bool, high: D7, low: D7, value: Option<D7>)
    ensures { s.new ≡ low_entered s.old channel nrpn high low value }
{
    match value {
        None => {}
        Some(value) => s.set_param_low(channel, nrpn, high, low, Some(value)),
    }
}

/// Applies the command that a log stands for, if it is one of a command.
fn apply_command(s: &mut State, log: &LogKind)
    ensures { s.new ≡ applied_if s.old (command_of log.now) }
{
    match command_of(log) {
        None => {}
        Some(command) => s.apply(&command),
    }
}

/// Sets what the log of a channel has.
fn set_channel(s: &mut State, log: &LogKind)
    ensures { s.new ≡ with_channel_log s.old log.now }
{
    match log {
        LogKind::Program {
            channel,
            program,
            bank,
        } => s.set_program(
            *channel,
            Some(ProgramPart {
                program: *program,
                bank: *bank,
            }),
        ),
        LogKind::Param {
            channel,
            nrpn,
            high,
            low,
            entry_high,
            entry_low,
        } => {
            enter_high(s, *channel, *nrpn, *high, *low, *entry_high);
            enter_low(s, *channel, *nrpn, *high, *low, *entry_low);
        }
        LogKind::Toggle { channel, count } => s.set_toggles(*channel, *count % 64),
        _ => apply_command(s, log),
    }
}

/// Sets what the log has, where it is of this group and channel.
fn set_if_of(s: &mut State, group: &Group, channel: Channel, log: &Log)
    ensures { s.new ≡ with_log_of group.now channel s.old log.now }
{
    if is_of(group, channel, &log.what) {
        set_channel(s, &log.what);
    }
}

/// Sets what the logs of this group and channel have.
#[tactic(auto, unfolding(crate::specs::Repair::group_repaired))]
fn repair_group(s: &mut State, logs: &[Log], channel: Channel, group: &Group)
    ensures { s.new ≡ group_repaired logs.now channel s.old group.now }
{
    for log in logs {
        set_if_of(s, group, channel, log);
    }
}

/// Sets what the logs of this channel have, group by group.
#[tactic(auto, unfolding(crate::specs::Repair::channel_repaired))]
fn repair_channel(s: &mut State, logs: &[Log], channel: Channel)
    ensures { s.new ≡ channel_repaired logs.now s.old channel }
{
    let groups = all_groups();
    for group in &groups {
        repair_group(s, logs, channel, group);
    }
}

/// Makes all parts absent, where a reset is among the logs.
pub(crate) fn clear(s: &mut State, logs: &[Log])
    ensures { s.new ≡ cleared logs.now s.old }
{
    if has_reset(logs) {
        *s = State::new();
    }
}

/// Repairs a state by these logs, in this order: a reset makes all parts absent; messages are counted; the parts of the
/// whole session are set; then channel by channel the program, parameters, controllers, the wheel, released and struck
/// notes, and pressures.
#[tactic(auto, unfolding(crate::specs::Repair::repaired))]
pub fn repair_state(s: &mut State, logs: &[Log])
    ensures { s.new ≡ repaired s.old logs.now }
{
    clear(s, logs);
    count_messages(s, logs);
    set_sessions(s, logs);
    let channels = all_channels();
    for channel in &channels {
        repair_channel(s, logs, *channel);
    }
}
