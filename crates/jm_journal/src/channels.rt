//! The journals of all channels, channels ascending.

ghost use Rattle.std.specs.Prelude.{ℕ, ◌≡◌, ◌+◌, ◌<◌, ◌≤◌, length, map, sum};
ghost use Rattle.std.specs.List.{list_any, flat_map};
ghost use Rattle.jm_wire.specs.Octets.{Appends};
ghost use Rattle.jm_cmds.specs.History.{InOrder, below};
ghost use Rattle.jm_cmds.specs.Sent.{packet_of};
ghost use Rattle.jm_journal.specs.Limits.{KeepsLimits};
ghost use Rattle.jm_journal.specs.Channel.{channel_journal, channel_fresh};
ghost use Rattle.jm_journal.specs.Journal.{channels, journal_count};

use crate::channel::{channel_len, is_fresh, write_channel};
use crate::span::Span;
use jm_cmds::{Channel, Sent};
use jm_wire::Octets;

/// How many channels have a journal.
pub(crate) fn count_channels(list: &[Sent], span: Span) -> u8
    requires order { InOrder packet_of list.now }
    requires limits { KeepsLimits span.checkpoint (below packet_of span.packet list.now) }
    ensures value { result ≡ journal_count span.checkpoint span.packet span.tick list.now }
    ensures bound { result ≤ 16 }
{
    let mut count = 0u8;
    for number in 0..16u8 {
        if channel_len(list, Channel::low(number), span) > 0 {
            count += 1;
        }
    }
    count
}

/// The length of all channel journals.
pub(crate) fn channels_len(list: &[Sent], span: Span) -> usize
    requires order { InOrder packet_of list.now }
    requires limits { KeepsLimits span.checkpoint (below packet_of span.packet list.now) }
    ensures value { result ≡ length (flat_map (channel_journal span.checkpoint span.packet span.tick list.now) channels) }
    ensures bound { result ≤ 15968 }
    ensures each { (channel : ℕ) → channel < 16 → length (channel_journal span.checkpoint span.packet span.tick list.now channel) ≤ 998 }
{
    let mut len = 0usize;
    for number in 0..16u8 {
        len += channel_len(list, Channel::low(number), span);
    }
    len
}

/// Whether something coded of a channel is of the packet before.
pub(crate) fn has_fresh(list: &[Sent], span: Span) -> bool
    requires order { InOrder packet_of list.now }
    requires limits { KeepsLimits span.checkpoint (below packet_of span.packet list.now) }
    ensures { result ≡ list_any (channel_fresh span.checkpoint span.packet list.now) channels }
{
    for number in 0..16u8 {
        if is_fresh(list, Channel::low(number), span) {
            return true;
        }
    }
    false
}

/// Appends all channel journals.
pub(crate) fn write_channels(list: &[Sent], span: Span, out: &mut Octets)
    requires order { InOrder packet_of list.now }
    requires limits { KeepsLimits span.checkpoint (below packet_of span.packet list.now) }
    requires spare { length (flat_map (channel_journal span.checkpoint span.packet span.tick list.now) channels) ≤ out.old.spare }
    ensures { Appends out.old out.new (flat_map (channel_journal span.checkpoint span.packet span.tick list.now) channels) }
{
    for number in 0..16u8 {
        write_channel(list, Channel::low(number), span, out);
    }
}
