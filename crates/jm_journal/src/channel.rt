//! A channel journal: the chapters of a channel, and their header.

ghost use Rattle.std.specs.Prelude.{◌≡◌, ◌+◌, ◌≤◌, ◌<◌, length};
ghost use Rattle.jm_wire.specs.Octets.{Appends};
ghost use Rattle.jm_wire.specs.Heads.{FitsChannel};
ghost use Rattle.jm_cmds.specs.History.{InOrder, below};
ghost use Rattle.jm_cmds.specs.Sent.{packet_of};
ghost use Rattle.jm_journal.specs.Limits.{KeepsLimits};
ghost use Rattle.jm_journal.specs.Channel.{channel_chapters, channel_fresh, channel_head, channel_journal};
ghost use Rattle.jm_journal.specs.Lens.{AreLens, AreShort, lens_total};

use crate::span::Span;
use ch_control::c;
use ch_notes::{a, e, n};
use ch_param::m;
use ch_voice::{p, t, w};
use jm_cmds::{Channel, Sent};
use jm_wire::{ChannelHead, Octets};

/// How many octets each chapter of a channel has, 0 where nothing of it is coded.
#[derive(Clone, Copy, Debug)]
pub(crate) struct Lens {
    pub(crate) p: usize,
    pub(crate) c: usize,
    pub(crate) m: usize,
    pub(crate) w: usize,
    pub(crate) n: usize,
    pub(crate) e: usize,
    pub(crate) t: usize,
    pub(crate) a: usize,
}

impl Lens {
    /// The lengths of a channel's chapters.
    fn of(list: &[Sent], channel: Channel, span: Span) -> Lens
        requires order { InOrder packet_of list.now }
        requires limits { KeepsLimits span.checkpoint (below packet_of span.packet list.now) }
        ensures octets { AreLens span.checkpoint span.packet span.tick list.now channel result }
        ensures short { AreShort result }
    {
        // For the prover, which learns its range by this.
        let _ = channel.get();
        let Span {
            checkpoint,
            packet,
            tick,
        } = span;
        Lens {
            p: p::plain_len(list, channel, checkpoint, packet, tick),
            c: c::plain_len(list, channel, checkpoint, packet, tick),
            m: m::plain_len(list, channel, checkpoint, packet, tick),
            w: w::plain_len(list, channel, checkpoint, packet, tick),
            n: n::plain_len(list, channel, checkpoint, packet, tick),
            e: e::plain_len(list, channel, checkpoint, packet, tick),
            t: t::plain_len(list, channel, checkpoint, packet, tick),
            a: a::plain_len(list, channel, checkpoint, packet, tick),
        }
    }

    /// The octets of all chapters.
    fn total(&self) -> usize
        requires { AreShort self.now }
        ensures total { result ≡ lens_total self.now }
        ensures bound { result ≤ 995 }
    {
        self.p + (self.c + (self.m + (self.w + (self.n + (self.e + (self.t + self.a))))))
    }
}

/// Whether something coded of a channel is of the packet before.
#[tactic(auto, unfolding(crate::specs::Channel::channel_fresh))]
pub(crate) fn is_fresh(list: &[Sent], channel: Channel, span: Span) -> bool
    requires order { InOrder packet_of list.now }
    requires limits { KeepsLimits span.checkpoint (below packet_of span.packet list.now) }
    ensures { result ≡ channel_fresh span.checkpoint span.packet list.now channel }
{
    // For the prover, which learns its range by this.
    let _ = channel.get();
    let Span {
        checkpoint,
        packet,
        ..
    } = span;
    p::plain_fresh(list, channel, checkpoint, packet)
        || c::plain_fresh(list, channel, checkpoint, packet)
        || m::plain_fresh(list, channel, checkpoint, packet)
        || w::plain_fresh(list, channel, checkpoint, packet)
        || n::plain_fresh(list, channel, checkpoint, packet)
        || e::plain_fresh(list, channel, checkpoint, packet)
        || t::plain_fresh(list, channel, checkpoint, packet)
        || a::plain_fresh(list, channel, checkpoint, packet)
}

/// The header of a channel journal whose chapters have these lengths.
#[tactic(auto, unfolding(crate::specs::Channel::channel_head))]
fn head_of(list: &[Sent], channel: Channel, span: Span, lens: &Lens) -> ChannelHead
    requires order { InOrder packet_of list.now }
    requires limits { KeepsLimits span.checkpoint (below packet_of span.packet list.now) }
    requires octets { AreLens span.checkpoint span.packet span.tick list.now channel lens.now }
    requires short { AreShort lens.now }
    ensures head { result ≡ channel_head span.checkpoint span.packet span.tick list.now channel }
    ensures fits { FitsChannel result }
{
    ChannelHead {
        s: !is_fresh(list, channel, span),
        chan: channel.get(),
        h: false,
        length: 3 + lens.total() as u16,
        p: lens.p > 0,
        c: lens.c > 0,
        m: lens.m > 0,
        w: lens.w > 0,
        n: lens.n > 0,
        e: lens.e > 0,
        t: lens.t > 0,
        a: lens.a > 0,
    }
}

/// Appends the chapters of a channel.
#[tactic(auto, unfolding(crate::specs::Channel::channel_chapters))]
fn write_chapters(list: &[Sent], channel: Channel, span: Span, out: &mut Octets)
    requires order { InOrder packet_of list.now }
    requires limits { KeepsLimits span.checkpoint (below packet_of span.packet list.now) }
    requires spare { length (channel_chapters span.checkpoint span.packet span.tick list.now channel) ≤ out.old.spare }
    ensures { Appends out.old out.new (channel_chapters span.checkpoint span.packet span.tick list.now channel) }
{
    // For the prover, which learns its range by this.
    let _ = channel.get();
    let Span {
        checkpoint,
        packet,
        tick,
    } = span;
    p::plain_write(list, channel, checkpoint, packet, tick, out);
    c::plain_write(list, channel, checkpoint, packet, tick, out);
    m::plain_write(list, channel, checkpoint, packet, tick, out);
    w::plain_write(list, channel, checkpoint, packet, tick, out);
    n::plain_write(list, channel, checkpoint, packet, tick, out);
    e::plain_write(list, channel, checkpoint, packet, tick, out);
    t::plain_write(list, channel, checkpoint, packet, tick, out);
    a::plain_write(list, channel, checkpoint, packet, tick, out);
}

/// The length of a channel's journal, 0 where nothing of the channel is coded.
pub(crate) fn channel_len(list: &[Sent], channel: Channel, span: Span) -> usize
    requires order { InOrder packet_of list.now }
    requires limits { KeepsLimits span.checkpoint (below packet_of span.packet list.now) }
    ensures value { result ≡ length (channel_journal span.checkpoint span.packet span.tick list.now channel) }
    ensures bound { result ≤ 998 }
{
    let chapters = Lens::of(list, channel, span).total();
    if chapters == 0 { 0 } else { 3 + chapters }
}

/// Appends a channel's journal, nothing where nothing of the channel is coded.
pub(crate) fn write_channel(list: &[Sent], channel: Channel, span: Span, out: &mut Octets)
    requires order { InOrder packet_of list.now }
    requires limits { KeepsLimits span.checkpoint (below packet_of span.packet list.now) }
    requires spare { length (channel_journal span.checkpoint span.packet span.tick list.now channel) ≤ out.old.spare }
    ensures written { Appends out.old out.new (channel_journal span.checkpoint span.packet span.tick list.now channel) }
    ensures bound { length (channel_journal span.checkpoint span.packet span.tick list.now channel) ≤ 998 }
{
    let lens = Lens::of(list, channel, span);
    if lens.total() == 0 {
        return;
    }
    out.push_slice(&head_of(list, channel, span, &lens).pack());
    write_chapters(list, channel, span, out);
}
