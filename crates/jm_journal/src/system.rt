//! The system journal: the system chapters, and their header.

ghost use Rattle.std.specs.Prelude.{◌≡◌, ◌+◌, ◌≤◌, ◌<◌, length};
ghost use Rattle.jm_wire.specs.Octets.{Appends};
ghost use Rattle.jm_wire.specs.Heads.{FitsSystem};
ghost use Rattle.jm_cmds.specs.History.{InOrder, below};
ghost use Rattle.jm_cmds.specs.Sent.{packet_of};
ghost use Rattle.jm_journal.specs.Limits.{KeepsLimits};
ghost use Rattle.jm_journal.specs.System.{system_chapters, system_fresh, system_head, system_journal};
ghost use Rattle.jm_journal.specs.Lens.{AreSystemLens, AreSystemShort, system_total};

use crate::span::Span;
use ch_sysex::x;
use ch_system::{d, f, q, v};
use jm_cmds::Sent;
use jm_wire::{Octets, SystemHead};

/// How many octets each system chapter has, 0 where nothing of it is coded.
#[derive(Clone, Copy, Debug)]
pub(crate) struct SystemLens {
    pub(crate) d: usize,
    pub(crate) v: usize,
    pub(crate) q: usize,
    pub(crate) f: usize,
    pub(crate) x: usize,
}

impl SystemLens {
    /// The lengths of the system chapters.
    fn of(list: &[Sent], span: Span) -> SystemLens
        requires order { InOrder packet_of list.now }
        requires limits { KeepsLimits span.checkpoint (below packet_of span.packet list.now) }
        ensures octets { AreSystemLens span.checkpoint span.packet list.now result }
        ensures short { AreSystemShort result }
    {
        let Span {
            checkpoint,
            packet,
            tick,
        } = span;
        SystemLens {
            d: d::plain_len(list, checkpoint, packet, tick),
            v: v::plain_len(list, checkpoint, packet, tick),
            q: q::plain_len(list, checkpoint, packet, tick),
            f: f::plain_len(list, checkpoint, packet, tick),
            x: x::plain_len(list, checkpoint, packet, tick),
        }
    }

    /// The octets of all system chapters.
    fn total(&self) -> usize
        requires { AreSystemShort self.now }
        ensures total { result ≡ system_total self.now }
        ensures bound { result ≤ 1017 }
    {
        self.d + (self.v + (self.q + (self.f + self.x)))
    }
}

/// Whether something coded in the system chapters is of the packet before.
#[tactic(auto, unfolding(crate::specs::System::system_fresh))]
pub(crate) fn is_fresh(list: &[Sent], span: Span) -> bool
    requires order { InOrder packet_of list.now }
    requires limits { KeepsLimits span.checkpoint (below packet_of span.packet list.now) }
    ensures { result ≡ system_fresh span.checkpoint span.packet list.now }
{
    let Span {
        checkpoint,
        packet,
        ..
    } = span;
    d::plain_fresh(list, checkpoint, packet)
        || v::plain_fresh(list, checkpoint, packet)
        || q::plain_fresh(list, checkpoint, packet)
        || f::plain_fresh(list, checkpoint, packet)
        || x::plain_fresh(list, checkpoint, packet)
}

/// The header of the system journal whose chapters have these lengths.
#[tactic(auto, unfolding(crate::specs::System::system_head))]
fn head_of(list: &[Sent], span: Span, lens: &SystemLens) -> SystemHead
    requires order { InOrder packet_of list.now }
    requires limits { KeepsLimits span.checkpoint (below packet_of span.packet list.now) }
    requires octets { AreSystemLens span.checkpoint span.packet list.now lens.now }
    requires short { AreSystemShort lens.now }
    ensures head { result ≡ system_head span.checkpoint span.packet list.now }
    ensures fits { FitsSystem result }
{
    SystemHead {
        s: !is_fresh(list, span),
        d: lens.d > 0,
        v: lens.v > 0,
        q: lens.q > 0,
        f: lens.f > 0,
        x: lens.x > 0,
        length: 2 + lens.total() as u16,
    }
}

/// Appends the system chapters.
#[tactic(auto, unfolding(crate::specs::System::system_chapters))]
fn write_chapters(list: &[Sent], span: Span, out: &mut Octets)
    requires order { InOrder packet_of list.now }
    requires limits { KeepsLimits span.checkpoint (below packet_of span.packet list.now) }
    requires spare { length (system_chapters span.checkpoint span.packet list.now) ≤ out.old.spare }
    ensures { Appends out.old out.new (system_chapters span.checkpoint span.packet list.now) }
{
    let Span {
        checkpoint,
        packet,
        tick,
    } = span;
    d::plain_write(list, checkpoint, packet, tick, out);
    v::plain_write(list, checkpoint, packet, tick, out);
    q::plain_write(list, checkpoint, packet, tick, out);
    f::plain_write(list, checkpoint, packet, tick, out);
    x::plain_write(list, checkpoint, packet, tick, out);
}

/// The length of the system journal, 0 where nothing of the system chapters is coded.
pub(crate) fn system_len(list: &[Sent], span: Span) -> usize
    requires order { InOrder packet_of list.now }
    requires limits { KeepsLimits span.checkpoint (below packet_of span.packet list.now) }
    ensures value { result ≡ length (system_journal span.checkpoint span.packet list.now) }
    ensures bound { result ≤ 1019 }
{
    let chapters = SystemLens::of(list, span).total();
    if chapters == 0 { 0 } else { 2 + chapters }
}

/// Appends the system journal, nothing where nothing of the system chapters is coded.
pub(crate) fn write_system(list: &[Sent], span: Span, out: &mut Octets)
    requires order { InOrder packet_of list.now }
    requires limits { KeepsLimits span.checkpoint (below packet_of span.packet list.now) }
    requires spare { length (system_journal span.checkpoint span.packet list.now) ≤ out.old.spare }
    ensures written { Appends out.old out.new (system_journal span.checkpoint span.packet list.now) }
    ensures bound { length (system_journal span.checkpoint span.packet list.now) ≤ 1019 }
{
    let lens = SystemLens::of(list, span);
    if lens.total() == 0 {
        return;
    }
    out.push_slice(&head_of(list, span, &lens).pack());
    write_chapters(list, span, out);
}
