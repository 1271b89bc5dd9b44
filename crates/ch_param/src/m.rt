//! Chapter M: the parameters of a channel and their values (RFC 6295, A.4).

ghost use Rattle.std.specs.Prelude.{◌≡◌, ◌+◌, ◌<◌, ◌≤◌, ◌++◌, length};
ghost use Rattle.jm_wire.specs.Octets.{Appends};
ghost use Rattle.jm_wire.specs.Heads.{param_octets};
ghost use Rattle.jm_cmds.specs.History.{InOrder, below};
ghost use Rattle.jm_cmds.specs.Sent.{packet_of};
ghost use Rattle.ch_param.specs.ChapterM.{chapter_m, fresh_m, param_count, has_param, selected, param_head};

use crate::logs::{count, has, is_fresh, logs_len, write_parameter_logs};
use crate::walk::selection_of;
use jm_cmds::{Channel, D7, Param, Sent, session_history};
use jm_wire::{Octets, ParamHead};

/// Appends the chapter's header, where its logs have this many octets.
pub(crate) fn write_head(fresh: bool, logs: usize, out: &mut Octets)
    requires few { logs ≤ 160 }
    requires spare { 2 ≤ out.old.spare }
    ensures { Appends out.old out.new (param_octets (param_head fresh logs)) }
{
    let head = ParamHead {
        s: !fresh,
        p: false,
        e: false,
        u: false,
        w: false,
        z: false,
        length: 2 + logs as u16,
    };
    out.push_slice(&head.pack());
}

/// The number of Chapter M's octets in the journal of this packet. It is 0 where no parameter is coded.
///
/// The list is the session's history, and may go past the packet. `checkpoint` is the journal's. At most
/// 16 parameters may be coded.
#[tactic(auto, unfolding(crate::specs::ChapterM::chapter_m, crate::specs::ChapterM::param_count))]
pub fn plain_len(list: &[Sent], channel: Channel, checkpoint: u64, packet: u64, tick: u64) -> usize
    requires order { InOrder packet_of list.now }
    requires few { param_count channel checkpoint (below packet_of packet list.now) ≤ 16 }
    ensures number { result ≡ length (chapter_m channel checkpoint packet list.now) }
    ensures bound { result ≤ 82 }
{
    let _ = tick;
    let logs = logs_len(session_history(list, packet), channel, checkpoint);
    if logs == 0 { 0 } else { 2 + logs }
}

/// Appends Chapter M of this channel for the journal of this packet: the parameters of which a half was entered
/// in the packets from the checkpoint on. `tick` isn't looked at.
#[tactic(auto, unfolding(crate::specs::ChapterM::chapter_m, crate::specs::ChapterM::param_count))]
pub fn plain_write(
    list: &[Sent],
    channel: Channel,
    checkpoint: u64,
    packet: u64,
    tick: u64,
    out: &mut Octets,
)
    requires order { InOrder packet_of list.now }
    requires few { param_count channel checkpoint (below packet_of packet list.now) ≤ 16 }
    requires spare { length (chapter_m channel checkpoint packet list.now) ≤ out.old.spare }
    ensures { Appends out.old out.new (chapter_m channel checkpoint packet list.now) }
{
    let _ = tick;
    let history = session_history(list, packet);
    let logs = logs_len(history, channel, checkpoint);
    if logs > 0 {
        write_head(is_fresh(history, channel, checkpoint, packet), logs, out);
        write_parameter_logs(history, channel, checkpoint, packet, out);
    }
}

/// Whether the S bit of one of the chapter's logs is 0: a half was entered in the packet before.
#[tactic(auto, unfolding(crate::specs::ChapterM::fresh_m))]
pub fn plain_fresh(list: &[Sent], channel: Channel, checkpoint: u64, packet: u64) -> bool
    requires { InOrder packet_of list.now }
    ensures { result ≡ fresh_m channel checkpoint packet list.now }
{
    is_fresh(session_history(list, packet), channel, checkpoint, packet)
}

/// How many parameters of this channel Chapter M codes with this checkpoint, where all of the list is sent.
#[tactic(auto, unfolding(crate::specs::ChapterM::param_count))]
pub fn plain_params(list: &[Sent], channel: Channel, checkpoint: u64) -> usize
    requires { InOrder packet_of list.now }
    ensures { result ≡ param_count channel checkpoint list.now }
{
    count(list, channel, checkpoint)
}

/// Whether this parameter is among those that Chapter M codes with this checkpoint, where all of the list is
/// sent.
#[tactic(auto, unfolding(crate::specs::ChapterM::has_param))]
pub fn plain_has_param(
    list: &[Sent],
    channel: Channel,
    checkpoint: u64,
    nrpn: bool,
    high: D7,
    low: D7,
) -> bool
    requires { InOrder packet_of list.now }
    ensures { result ≡ has_param channel checkpoint nrpn high low list.now }
{
    has(list, channel, checkpoint, &Param { nrpn, high, low })
}

/// The parameter that is selected in this channel behind all of the list: whether it is an NRPN, and the high
/// and the low seven bits of its number. `None` where none is selected.
#[tactic(auto, unfolding(crate::specs::ChapterM::selected))]
pub fn plain_selected(list: &[Sent], channel: Channel) -> Option<(bool, D7, D7)>
    requires { InOrder packet_of list.now }
    ensures { result ≡ selected channel list.now }
{
    match selection_of(list, channel).selected() {
        Some(param) => Some((param.nrpn, param.high, param.low)),
        None => None,
    }
}
