//! The table of Chapter M.

ghost use Rattle.std.specs.Prelude.{ℕ, ◌≡◌, ◌+◌, ◌*◌, ◌<◌, ◌≤◌, Bool, true, false, IsTrue, nat_le, List, [], ◌∷◌, ◌++◌, MatchOption, option_to_list, filter, length};
ghost use Rattle.std.specs.List.{list_any, flat_map, AllByRecursion};
ghost use Rattle.jm_wire.specs.Octets.{Appends};
ghost use Rattle.jm_cmds.specs.declared.history.Sent.{Sent};
ghost use Rattle.jm_cmds.specs.declared.param.Param.{Param as Parameter};
ghost use Rattle.jm_cmds.specs.Channels.{own_channel, IsForChannel};
ghost use Rattle.jm_cmds.specs.History.{InOrder};
ghost use Rattle.jm_cmds.specs.Param.{same_param};
ghost use Rattle.jm_cmds.specs.Selection.{param_command, no_selection, selection_after, selected_param};
ghost use Rattle.jm_cmds.specs.Sent.{packet_of};
ghost use Rattle.ch_param.specs.Event.{param_event};
ghost use Rattle.ch_param.specs.ChapterM.{chapter_m, fresh_m, param_count, has_param, selected, param_parts};
ghost use Rattle.ch_param.specs.ParamTable.{half_row, params_kept, is_left, halves_noted, param_noted, rows_since, param_cut, same_row, last_halves, half_of, row_log, row_logs, rows_fresh, has_row, params_text};

use crate::events::ParamEvent;
use crate::logs::Log;
use crate::m::write_head;
use arrayvec::ArrayVec;
use jm_cmds::{Command, D7, Param, ParamCommand, Selection, is_packet_before, param_command, s_of};
use jm_wire::Octets;
use std::marker::Model;

/// A half of the value of a parameter, as it was entered last, in this packet.
#[derive(Clone, Copy, Debug)]
pub(crate) struct HalfRow {
    pub(crate) packet: u64,
    pub(crate) param: Param,
    pub(crate) high: bool,
    pub(crate) value: D7,
}

impl Default for HalfRow {
    fn default() -> HalfRow {
        HalfRow {
            packet: 0,
            param: Param {
                nrpn: false,
                high: D7::low(0),
                low: D7::low(0),
            },
            high: false,
            value: D7::low(0),
        }
    }
}

/// The selection behind this command.
fn behind(selection: &Selection, command: &ParamCommand) -> Selection
    ensures { result ≡ selection_after selection.now command.now }
{
    selection.after(*command)
}

/// What this command means where this is selected.
fn event_of(selection: &Selection, command: &ParamCommand) -> ParamEvent
    ensures { result ≡ param_event selection.now command.now }
{
    ParamEvent::of(selection, *command)
}

/// Whether this half is left behind the event: it isn't of this half, and doesn't clear all.
fn is_left(event: &ParamEvent, row: &HalfRow) -> bool
    ensures { result ≡ is_left event.now row.now }
{
    match event {
        ParamEvent::Entry { param, high, .. } => !(row.param.is(param) && row.high == *high),
        ParamEvent::Cleared => false,
        ParamEvent::Other => true,
    }
}

/// The halves that are left behind the event, in their order.
fn halves_left(halves: &[HalfRow], event: &ParamEvent) -> ArrayVec<HalfRow, 32>
    requires { length halves.now ≤ 32 }
    ensures { result.items ≡ filter (is_left event.now) halves.now }
{
    let mut left = ArrayVec::new();
    for row in halves {
        if is_left(event, row) {
            left.push(*row);
        }
    }
    left
}

/// How many halves the event enters.
fn own_halves(event: &ParamEvent) -> usize
    ensures number { (packet : ℕ) → result ≡ length (option_to_list (half_row packet event.now)) }
    ensures bound { result ≤ 1 }
{
    match event {
        ParamEvent::Entry { .. } => 1,
        ParamEvent::Cleared | ParamEvent::Other => 0,
    }
}

/// The halves of packets from this one on, in their order.
fn halves_since(halves: &[HalfRow], packet: u64) -> ArrayVec<HalfRow, 32>
    requires { length halves.now ≤ 32 }
    ensures { result.items ≡ rows_since packet halves.now }
{
    let mut left = ArrayVec::new();
    for row in halves {
        if row.packet >= packet {
            left.push(*row);
        }
    }
    left
}

/// These halves.
fn copied(halves: &[HalfRow]) -> ArrayVec<HalfRow, 32>
    requires { length halves.now ≤ 32 }
    ensures { result.items ≡ halves.now }
{
    let mut left = ArrayVec::new();
    for row in halves {
        left.push(*row);
    }
    left
}

/// Whether a later half is of the same parameter.
fn is_again(row: &HalfRow, later: &[HalfRow]) -> bool
    ensures { result ≡ list_any (same_row row.now) later.now }
{
    later.iter().any(|after| row.param.is(&after.param))
}

/// The first half with no later half of its parameter, with the halves behind it.
fn next_last(halves: &[HalfRow]) -> Option<(&HalfRow, &[HalfRow])>
    ensures last { MatchOption result (last_halves halves.now ≡ [])
        (λ parts. last_halves halves.now ≡ parts.0.now ∷ last_halves parts.1.now) }
    ensures fewer { MatchOption result (Unit {0}) (λ parts. length parts.1.now < length halves.now) }
{
    let mut rest = halves;
    while let Some((row, later)) = rest.split_first() {
        if !is_again(row, later) {
            return Some((row, later));
        }
        rest = later;
    }
    None
}

/// The value of this half, where it is there.
fn half_of(halves: &[HalfRow], param: &Param, high: bool) -> Option<D7>
    ensures { result ≡ half_of param.now high halves.now }
{
    for row in halves {
        if param.is(&row.param) && high == row.high {
            return Some(row.value);
        }
    }
    None
}

/// How many parameters have a half.
fn count(halves: &[HalfRow]) -> usize
    ensures number { result ≡ length (last_halves halves.now) }
    ensures bound { result ≤ length halves.now }
{
    let mut count = 0;
    let mut rest = halves;
    while let Some((_, later)) = next_last(rest) {
        count += 1;
        rest = later;
    }
    count
}

/// Whether this parameter has a half.
fn has(halves: &[HalfRow], param: &Param) -> bool
    ensures { result ≡ has_row param.now halves.now }
{
    let mut rest = halves;
    while let Some((row, later)) = next_last(rest) {
        if param.is(&row.param) {
            return true;
        }
        rest = later;
    }
    false
}

/// Whether the latest half of a parameter is of the packet before.
fn has_fresh(halves: &[HalfRow], packet: u64) -> bool
    ensures { result ≡ rows_fresh packet halves.now }
{
    let mut rest = halves;
    while let Some((row, later)) = next_last(rest) {
        if is_packet_before(row.packet, packet) {
            return true;
        }
        rest = later;
    }
    false
}

/// The log of this half's parameter.
fn log_of(halves: &[HalfRow], row: &HalfRow) -> Log
    ensures { result ≡ record { param = row.now.param; high = half_of row.now.param true halves.now; low = half_of row.now.param false halves.now } }
{
    Log {
        param: row.param,
        high: half_of(halves, &row.param, true),
        low: half_of(halves, &row.param, false),
    }
}

/// The number of its octets.
fn log_len(halves: &[HalfRow], row: &HalfRow) -> usize
    ensures number { (packet : ℕ) → result ≡ length (row_log packet halves.now row.now) }
    ensures bound { result ≤ 5 }
{
    log_of(halves, row).len()
}

/// Appends it.
fn write_log(halves: &[HalfRow], row: &HalfRow, packet: u64, out: &mut Octets)
    requires { length (row_log packet halves.now row.now) ≤ out.old.spare }
    ensures { Appends out.old out.new (row_log packet halves.now row.now) }
{
    let s = s_of(is_packet_before(row.packet, packet));
    log_of(halves, row).write(s, out);
}

/// The number of octets of all logs.
fn logs_len(halves: &[HalfRow]) -> usize
    requires { length halves.now ≤ 32 }
    ensures number { (packet : ℕ) → result ≡ length (row_logs packet halves.now) }
    ensures bound { result ≤ 160 }
    ensures few { length (last_halves halves.now) ≤ 16 → result ≤ 80 }
{
    let mut len = 0;
    let mut rest = halves;
    while let Some((row, later)) = next_last(rest) {
        len += log_len(halves, row);
        rest = later;
    }
    len
}

/// Appends all logs.
fn write_logs(halves: &[HalfRow], packet: u64, out: &mut Octets)
    requires { length (row_logs packet halves.now) ≤ out.old.spare }
    ensures { Appends out.old out.new (row_logs packet halves.now) }
{
    let mut rest = halves;
    while let Some((row, later)) = next_last(rest) {
        write_log(halves, row, packet, out);
        rest = later;
    }
}

/// What Chapter M needs of a channel's history since the checkpoint: the halves that are coded, in the order of
/// their latest commands; and of its whole history: the selection.
///
/// The plain functions of [`crate::m`] tell the same of a list of all commands. A table serves one channel, and
/// no call takes memory. There are two halves for each of at most 16 parameters, so that each call takes constant
/// time.
#[derive(Debug, Drop)]
pub struct ParamTable {
    selection: Selection,
    halves: ArrayVec<HalfRow, 32>,
}

impl Model for ParamTable {
    ghost use Rattle.ch_param.specs.ParamTable.{ParamsKept};

    ghost Value = { ParamsKept };

    ghost view = { λ t. record { selection = t.selection; halves = t.halves.items } };
}

impl ParamTable {
    /// The table of no command, with checkpoint 0.
    pub fn new() -> Self
        ensures empty { result ≡ record { selection = no_selection; halves = [] } }
        ensures stands { (channel : ℕ) → result ≡ params_kept channel 0 [] }
    {
        ParamTable {
            selection: Selection::none(),
            halves: ArrayVec::new(),
        }
    }

    /// Whether at most 32 halves are coded with this command, which is so while at most 16 parameters are.
    pub fn fits(&self, command: &Command) -> bool
        ensures test { (packet : ℕ) → result ≡ nat_le (length (param_noted (param_command (own_channel command.now) command.now) packet self.now).halves) 32 }
        ensures room { (packet : ℕ) → IsTrue result → length (param_noted (param_command (own_channel command.now) command.now) packet self.now).halves ≤ 32 }
    {
        let event = event_of(
            &self.selection,
            &param_command(command, command.own_channel()),
        );
        let left = halves_left(self.halves.as_slice(), &event).len();
        left + own_halves(&event) <= 32
    }

    /// Notes one command more: it is of the table's channel or of none, and goes out in this packet, which
    /// isn't before the checkpoint. At most 32 halves are coded with it. `tick` isn't looked at; each table takes
    /// it.
    pub fn note(&mut self, command: &Command, packet: u64, tick: u64)
        requires { length (param_noted (param_command (own_channel command.now) command.now) packet self.old).halves ≤ 32 }
        ensures change { self.new ≡ param_noted (param_command (own_channel command.now) command.now) packet self.old }
        ensures stands { (channel from : ℕ) (sent : List Sent) → self.old ≡ params_kept channel from sent
            → IsForChannel channel command.now → from ≤ packet
            → self.new ≡ params_kept channel from (sent ++ record { packet = packet; tick = tick; command = command.now } ∷ []) }
    {
        let _ = tick;
        self.change(&param_command(command, command.own_channel()), packet);
    }

    /// One command more, by what it means.
    fn change(&mut self, command: &ParamCommand, packet: u64)
        requires { length (param_noted command.now packet self.old).halves ≤ 32 }
        ensures { self.new ≡ param_noted command.now packet self.old }
    {
        let event = event_of(&self.selection, command);
        let mut halves = halves_left(self.halves.as_slice(), &event);
        if let ParamEvent::Entry { param, high, value } = event {
            halves.push(HalfRow {
                packet,
                param,
                high,
                value,
            });
        }
        self.halves = halves;
        self.selection = behind(&self.selection, command);
    }

    /// Sets the checkpoint to this packet, which isn't before the present one.
    pub fn trim(&mut self, packet: u64)
        ensures change { self.new ≡ param_cut packet self.old }
        ensures stands { (channel from : ℕ) (sent : List Sent) → self.old ≡ params_kept channel from sent
            → from ≤ packet → self.new ≡ params_kept channel packet sent }
    {
        self.cut(packet);
    }

    /// Lets go the halves of packets before this one.
    fn cut(&mut self, packet: u64)
        ensures { self.new ≡ param_cut packet self.old }
    {
        self.halves = halves_since(self.halves.as_slice(), packet);
    }

    /// The number of Chapter M's octets in the journal of this packet, which is past each noted one: 0 where no
    /// parameter is coded.
    pub fn len(&self, packet: u64, tick: u64) -> usize
        ensures number { result ≡ length (params_text packet self.now.halves) }
        ensures bound { length (last_halves self.now.halves) ≤ 16 → result ≤ 82 }
        ensures stands { (channel from : ℕ) (sent : List Sent) → self.now ≡ params_kept channel from sent
            → InOrder packet_of sent → AllByRecursion (λ place. packet_of place < packet) sent
            → result ≡ length (chapter_m channel from packet sent) }
    {
        let _ = tick;
        self.text_len(packet)
    }

    /// The number of the octets of what is kept.
    fn text_len(&self, packet: u64) -> usize
        ensures number { result ≡ length (params_text packet self.now.halves) }
        ensures bound { length (last_halves self.now.halves) ≤ 16 → result ≤ 82 }
    {
        let _ = packet;
        let logs = logs_len(self.halves.as_slice());
        if logs == 0 { 0 } else { 2 + logs }
    }

    /// Appends Chapter M for the journal of this packet, which is past each noted one. `out` has room for
    /// [`ParamTable::len`] octets.
    pub fn write(&self, packet: u64, tick: u64, out: &mut Octets)
        requires { length (params_text packet self.now.halves) ≤ out.old.spare }
        ensures text { Appends out.old out.new (params_text packet self.now.halves) }
        ensures stands { (channel from : ℕ) (sent : List Sent) → self.now ≡ params_kept channel from sent
            → InOrder packet_of sent → AllByRecursion (λ place. packet_of place < packet) sent
            → Appends out.old out.new (chapter_m channel from packet sent) }
    {
        let _ = tick;
        self.write_text(packet, out);
    }

    /// Appends the octets of what is kept.
    fn write_text(&self, packet: u64, out: &mut Octets)
        requires { length (params_text packet self.now.halves) ≤ out.old.spare }
        ensures { Appends out.old out.new (params_text packet self.now.halves) }
    {
        let halves = self.halves.as_slice();
        let logs = logs_len(halves);
        if logs > 0 {
            write_head(has_fresh(halves, packet), logs, out);
            write_logs(halves, packet, out);
        }
    }

    /// Whether the S bit of one of the chapter's logs in the journal of this packet is 0.
    pub fn fresh(&self, packet: u64) -> bool
        ensures test { result ≡ rows_fresh packet self.now.halves }
        ensures stands { (channel from : ℕ) (sent : List Sent) → self.now ≡ params_kept channel from sent
            → InOrder packet_of sent → AllByRecursion (λ place. packet_of place < packet) sent
            → result ≡ fresh_m channel from packet sent }
    {
        self.is_fresh(packet)
    }

    /// Whether something that is kept is of the packet before.
    fn is_fresh(&self, packet: u64) -> bool
        ensures { result ≡ rows_fresh packet self.now.halves }
    {
        has_fresh(self.halves.as_slice(), packet)
    }

    /// How many parameters are coded.
    pub fn params(&self) -> usize
        ensures number { result ≡ length (last_halves self.now.halves) }
        ensures stands { (channel from : ℕ) (sent : List Sent) → self.now ≡ params_kept channel from sent
            → InOrder packet_of sent → result ≡ param_count channel from sent }
    {
        self.coded_count()
    }

    /// How many parameters have a half that is kept.
    fn coded_count(&self) -> usize
        ensures { result ≡ length (last_halves self.now.halves) }
    {
        count(self.halves.as_slice())
    }

    /// Whether this parameter is among those that are coded.
    pub fn has_param(&self, nrpn: bool, high: D7, low: D7) -> bool
        ensures test { result ≡ has_row (record { nrpn = nrpn; high = high; low = low }) self.now.halves }
        ensures stands { (channel from : ℕ) (sent : List Sent) → self.now ≡ params_kept channel from sent
            → InOrder packet_of sent → result ≡ has_param channel from nrpn high low sent }
    {
        self.holds(&Param { nrpn, high, low })
    }

    /// Whether this parameter has a half that is kept.
    fn holds(&self, param: &Param) -> bool
        ensures { result ≡ has_row param.now self.now.halves }
    {
        has(self.halves.as_slice(), param)
    }

    /// The selected parameter: whether it is an NRPN, and the high and the low seven bits of its number. `None`
    /// where none is selected.
    pub fn selected(&self) -> Option<(bool, D7, D7)>
        ensures test { result ≡ param_parts (selected_param self.now.selection) }
        ensures stands { (channel from : ℕ) (sent : List Sent) → self.now ≡ params_kept channel from sent
            → result ≡ selected channel sent }
    {
        self.selection_parts()
    }

    /// The parts of the selected parameter.
    fn selection_parts(&self) -> Option<(bool, D7, D7)>
        ensures { result ≡ param_parts (selected_param self.now.selection) }
    {
        match self.selection.selected() {
            Some(param) => Some((param.nrpn, param.high, param.low)),
            None => None,
        }
    }

    /// Makes the content that of `other`.
    pub fn copy_from(&mut self, other: &Self)
        ensures { self.new ≡ other.now }
    {
        self.selection = other.selection;
        self.halves = copied(other.halves.as_slice());
    }
}
