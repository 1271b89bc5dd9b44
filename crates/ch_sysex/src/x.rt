//! Chapter X: System Exclusive messages (RFC 6295, B.5).

ghost use Rattle.std.specs.Prelude.{◌≡◌, ◌&&◌, ◌≤◌, ◌<◌, ◌-◌, ◌^◌, length, min, count_by, sum_by};
ghost use Rattle.std.specs.List.{list_any, flat_map};
ghost use Rattle.jm_wire.specs.Octets.{Appends};
ghost use Rattle.jm_cmds.specs.History.{InOrder, below};
ghost use Rattle.jm_cmds.specs.Sent.{packet_of, is_fresh};
ghost use Rattle.ch_sysex.specs.SysexEvent.{is_logged};
ghost use Rattle.ch_sysex.specs.ChapterX.{chapter_x, fresh_x, sysex_logs, sysex_octets, sysex_log, coded_counted, coded_sysex, is_fresh_log, has_log, log_len};

use crate::coded::{coded_event, count_after};
use crate::events::{SysexEvent, data_of, is_logged, sysex_event};
use crate::log::{event_len, write_event};
use jm_cmds::{Sent, first_place, session_history};
use jm_wire::Octets;

/// The logs and the octets that the chapter has from the checkpoint on, were all of these places sent. Octets
/// past 64 bits are told as the greatest number that 64 bits hold.
fn room_of(places: &[Sent], checkpoint: u64) -> (usize, usize)
    ensures logs { result.0 ≡ count_by has_log (coded_sysex checkpoint places.now) }
    ensures octets { result.1 ≡ min (sum_by log_len (coded_sysex checkpoint places.now)) (2 ^ 64 - 1) }
{
    let mut logs = 0;
    let mut octets = 0usize;
    let mut rest = places;
    while let Some((place, later)) = first_place(rest) {
        let event = coded_event(place, later, checkpoint);
        if is_logged(event) {
            logs += 1;
        }
        octets = octets.saturating_add(event_len(event, data_of(&place.command)));
        rest = later;
    }
    (logs, octets)
}

/// Whether this event of the place has a log that is of the packet before.
fn is_fresh_log(event: SysexEvent, place: &Sent, packet: u64) -> bool
    ensures { result ≡ (is_logged event && is_fresh packet place.now) }
{
    is_logged(event) && place.is_fresh(packet)
}

/// Whether one of the coded places has a log that is of the packet before.
fn is_any_fresh(places: &[Sent], checkpoint: u64, packet: u64) -> bool
    ensures { result ≡ list_any (is_fresh_log packet) (coded_sysex checkpoint places.now) }
{
    let mut rest = places;
    while let Some((place, later)) = first_place(rest) {
        let event = coded_event(place, later, checkpoint);
        if is_fresh_log(event, place, packet) {
            return true;
        }
        rest = later;
    }
    false
}

/// Appends the logs of the coded places. Each COUNT is told from all places.
fn write_message_logs(places: &[Sent], checkpoint: u64, packet: u64, out: &mut Octets)
    requires { length (flat_map (sysex_log packet) (coded_counted checkpoint 0 places.now)) ≤ out.old.spare }
    ensures { Appends out.old out.new (flat_map (sysex_log packet) (coded_counted checkpoint 0 places.now)) }
{
    let mut count = 0;
    let mut rest = places;
    while let Some((place, later)) = first_place(rest) {
        let event = coded_event(place, later, checkpoint);
        write_event(
            event,
            place.s_bit(packet),
            count,
            data_of(&place.command),
            out,
        );
        count = count_after(count, sysex_event(&place.command));
        rest = later;
    }
}

/// The number of Chapter X's octets in the journal of this packet. It is 0 where no message is coded.
///
/// The list is the session's history, and may go past the packet. `checkpoint` is the journal's. The
/// length has to be a number of 64 bits, as it is of each chapter within the limit of 1,000 octets.
pub fn plain_len(list: &[Sent], checkpoint: u64, packet: u64, tick: u64) -> usize
    requires order { InOrder packet_of list.now }
    requires limit { sysex_octets checkpoint (below packet_of packet list.now) < 2 ^ 64 }
    ensures number { result ≡ length (chapter_x checkpoint packet list.now) }
    ensures octets { result ≡ sysex_octets checkpoint (below packet_of packet list.now) }
{
    let _ = tick;
    room_of(session_history(list, packet), checkpoint).1
}

/// Appends Chapter X for the journal of this packet: the messages of the packets from the checkpoint on that are
/// active, oldest first.
#[tactic(auto, unfolding(crate::specs::ChapterX::chapter_x))]
pub fn plain_write(list: &[Sent], checkpoint: u64, packet: u64, tick: u64, out: &mut Octets)
    requires order { InOrder packet_of list.now }
    requires spare { length (chapter_x checkpoint packet list.now) ≤ out.old.spare }
    ensures { Appends out.old out.new (chapter_x checkpoint packet list.now) }
{
    let _ = tick;
    write_message_logs(session_history(list, packet), checkpoint, packet, out);
}

/// Whether an S bit of the chapter is 0: one of its messages is of the packet before.
#[tactic(auto, unfolding(crate::specs::ChapterX::fresh_x))]
pub fn plain_fresh(list: &[Sent], checkpoint: u64, packet: u64) -> bool
    requires { InOrder packet_of list.now }
    ensures { result ≡ fresh_x checkpoint packet list.now }
{
    is_any_fresh(session_history(list, packet), checkpoint, packet)
}

/// The logs and the octets that the chapter has with this checkpoint, were the whole list sent. Octets past 64
/// bits, which no machine's memory holds, are told as 2^64 - 1.
#[tactic(auto, unfolding(crate::specs::ChapterX::sysex_logs, crate::specs::ChapterX::sysex_octets))]
pub fn plain_room(list: &[Sent], checkpoint: u64) -> (usize, usize)
    ensures logs { result.0 ≡ sysex_logs checkpoint list.now }
    ensures octets { result.1 ≡ min (sysex_octets checkpoint list.now) (2 ^ 64 - 1) }
{
    room_of(list, checkpoint)
}
