//! Chapter E: note counts and release velocities that Chapter N leaves out (RFC 6295, A.7).

ghost use Rattle.std.specs.Prelude.{◌≡◌, ◌≤◌, length};
ghost use Rattle.std.proofs.Common.{lit≤};
ghost use Rattle.jm_wire.specs.Octets.{Appends};
ghost use Rattle.jm_cmds.specs.History.{InOrder};
ghost use Rattle.jm_cmds.specs.Sent.{packet_of};
ghost use Rattle.jm_chapter.specs.Logs.{logs_in};
ghost use Rattle.ch_notes.specs.NoteEvent.{IsWithin, event_at};
ghost use Rattle.ch_notes.specs.ChapterE.{count_event, ref_count, struck_logs, released_logs, extra_logs, extra_at, chapter_e, fresh_e};
ghost use Rattle.ch_notes.specs.ExtraLaws.{extra-few};

use crate::events::{NoteEvent, Notes, note_event};
use jm_chapter::{Listed, Log, PlaceLogs, listed_fresh, listed_len, listed_write};
use jm_cmds::{Channel, D7, Sent};
use jm_wire::Octets;

/// The reference count of a note behind one more event.
fn count_event(note: D7, count: u8, event: NoteEvent) -> u8
    requires { count ≤ 127 }
    ensures count { result ≡ count_event note count event }
    ensures bound { result ≤ 127 }
{
    match event {
        NoteEvent::Struck { note: other, .. } => {
            if other == note {
                return (count + 1).min(127);
            }
            count
        }
        NoteEvent::Released { note: other, .. } => {
            if other == note {
                return count.saturating_sub(1);
            }
            count
        }
        NoteEvent::Cleared => 0,
        NoteEvent::Other => count,
    }
}

/// The reference count of a note of the channel behind the whole session (RFC 6295, A.7.1). That the count
/// itself stops at 127 is this project's own choice.
fn ref_count(session: &[Sent], channel: Channel, note: D7) -> u8
    ensures count { result ≡ ref_count channel note session.now }
    ensures bound { result ≤ 127 }
{
    let mut count = 0;
    for place in session {
        count = count_event(note, count, note_event(&place.command, channel));
    }
    count
}

/// The logs of a struck note with this count, which has one unless the count is 1.
pub(crate) fn struck_logs(note: D7, count: u8) -> PlaceLogs
    ensures logs { logs_in result ≡ struck_logs note count }
    ensures one { length (logs_in result) ≤ 1 }
{
    if count == 1 {
        return PlaceLogs::Empty;
    }
    PlaceLogs::One(Log {
        number: note,
        field: count,
    })
}

/// The logs of a released note with this count: the count unless it is 0, else the velocity unless it is
/// 64. That a note has one log at most is this project's own choice.
pub(crate) fn released_logs(note: D7, velocity: D7, count: u8) -> PlaceLogs
    ensures logs { logs_in result ≡ released_logs note velocity count }
    ensures one { length (logs_in result) ≤ 1 }
{
    if count > 0 {
        return PlaceLogs::One(Log {
            number: note,
            field: count,
        });
    }
    let velocity = velocity.get();
    if velocity == 64 {
        return PlaceLogs::Empty;
    }
    PlaceLogs::One(Log {
        number: note,
        field: 128 + velocity,
    })
}

/// The logs of this event of the session.
fn extra_logs(event: NoteEvent, session: &[Sent], channel: Channel) -> PlaceLogs
    ensures { logs_in result ≡ extra_logs channel session.now event }
{
    match event {
        NoteEvent::Struck { note, .. } => struck_logs(note, ref_count(session, channel, note)),
        NoteEvent::Released { note, velocity } => {
            released_logs(note, velocity, ref_count(session, channel, note))
        }
        NoteEvent::Cleared | NoteEvent::Other => PlaceLogs::Empty,
    }
}

/// Chapter E as a list of logs, whose items are those of Chapter N.
impl Listed for Notes {
    ghost logs = { λ s session place. extra_at s.channel session place };

    ghost is_within = { λ s place. IsWithin (event_at s.channel place) };

    ghost most = { λ s. 128 };

    fn logs_of(&self, place: &Sent, session: &[Sent]) -> PlaceLogs {
        extra_logs(
            note_event(&place.command, self.channel),
            session,
            self.channel,
        )
    }

    ghost few = { λ s session places u w. extra-few s.channel session places u w };

    ghost fits = { λ s. lit≤ tt };
}

/// The number of Chapter E's octets in the journal of this packet. It is 0 where there is no log.
///
/// The list is the session's history, and may go past the packet.
#[tactic(auto, unfolding(crate::specs::ChapterE::chapter_e))]
pub fn plain_len(list: &[Sent], channel: Channel, checkpoint: u64, packet: u64, tick: u64) -> usize
    requires { InOrder packet_of list.now }
    ensures number { result ≡ length (chapter_e channel checkpoint packet list.now) }
    ensures bound { result ≤ 257 }
{
    let _ = tick;
    listed_len(&Notes { channel }, list, checkpoint, packet)
}

/// Appends Chapter E of this channel for the journal of this packet: what the packets from the checkpoint on
/// left of its notes, where Chapter N doesn't tell it.
#[tactic(auto, unfolding(crate::specs::ChapterE::chapter_e))]
pub fn plain_write(
    list: &[Sent],
    channel: Channel,
    checkpoint: u64,
    packet: u64,
    tick: u64,
    out: &mut Octets,
)
    requires order { InOrder packet_of list.now }
    requires spare { length (chapter_e channel checkpoint packet list.now) ≤ out.old.spare }
    ensures { Appends out.old out.new (chapter_e channel checkpoint packet list.now) }
{
    let _ = tick;
    listed_write(&Notes { channel }, list, checkpoint, packet, out)
}

/// Whether an S bit of the chapter is 0: one of its logs is of the packet before.
#[tactic(auto, unfolding(crate::specs::ChapterE::fresh_e))]
pub fn plain_fresh(list: &[Sent], channel: Channel, checkpoint: u64, packet: u64) -> bool
    requires { InOrder packet_of list.now }
    ensures { result ≡ fresh_e channel checkpoint packet list.now }
{
    listed_fresh(&Notes { channel }, list, checkpoint, packet)
}
