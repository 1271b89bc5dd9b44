//! Chapter D: System Reset, Tune Request and Song Select (RFC 6295, B.1).

ghost use Rattle.std.specs.Prelude.{◌≡◌, ◌≤◌, ◌<◌, length};
ghost use Rattle.jm_wire.specs.Octets.{Appends};
ghost use Rattle.jm_cmds.specs.History.{InOrder};
ghost use Rattle.jm_cmds.specs.Sent.{packet_of};
ghost use Rattle.ch_system.specs.Items.{item_fresh};
ghost use Rattle.ch_system.specs.ChapterD.{chapter_d, fresh_d, song_of, count_logs, song_logs};
ghost use Rattle.ch_system.specs.Logs.{listed, bit_of, logs_head, logs_octets, logs_fresh};

use crate::items::{SystemItem, coded_place, item_count};
use jm_cmds::{Command, D7, Sent, s_of, session_history};
use jm_wire::Octets;

/// The log of one item, where the item is coded.
#[derive(Clone, Copy)]
pub(crate) struct Log {
    /// S with COUNT or VALUE.
    pub(crate) octet: Option<u8>,
    /// Whether S is 0.
    pub(crate) fresh: bool,
}

/// The three logs that the chapter may have.
#[derive(Clone, Copy)]
pub(crate) struct Logs {
    pub(crate) reset: Log,
    pub(crate) tune: Log,
    pub(crate) song: Log,
}

impl Log {
    /// Whether the item is coded, as a bit.
    fn bit(&self) -> u8
        ensures bit { result ≡ bit_of self.now.octet }
        ensures bound { result ≤ 1 }
    {
        match self.octet {
            None => 0,
            Some(_) => 1,
        }
    }

    /// Appends the log, if there is one.
    fn write(&self, out: &mut Octets)
        requires { length (listed self.now.octet) ≤ out.old.spare }
        ensures { Appends out.old out.new (listed self.now.octet) }
    {
        if let Some(octet) = self.octet {
            out.push(octet);
        }
    }
}

impl Logs {
    /// The first octet of the chapter: S, B for a reset, G for a tuning and H for a song.
    fn head(&self) -> u8
        ensures { result ≡ logs_head self.now }
    {
        s_of(self.is_fresh()) + 64 * self.reset.bit() + 32 * self.tune.bit() + 16 * self.song.bit()
    }

    /// Whether the S of a log is 0.
    pub(crate) fn is_fresh(&self) -> bool
        ensures { result ≡ logs_fresh self.now }
    {
        self.reset.fresh || self.tune.fresh || self.song.fresh
    }

    /// The number of the chapter's octets.
    pub(crate) fn len(&self) -> usize
        ensures number { result ≡ length (logs_octets self.now) }
        ensures bound { result ≤ 4 }
    {
        let logs = self.reset.bit() + self.tune.bit() + self.song.bit();
        if logs == 0 {
            return 0;
        }
        1 + logs as usize
    }

    /// Appends the chapter.
    pub(crate) fn write(&self, out: &mut Octets)
        requires { length (logs_octets self.now) ≤ out.old.spare }
        ensures { Appends out.old out.new (logs_octets self.now) }
    {
        if self.len() == 0 {
            return;
        }
        out.push(self.head());
        self.reset.write(out);
        self.tune.write(out);
        self.song.write(out);
    }
}

/// The song that this command chooses, or 0.
pub(crate) fn song_of(command: &Command) -> D7
    ensures song { result ≡ song_of command.now }
    ensures bound { result < 128 }
{
    match command {
        Command::SongSelect { song } => {
            // For the prover, which learns its range by this.
            let _song = song.get();
            *song
        }
        _ => D7::low(0),
    }
}

/// The log of an item that is counted.
fn count_log(list: &[Sent], item: SystemItem, checkpoint: u64, packet: u64) -> Log
    requires { InOrder packet_of list.now }
    ensures log { listed result.octet ≡ count_logs item checkpoint packet list.now }
    ensures fresh { result.fresh ≡ item_fresh item checkpoint packet list.now }
{
    match coded_place(list, item, checkpoint, packet) {
        None => Log {
            octet: None,
            fresh: false,
        },
        Some(place) => Log {
            octet: Some(place.s_bit(packet) + item_count(session_history(list, packet), item)),
            fresh: place.is_fresh(packet),
        },
    }
}

/// The log of the song.
fn song_log(list: &[Sent], checkpoint: u64, packet: u64) -> Log
    requires { InOrder packet_of list.now }
    ensures log { listed result.octet ≡ song_logs checkpoint packet list.now }
    ensures fresh { result.fresh ≡ item_fresh SystemItem.Song checkpoint packet list.now }
{
    match coded_place(list, SystemItem::Song, checkpoint, packet) {
        None => Log {
            octet: None,
            fresh: false,
        },
        Some(place) => Log {
            octet: Some(place.s_bit(packet) + song_of(&place.command).get()),
            fresh: place.is_fresh(packet),
        },
    }
}

/// The logs of this packet's journal.
#[tactic(auto, unfolding(crate::specs::ChapterD::chapter_d, crate::specs::ChapterD::fresh_d))]
fn logs_of(list: &[Sent], checkpoint: u64, packet: u64) -> Logs
    requires { InOrder packet_of list.now }
    ensures octets { logs_octets result ≡ chapter_d checkpoint packet list.now }
    ensures fresh { logs_fresh result ≡ fresh_d checkpoint packet list.now }
{
    Logs {
        reset: count_log(list, SystemItem::Reset, checkpoint, packet),
        tune: count_log(list, SystemItem::Tune, checkpoint, packet),
        song: song_log(list, checkpoint, packet),
    }
}

/// The number of Chapter D's octets in the journal of this packet. It is 0 where none of its items is coded.
///
/// The list is the session's history, and may go past the packet. `checkpoint` is the journal's.
pub fn plain_len(list: &[Sent], checkpoint: u64, packet: u64, tick: u64) -> usize
    requires { InOrder packet_of list.now }
    ensures number { result ≡ length (chapter_d checkpoint packet list.now) }
    ensures bound { result ≤ 4 }
{
    let _ = tick;
    logs_of(list, checkpoint, packet).len()
}

/// Appends Chapter D for the journal of this packet: the last System Reset and the last Tune Request, each with how
/// often the session has sent it, and the song, where the packets from the checkpoint on brought them and no Reset State
/// command followed. `tick` is the packet's, in units of 100 microseconds.
pub fn plain_write(list: &[Sent], checkpoint: u64, packet: u64, tick: u64, out: &mut Octets)
    requires order { InOrder packet_of list.now }
    requires spare { length (chapter_d checkpoint packet list.now) ≤ out.old.spare }
    ensures { Appends out.old out.new (chapter_d checkpoint packet list.now) }
{
    let _ = tick;
    logs_of(list, checkpoint, packet).write(out);
}

/// Whether the S of the chapter is 0: a command of its logs is of the packet before.
pub fn plain_fresh(list: &[Sent], checkpoint: u64, packet: u64) -> bool
    requires { InOrder packet_of list.now }
    ensures { result ≡ fresh_d checkpoint packet list.now }
{
    logs_of(list, checkpoint, packet).is_fresh()
}
