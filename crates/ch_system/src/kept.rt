//! What the tables keep of one item.

ghost use Rattle.std.specs.Prelude.{◌≡◌, ◌+◌, ◌%◌, ◌<◌, []};
ghost use Rattle.std.specs.List.{list_any};
ghost use Rattle.jm_cmds.specs.KeptItem.{kept_fresh, kept_since};
ghost use Rattle.ch_system.specs.Tables.{item_noted, latest_in, none_counted, counted_noted, counted_cut, counted_text, counted_in};
ghost use Rattle.ch_system.specs.Logs.{listed};

use crate::d::{Log, song_of};
use crate::items::{SystemItem, is_of};
use jm_cmds::{Command, D7, is_packet_before, s_of};

/// The place of an item that is coded, if there is one.
#[derive(Clone, Copy, Debug)]
pub(crate) struct Latest {
    /// Its packet and its song, 0 where it chooses none.
    pub(crate) place: Option<(u64, D7)>,
}

/// An item that is counted: how often the session sent it, modulo 128, and the place that is coded.
#[derive(Clone, Copy, Debug)]
pub(crate) struct Counted {
    pub(crate) count: u8,
    pub(crate) latest: Latest,
}

impl Latest {
    /// Nothing.
    pub(crate) fn none() -> Latest
        ensures { latest_in result ≡ [] }
    {
        Latest { place: None }
    }

    /// One command more: one of the item takes its place, and a Reset State command ends it.
    pub(crate) fn noted(self, item: SystemItem, command: &Command, packet: u64) -> Latest
        ensures { latest_in result ≡ item_noted item command.now packet (latest_in self) }
    {
        if is_of(command, item) {
            return Latest {
                place: Some((packet, song_of(command))),
            };
        }
        if command.is_reset() {
            return Latest::none();
        }
        self
    }

    /// What is left of it from this packet on.
    pub(crate) fn cut(self, packet: u64) -> Latest
        ensures { latest_in result ≡ kept_since packet (latest_in self) }
    {
        if let Some((sent_in, _)) = self.place {
            if sent_in < packet {
                return Latest::none();
            }
        }
        self
    }

    /// Whether it is of the packet before.
    pub(crate) fn is_fresh(&self, packet: u64) -> bool
        ensures { result ≡ list_any (kept_fresh packet) (latest_in self.now) }
    {
        match self.place {
            None => false,
            Some((sent_in, _)) => is_packet_before(sent_in, packet),
        }
    }
}

impl Counted {
    /// Nothing.
    pub(crate) fn none() -> Counted
        ensures state { counted_in result ≡ none_counted }
        ensures bound { result.count < 128 }
    {
        Counted {
            count: 0,
            latest: Latest::none(),
        }
    }

    /// One command more.
    pub(crate) fn noted(self, item: SystemItem, command: &Command, packet: u64) -> Counted
        requires { self.count < 128 }
        ensures state { counted_in result ≡ counted_noted item command.now packet (counted_in self) }
        ensures bound { result.count < 128 }
    {
        let latest = self.latest.noted(item, command, packet);
        if is_of(command, item) {
            let count = (self.count + 1) % 128;
            return Counted { count, latest };
        }
        Counted {
            count: self.count,
            latest,
        }
    }

    /// What is left of it from this packet on: the count stays.
    pub(crate) fn cut(self, packet: u64) -> Counted
        requires { self.count < 128 }
        ensures state { counted_in result ≡ counted_cut packet (counted_in self) }
        ensures bound { result.count < 128 }
    {
        Counted {
            count: self.count,
            latest: self.latest.cut(packet),
        }
    }

    /// Its log in the journal of this packet.
    pub(crate) fn log(&self, packet: u64) -> Log
        requires { self.now.count < 128 }
        ensures log { listed result.octet ≡ counted_text packet (counted_in self.now) }
        ensures fresh { result.fresh ≡ list_any (kept_fresh packet) (latest_in self.now.latest) }
    {
        let fresh = self.latest.is_fresh(packet);
        match self.latest.place {
            None => Log { octet: None, fresh },
            Some((sent_in, _)) => Log {
                octet: Some(s_of(is_packet_before(sent_in, packet)) + self.count),
                fresh,
            },
        }
    }
}
