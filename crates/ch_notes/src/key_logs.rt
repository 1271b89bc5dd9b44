//! Lists of logs by keys: what the tables of Chapters E and A share.

ghost use Rattle.std.specs.Prelude.{ℕ, List, ◌≡◌, ◌≤◌, ◌<◌, length};
ghost use Rattle.std.specs.List.{AllByRecursion};
ghost use Rattle.jm_wire.specs.Octets.{Appends};
ghost use Rattle.jm_chapter.specs.declared.log.Log.{Log};
ghost use Rattle.jm_chapter.specs.Logs.{logs_in};
ghost use Rattle.ch_notes.specs.KeptRows.{key_texts, key_logs, key_fresh, key_listed};

use jm_chapter::{PlaceLogs, Tally};
use jm_cmds::{is_packet_before, s_of};
use jm_recency::Recency;
use jm_wire::Octets;

/// A table of logs by note: each note has one at most.
pub(crate) trait KeyLogs {
    ghost logs: { Self → ℕ → List Log };

    ghost is_within: { Self → ℕ → Type 0 };

    /// The logs of this note.
    fn logs_of(&self, key: u16) -> PlaceLogs
        requires { key < 128 }
        ensures logs { logs_in result ≡ logs self.now key }
        ensures one { length (logs_in result) ≤ 1 }
        ensures within { is_within self.now key };
}

/// How many logs these notes have, and whether one is of the packet before.
#[tactic(auto, using(crate::specs::Walks::walk_first, crate::specs::Walks::at_first, crate::specs::Walks::walk_end, crate::specs::Walks::key_below))]
pub(crate) fn key_tally<T: KeyLogs>(table: &T, recent: &Recency<128>, packet: u64) -> Tally
    ensures logs { result.logs ≡ key_logs (T.logs table.now) recent.now }
    ensures fresh { result.fresh ≡ key_fresh (T.logs table.now) packet recent.now }
    ensures few { result.logs ≤ 128 }
    ensures within { AllByRecursion (λ e. T.is_within table.now e.0) recent.now }
{
    let mut tally = Tally {
        logs: 0,
        fresh: false,
    };
    let keys = recent.len();
    let mut at = recent.first();
    while let Some(key) = at {
        let (sent_in, next) = recent.visit(key);
        let logs = table.logs_of(key);
        tally.logs += logs.len();
        tally.fresh = tally.fresh || logs.has_log() && is_packet_before(sent_in, packet);
        at = next;
    }
    let _ = keys;
    tally
}

/// Appends the logs of these notes, in the order of their latest commands.
#[tactic(auto, using(crate::specs::Walks::walk_first, crate::specs::Walks::at_first, crate::specs::Walks::walk_end, crate::specs::Walks::key_below))]
fn write_key_logs<T: KeyLogs>(table: &T, recent: &Recency<128>, packet: u64, out: &mut Octets)
    requires { length (key_texts (T.logs table.now) packet recent.now) ≤ out.old.spare }
    ensures { Appends out.old out.new (key_texts (T.logs table.now) packet recent.now) }
{
    let keys = recent.len();
    let mut at = recent.first();
    while let Some(key) = at {
        let (sent_in, next) = recent.visit(key);
        let s = s_of(is_packet_before(sent_in, packet));
        table.logs_of(key).write(s, out);
        at = next;
    }
    let _ = keys;
}

/// The number of the octets of a chapter with these logs.
#[tactic(auto, using(crate::specs::RowLaws::length_key_listed))]
pub(crate) fn key_len<T: KeyLogs>(table: &T, recent: &Recency<128>, packet: u64) -> usize
    ensures number { result ≡ length (key_listed (T.logs table.now) packet recent.now) }
    ensures bound { result ≤ 257 }
    ensures within { AllByRecursion (λ e. T.is_within table.now e.0) recent.now }
{
    key_tally(table, recent, packet).size()
}

/// Appends a chapter with these logs.
pub(crate) fn key_write<T: KeyLogs>(table: &T, recent: &Recency<128>, packet: u64, out: &mut Octets)
    requires { length (key_listed (T.logs table.now) packet recent.now) ≤ out.old.spare }
    ensures text { Appends out.old out.new (key_listed (T.logs table.now) packet recent.now) }
    ensures within { AllByRecursion (λ e. T.is_within table.now e.0) recent.now }
{
    let tally = key_tally(table, recent, packet);
    if tally.logs > 0 {
        out.push(tally.header());
        write_key_logs(table, recent, packet, out);
    }
}
