//! What holds of every session, over the definitions that this crate's contracts cite. Each law is the
//! contract of a function that does nothing.

ghost use Rattle.jm_book.specs.Laws.{PacketsInOrder, TicksInOrder, KeepsPlays, NumbersPlays, KeepsPlayersInOrder, CountsPlays, SendsEntries, TakesLegally, TookLegally, PassesNoMark, NeverFalls, MarksSent, JoinsOnce, SharesNoSlot, FitsTape, CallsKeepLegal, ReportsAdvance, JoinsAtLast, KeepsTheLimits};

mod members;
mod stream;

pub use members::{
    counts_players, departures_free, hears_one, invited_stay, is_least_mark, is_legal_by_room,
    joins_few, joins_one, keeps_joined, leave_drops_peer, leavers_go, leaves_one, names_slowest,
    parts_stay, peers_are_joined, peers_come, reports_move, reports_one, says_one, stays_near,
};
pub use stream::{
    counts_cuts, divides_long, keeps_commands, keeps_packets, keeps_stream, leaves_nothing,
    needs_no_cut, packets_fit, pends_since_cut, plays_append, sends_in_turn, sends_pending,
    waits_alone,
};

/// Packet numbers never fall along the sent commands, nor along those and the pending ones.
pub fn packets_in_order()
    ensures { PacketsInOrder }
{}

/// Ticks never fall along the sent and pending commands, and none of them is past the session's tick.
pub fn ticks_in_order()
    ensures { TicksInOrder }
{}

/// The entries of all packets in order, and then those pending, are the plays in order, each with its player and command, and with the
/// greatest tick among it and all plays and cuts before it. So each accepted command is an entry of one packet or is pending.
pub fn keeps_plays()
    ensures { KeepsPlays }
{}

/// The serials of all entries are 0, 1, 2 and so on, each once, up to the number of plays.
pub fn numbers_plays()
    ensures { NumbersPlays }
{}

/// The commands of each player stand in the order of its plays.
pub fn keeps_players_in_order()
    ensures { KeepsPlayersInOrder }
{}

/// A session counts the plays, and has the greatest tick of all plays and cuts.
pub fn counts_plays()
    ensures { CountsPlays }
{}

/// The plain list of sent and pending commands has the ticks and commands of those entries, in order.
pub fn sends_entries()
    ensures { SendsEntries }
{}

/// No steps are legal, and with one more step that is taken after them, legal steps are legal.
pub fn takes_legally()
    ensures { TakesLegally }
{}

/// The steps before the last of legal ones are legal, and the last is taken after them.
pub fn took_legally()
    ensures { TookLegally }
{}

/// The checkpoint passes no joined participant's mark.
pub fn passes_no_mark()
    ensures { PassesNoMark }
{}

/// Along legal steps the checkpoint never falls.
pub fn never_falls()
    ensures { NeverFalls }
{}

/// After legal steps no mark is past the last sent packet, or 0 where none was sent.
pub fn marks_sent()
    ensures { MarksSent }
{}

/// After legal steps no SSRC is joined twice.
pub fn joins_once()
    ensures { JoinsOnce }
{}

/// After legal steps each joined participant has a slot of its own, one of 32.
pub fn shares_no_slot()
    ensures { SharesNoSlot }
{}

/// Legal steps are no more than the session was made for.
pub fn fits_tape()
    ensures { FitsTape }
{}

/// A call of a book that has legal steps leaves legal steps, where it takes a step just as it answers.
pub fn calls_keep_legal()
    ensures { CallsKeepLegal }
{}

/// A report that is taken moves the mark on to the sent packet whose low 16 bits it tells, less than
/// half a round away, and moves no other mark.
pub fn reports_advance()
    ensures { ReportsAdvance }
{}

/// A joiner's mark is the last sent packet, or 0 where none was sent.
pub fn joins_at_last()
    ensures { JoinsAtLast }
{}

/// After legal steps what is coded keeps the journal's limits: 16 parameters and 64 notes' pressures in a
/// channel, 128 SysEx in 1,000 octets; also were all pending commands sent.
pub fn keeps_limits()
    ensures { KeepsTheLimits }
{}
