//! What holds of the members: who is joined, where the marks are, which slots are given, and which peers take part.

ghost use Rattle.jm_book.specs.MembersConduct.{CountsPlayers, KeepsJoined, JoinsOne, ReportsOne, ReportsMove, LeavesOne, HearsOne, SaysOne, JoinsFew, IsLeastMark, NamesSlowest, StaysNear, DeparturesFree, PeersAreJoined, InvitedStay, IsLegalByRoom};
ghost use Rattle.jm_book.specs.PeersConduct.{PeersCome, PartsStay, LeaversGo, LeaveDropsPeer};

/// As many local players entered as steps say so; a new player's number is how many entered before, and there are
/// at most 64.
pub fn counts_players()
    ensures { CountsPlayers }
{}

/// A player that enters, a play, a cut and a feedback leave the participants as they were, with their marks.
pub fn keeps_joined()
    ensures { KeepsJoined }
{}

/// A join that is answered with a mark and a player puts just that participant behind the others. Its mark is the
/// last packet that was sent, or 0 before the first; its player number is 64 and the least slot, of 32, that none of
/// the others has.
pub fn joins_one()
    ensures { JoinsOne }
{}

/// A report that is answered with a mark moves just its own participant's mark there: on, to a packet that was sent.
pub fn reports_one()
    ensures { ReportsOne }
{}

/// Where there is room, a report of a packet that was sent, past its participant's mark and less than half a round
/// of 16 bits on, moves the mark there.
pub fn reports_move()
    ensures { ReportsMove }
{}

/// A departure takes out just its own participant, and leaves the others in their order.
pub fn leaves_one()
    ensures { LeavesOne }
{}

/// A number that is heard is kept of its own participant, and changes nothing else.
pub fn hears_one()
    ensures { HearsOne }
{}

/// A message by which someone joins, leaves or reports does to the participants just what a join, a departure or a
/// report of the SSRC that it names does; any other message leaves them as they were.
pub fn says_one()
    ensures { SaysOne }
{}

/// After legal steps at most 32 participants are joined.
pub fn joins_few()
    ensures { JoinsFew }
{}

/// The checkpoint is the least of the marks; with no one joined it is the last packet that was sent, or 0.
pub fn is_least_mark()
    ensures { IsLeastMark }
{}

/// A cut that is refused names the first participant, in order of joining, that has the least mark, and the next
/// packet would be 32,767 or more past it.
pub fn names_slowest()
    ensures { NamesSlowest }
{}

/// A packet that a cut makes has the number of the packets before it, less than 32,767 past the checkpoint.
pub fn stays_near()
    ensures { StaysNear }
{}

/// After as many departures of the named participants as are joined, or fewer, a cut isn't refused for one that is
/// behind; each of the departures is taken.
pub fn departures_free()
    ensures { DeparturesFree }
{}

/// After legal steps each joined peer is a joined participant, so a report that the machine of invitations passes on
/// is always one of a joined participant.
pub fn peers_are_joined()
    ensures { PeersAreJoined }
{}

/// One that joined by an invitation and hasn't left by any step since is a joined peer and a joined participant,
/// whatever else came.
pub fn invited_stay()
    ensures { InvitedStay }
{}

/// The host keeps its SSRC and its name, and its peers are those that the machine of invitations has after the
/// messages and the departures among the steps: each was invited on the control port, and each joined one after
/// that on the data port, with one token.
pub fn peers_come()
    ensures { PeersCome }
{}

/// One that takes part goes on taking part until a step takes it out.
pub fn parts_stay()
    ensures { PartsStay }
{}

/// A step that takes a participant out leaves neither the joined peer nor the participant.
pub fn leavers_go()
    ensures { LeaversGo }
{}

/// A departure leaves no peer of its SSRC, and every other peer as it was.
pub fn leave_drops_peer()
    ensures { LeaveDropsPeer }
{}

/// Steps are legal just where each is taken as if there were room for it, and they are no more than the tape takes.
pub fn is_legal_by_room()
    ensures { IsLegalByRoom }
{}
