//! What holds of the machine at all times, over the definitions that the contracts of this crate cite.

ghost use Rattle.apple_session.specs.Conduct.{PeersStayOrderly, PeersCameByInvitation, OthersStay, JoinedStay, OrderStays, ActsTell, RepliesAreFinal, OffsetsRoundDown};
ghost use Rattle.apple_session.specs.Answered.{OrderIsOfFirstInvitations, InvitedKeepTheirPlaces, OkIsOfListed, NoChangesNothing, ByesEnd, AcksAreOfJoined, ClockedAreOfJoined};

/// After any calls a host has at most 32 peers, no two of one SSRC and none of its own.
pub fn peers_stay_orderly()
    ensures { PeersStayOrderly }
{}

/// After any calls each peer was invited on the control port, from the address that is kept, and each joined
/// one after that on the data port, from the address that is kept, with the same token and while there was
/// room.
pub fn peers_came_by_invitation()
    ensures { PeersCameByInvitation }
{}

/// A message leaves each peer of another SSRC as it was, but for the first one that is only invited, where a
/// first invitation finds 32 peers.
pub fn others_stay()
    ensures { OthersStay }
{}

/// A message leaves each joined peer of another SSRC as it was.
pub fn joined_stay()
    ensures { JoinedStay }
{}

/// A message leaves the peers in their order, without some of them perhaps, and puts at most one behind them.
pub fn order_stays()
    ensures { OrderStays }
{}

/// The list is in the order of first invitations. Each peer that is still there keeps its place among the others,
/// whatever became of it. A peer is added by an invitation on the control port alone, from an SSRC that wasn't
/// listed: it stands last, with the token and the address of its invitation, and is only invited.
pub fn order_of_first_invitations()
    ensures { OrderIsOfFirstInvitations }
{}

/// A listed peer that joins or is invited again keeps its place, and nobody comes or goes by that.
pub fn invited_keep_their_places()
    ensures { InvitedKeepTheirPlaces }
{}

/// OK is said only to an invitation, with its token and the host's own SSRC and name, where its sender is then
/// listed with this token, and on the data port is joined.
pub fn ok_is_of_listed()
    ensures { OkIsOfListed }
{}

/// NO is said only to an invitation, with its token and the host's own SSRC and name, and nothing else comes of
/// that invitation: the act is `Plain`, and the peers are as they were.
pub fn no_changes_nothing()
    ensures { NoChangesNothing }
{}

/// After a bye its sender isn't listed.
pub fn byes_end()
    ensures { ByesEnd }
{}

/// An `Ack` comes of feedback alone, from a joined peer, and has the sender's SSRC and the number of the message.
pub fn acks_are_of_joined()
    ensures { AcksAreOfJoined }
{}

/// A `Clocked` comes of a clock message of count 2 on the data port alone, from a joined peer, and has the offset
/// of its three moments.
pub fn clocked_are_of_joined()
    ensures { ClockedAreOfJoined }
{}

/// A peer takes part from its `Join` to its `Leave`: it didn't before the one and does after it, did before the
/// other and doesn't after it, and no other act changes whether it does.
pub fn acts_tell()
    ensures { ActsTell }
{}

/// What a host replies is never replied to, by any host.
pub fn replies_are_final()
    ensures { RepliesAreFinal }
{}

/// Offsets are rounded down, also where they are negative.
pub fn offsets_round_down()
    ensures { OffsetsRoundDown }
{}
