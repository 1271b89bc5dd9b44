//! What holds of the machine at all times, over the definitions that the contracts of this crate cite.

ghost use Rattle.apple_invite.specs.Laws.{OpenWasTakenTwice, OpenWasHeld, OpensSomewhere};

/// After any calls of a new inviter its phase is `Open` only where an OK with its token came from the host's control
/// address on the control port, later one of the same SSRC from its data address on the data port, and since then
/// neither a bye of that SSRC from the host's address of its port nor `close`.
pub fn law_calls()
    ensures { OpenWasTakenTwice }
{}

/// Take any run of one inviter and one host of apple_session. What was sent may come late, again, out of order or
/// never. Strangers may send the host anything from other addresses than the inviter's, and the inviter hears from the
/// host's addresses only what the host sent to it. Where the phase is `Open`, the host held the inviter's SSRC with its
/// token as joined at an earlier moment of this run. It isn't said that the host still does.
pub fn law_open()
    ensures { OpenWasHeld }
{}

/// Some such run leaves an inviter in the phase `Open`.
pub fn some_run_opens()
    ensures { OpensSomewhere }
{}
