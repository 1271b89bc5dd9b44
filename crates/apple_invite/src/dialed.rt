//! What a call comes to, and how far an invitation has come.

use apple_msg::Message;
use apple_session::PortKind;

/// How far the invitation has come.
#[derive(Clone, Copy, Debug, PartialEq, Eq)]
pub enum Phase {
    /// Nothing was sent yet.
    Fresh,
    /// The host's control port was asked and has not answered.
    AskCtl,
    /// Its control port said OK; its data port was asked and has not answered.
    AskRtp,
    /// Both said OK.
    Open,
    /// It came to its end, and nothing is sent any more.
    Closed(EndCause),
}

/// Why an invitation came to its end.
#[derive(Clone, Copy, Debug, PartialEq, Eq)]
pub enum EndCause {
    /// Twelve invitations to one port were not answered.
    NoAnswer,
    /// The port that was asked said NO.
    Rejected,
    /// The host said bye.
    Bye,
    /// It was closed here.
    Ours,
}

/// What a call did beyond what it sends.
#[derive(Clone, Copy, Debug, PartialEq, Eq)]
pub enum DialAct {
    /// Nothing.
    Plain,
    /// The data port said OK: the phase is `Open` from now on.
    Opened,
    /// The phase is `Closed` from now on, with this cause.
    Ended(EndCause),
    /// A clock exchange was answered: the host's clock shows this much less than the middle between question and
    /// answer, in units of 100 microseconds. The middle is rounded down.
    Clocked { offset: i128 },
    /// Nothing at all.
    Ignored,
}

/// What is to be sent to the host's address of a port, where anything is, and what the call did.
#[derive(Debug, PartialEq, Eq, Drop)]
pub struct Dialed {
    pub send: Option<(PortKind, Message)>,
    pub act: DialAct,
}

impl Dialed {
    ghost use Rattle.std.specs.Prelude.{◌≡◌, Some, None};
    ghost use Rattle.apple_invite.specs.declared.dialed.DialAct.TheVariants as act;

    /// Nothing to send, and this act.
    pub(crate) fn silent(act: DialAct) -> Dialed
        ensures { result ≡ record { send = None; act = act } }
    {
        Dialed { send: None, act }
    }

    /// Nothing at all.
    pub(crate) fn ignored() -> Dialed
        ensures { result ≡ record { send = None; act = act.Ignored } }
    {
        Dialed::silent(DialAct::Ignored)
    }

    /// This message to the host's address of this port, and this act.
    pub(crate) fn sends(port: PortKind, message: Message, act: DialAct) -> Dialed
        ensures { result ≡ record { send = Some (port, message); act = act } }
    {
        Dialed {
            send: Some((port, message)),
            act,
        }
    }
}
