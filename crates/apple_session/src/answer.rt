//! What a message comes to.

use apple_msg::Message;

/// The port that a message came to.
#[derive(Clone, Copy, Debug, PartialEq, Eq)]
pub enum PortKind {
    /// The control port.
    Ctl,
    /// The data port, which carries the packets too.
    Rtp,
}

/// Why a message is ignored.
#[derive(Clone, Copy, Debug, PartialEq, Eq)]
pub enum Why {
    /// No peer has its SSRC.
    Unknown,
    /// The peer was invited and has not joined.
    NotJoined,
    /// A clock exchange on the control port.
    WrongPort,
    /// A host has no use for it.
    NotUsed,
}

/// What the session is to do.
#[derive(Clone, Copy, Debug, PartialEq, Eq)]
pub enum Act {
    /// Nothing beyond the reply.
    Plain,
    /// The peer of this SSRC has joined.
    Join(u32),
    /// The peer of this SSRC, which was joined, no longer is.
    Leave(u32),
    /// The joined peer `ssrc` has received the packet whose number has these low 16 bits.
    Ack { ssrc: u32, seq: u16 },
    /// A clock exchange came to its end: the peer's clock shows this much more than the host's, in units of 100
    /// microseconds, rounded down.
    Clocked { offset: i128 },
    /// Nothing at all.
    Ignored(Why),
}

/// The reply to the sender, where there is one, and what the session is to do.
#[derive(Debug, PartialEq, Eq, Drop)]
pub struct Answer {
    pub reply: Option<Message>,
    pub act: Act,
}

impl Answer {
    ghost use Rattle.std.specs.Prelude.{◌≡◌, None};

    /// No reply, and this act.
    pub(crate) fn silent(act: Act) -> Answer
        ensures { result ≡ record { reply = None; act = act } }
    {
        Answer { reply: None, act }
    }
}
