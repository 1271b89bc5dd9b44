//! What a message says, and what is wrong with octets that are none.

use crate::name::Name;
use thiserror::Error;

/// A message of the session protocol.
#[derive(Debug, PartialEq, Eq, Drop)]
pub enum Message {
    /// `IN`: the sender asks to take part. `token` is its number for this invitation, `ssrc` is its own.
    Invite {
        token: u32,
        ssrc: u32,
        name: Name,
    },
    /// `OK`: the answer to an invitation that is taken; the token is the invitation's, the rest the sender's.
    Accept {
        token: u32,
        ssrc: u32,
        name: Name,
    },
    /// `NO`: the answer to an invitation that is refused.
    Reject {
        token: u32,
        ssrc: u32,
        name: Name,
    },
    /// `BY`: the sender leaves.
    Bye {
        token: u32,
        ssrc: u32,
    },
    /// `CK`: one step of a clock exchange, `count` of 0, 1 or 2, with the moments of the steps so far in units
    /// of 100 microseconds.
    Clock {
        ssrc: u32,
        count: u8,
        times: [u64; 3],
    },
    /// `RS`: the last packet number, in its low 16 bits, that the receiver has taken.
    Feedback {
        ssrc: u32,
        seq: u16,
    },
    /// `RL`: a limit on the rate, which is not looked at.
    RateLimit,
}

impl Message {
    ghost use Rattle.std.specs.Prelude.{◌≡◌};

    /// An equal message.
    pub fn copy(&self) -> Message
        ensures { result ≡ self.now }
    {
        match self {
            Message::Invite { token, ssrc, name } => Message::Invite {
                token: *token,
                ssrc: *ssrc,
                name: name.copy(),
            },
            Message::Accept { token, ssrc, name } => Message::Accept {
                token: *token,
                ssrc: *ssrc,
                name: name.copy(),
            },
            Message::Reject { token, ssrc, name } => Message::Reject {
                token: *token,
                ssrc: *ssrc,
                name: name.copy(),
            },
            Message::Bye { token, ssrc } => Message::Bye {
                token: *token,
                ssrc: *ssrc,
            },
            Message::Clock { ssrc, count, times } => Message::Clock {
                ssrc: *ssrc,
                count: *count,
                times: *times,
            },
            Message::Feedback { ssrc, seq } => Message::Feedback {
                ssrc: *ssrc,
                seq: *seq,
            },
            Message::RateLimit => Message::RateLimit,
        }
    }
}

/// Why octets are no message; the first that holds, in this order.
#[derive(Clone, Copy, Debug, Drop, PartialEq, Eq, Error)]
pub enum MsgFault {
    /// FF FF does not stand at the front.
    #[error("not an AppleMIDI message")]
    NotApple,
    /// The two octets behind_octets FF FF are there, and are not the letters of a message.
    #[error("unknown verb")]
    UnknownVerb,
    /// The octets end before the fixed part does.
    #[error("too few octets")]
    Short,
    /// The message has a version, and it is not 2.
    #[error("a version other than 2")]
    Version,
    /// Octets follow the fixed part where a name may stand, and none of them is 0.
    #[error("the name has no end")]
    NameNotEnded,
}

/// What the two letters of a message say that it is.
#[derive(Clone, Copy)]
pub(crate) enum Verb {
    Invite,
    Accept,
    Reject,
    Bye,
    Clock,
    Feedback,
    RateLimit,
}

/// What an invitation and both of its answers carry.
pub(crate) struct Invitation {
    pub token: u32,
    pub ssrc: u32,
    pub name: Name,
}
