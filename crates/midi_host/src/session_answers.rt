//! The line of each answer of a session.

ghost use Rattle.std.specs.Prelude.{◌≡◌, IfOk};
ghost use Rattle.midi_host.specs.SessionAnswers.{entered_line, play_refusal, played_line, cutted_line, acked_line, joined_line, gone_line, heard_line, given_line, said_line};

use jm_book::{
    Acked, Cutted, Entered, FeedbackList, Given, Gone, Heard, Joined, PlayFault, Played, Said,
};
use jm_script::{AnswerLine, Hex, Refusal};
use std::alloc::{AllocError, Global};

/// What an entering player is answered.
pub fn entered_line(answer: Entered) -> AnswerLine
    ensures { result ≡ entered_line answer }
{
    match answer {
        Entered::Player(player) => AnswerLine::Player { player },
        Entered::RecordFull { events } => AnswerLine::Refused(Refusal::RecordFull { events }),
        Entered::PlayersFull { most } => AnswerLine::Refused(Refusal::PlayersFull { most }),
    }
}

fn play_refusal(why: PlayFault) -> Refusal
    ensures { result ≡ play_refusal why }
{
    match why {
        PlayFault::UnknownPlayer => Refusal::UnknownPlayer,
        PlayFault::RecordFull { events } => Refusal::RecordFull { events },
        PlayFault::ParamsFull { channel, kept } => Refusal::ParamsFull { channel, kept },
        PlayFault::PolyFull { channel, kept } => Refusal::PolyFull { channel, kept },
        PlayFault::SysexFull { logs, octets } => Refusal::SysexFull { logs, octets },
        PlayFault::NeedsCut {
            pending,
            octets,
            delta,
        } => Refusal::NeedsCut {
            pending,
            octets,
            delta,
        },
    }
}

/// What a player's command is answered.
pub fn played_line(answer: &Played) -> AnswerLine
    ensures { result ≡ played_line answer.now }
{
    match answer {
        Played::Accepted { serial, kept } => AnswerLine::Accepted {
            serial: *serial,
            kept: *kept,
        },
        Played::Refused { why, .. } => AnswerLine::Refused(play_refusal(*why)),
    }
}

/// What a cut is answered, whose packet has these octets. A packet's octets are copied, which takes memory.
pub fn cutted_line(answer: Cutted, packet: &[u8], alloc: Global) -> Result<AnswerLine, AllocError>
    ensures { IfOk result (λ line. line ≡ cutted_line answer packet.now) }
{
    match answer {
        Cutted::Packet { number } => Ok(AnswerLine::Packet {
            number,
            octets: Hex::new(packet, alloc)?,
        }),
        Cutted::RecordFull { events } => Ok(AnswerLine::Refused(Refusal::RecordFull { events })),
        Cutted::Behind { ssrc, mark } => Ok(AnswerLine::Refused(Refusal::Behind { ssrc, mark })),
    }
}

/// What a report is answered.
pub fn acked_line(answer: Acked) -> AnswerLine
    ensures { result ≡ acked_line answer }
{
    match answer {
        Acked::Moved { mark } => AnswerLine::Mark { mark },
        Acked::UnknownSsrc => AnswerLine::Refused(Refusal::UnknownSsrc),
        Acked::RecordFull { events } => AnswerLine::Refused(Refusal::RecordFull { events }),
        Acked::Old { mark } => AnswerLine::Refused(Refusal::Old { mark }),
        Acked::NotSent { last } => AnswerLine::Refused(Refusal::NotSent { last }),
    }
}

/// What a joining participant is answered.
pub fn joined_line(answer: Joined) -> AnswerLine
    ensures { result ≡ joined_line answer }
{
    match answer {
        Joined::At { mark, player } => AnswerLine::Joined { mark, player },
        Joined::Already => AnswerLine::Refused(Refusal::Already),
        Joined::RecordFull { events } => AnswerLine::Refused(Refusal::RecordFull { events }),
        Joined::SessionFull { most } => AnswerLine::Refused(Refusal::SessionFull { most }),
    }
}

/// What a leaving participant is answered.
pub fn gone_line(answer: Gone) -> AnswerLine
    ensures { result ≡ gone_line answer }
{
    match answer {
        Gone::Left => AnswerLine::Left,
        Gone::UnknownSsrc => AnswerLine::Refused(Refusal::UnknownSsrc),
        Gone::RecordFull { events } => AnswerLine::Refused(Refusal::RecordFull { events }),
    }
}

/// What the number of a participant's own packet is answered.
pub fn heard_line(answer: Heard) -> AnswerLine
    ensures { result ≡ heard_line answer }
{
    match answer {
        Heard::Noted => AnswerLine::Noted,
        Heard::UnknownSsrc => AnswerLine::Refused(Refusal::UnknownSsrc),
        Heard::RecordFull { events } => AnswerLine::Refused(Refusal::RecordFull { events }),
    }
}

/// What a call for feedback is answered in the session of this host, which gave these entries.
pub fn given_line(ssrc: u32, answer: Given, entries: FeedbackList) -> AnswerLine
    ensures { result ≡ given_line ssrc answer entries }
{
    match answer {
        Given::Given => AnswerLine::Feedback { ssrc, entries },
        Given::RecordFull { events } => AnswerLine::Refused(Refusal::RecordFull { events }),
    }
}

/// What a message is answered.
pub fn said_line(answer: Said) -> AnswerLine
    ensures { result ≡ said_line answer }
{
    match answer {
        Said::RecordFull { events } => AnswerLine::Refused(Refusal::RecordFull { events }),
        Said::Done { reply, act } => AnswerLine::Said { reply, act },
    }
}
