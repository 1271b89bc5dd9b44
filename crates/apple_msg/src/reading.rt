//! Octets to a message, from the front, with the first fault.

ghost use Rattle.std.specs.Prelude.{◌≡◌, ◌≢◌, ◌<◌, ◌≤◌, length, take, position, All, IfSome, Ok, Err, MatchResult};
ghost use Rattle.std.specs.Int.{w16, w32, w64};
ghost use Rattle.apple_msg.specs.Reading.{Gives, behind_mark, verb_of, verb_at, is_end, number_at, octet_at, behind_octets, name_at, header_at, invitation_at, bye_at, clock_at, feedback_at, read_as, read};
ghost use Rattle.apple_msg.specs.Grammar.{Spells, IsFirstFault};
ghost use Rattle.apple_msg.specs.declared.message.Message.{Message};
ghost use Rattle.apple_msg.specs.declared.message.MsgFault.{MsgFault};

use crate::message::{Invitation, Message, MsgFault, Verb};
use crate::name::Name;

/// The only version that is spoken.
const VERSION: u32 = 2;

fn u16_at(octets: &[u8]) -> Result<(u16, &[u8]), MsgFault>
    ensures { Gives (λ x. (x.0, x.1.now)) result (number_at w16 octets.now) }
{
    if octets.len() < 2 {
        return Err(MsgFault::Short);
    }
    let (front, rest) = octets.split_at(2);
    let number = u16::from_be_bytes([front[0], front[1]]);
    Ok((number, rest))
}

fn u32_at(octets: &[u8]) -> Result<(u32, &[u8]), MsgFault>
    ensures { Gives (λ x. (x.0, x.1.now)) result (number_at w32 octets.now) }
{
    if octets.len() < 4 {
        return Err(MsgFault::Short);
    }
    let (front, rest) = octets.split_at(4);
    let number = u32::from_be_bytes([front[0], front[1], front[2], front[3]]);
    Ok((number, rest))
}

fn u64_at(octets: &[u8]) -> Result<(u64, &[u8]), MsgFault>
    ensures { Gives (λ x. (x.0, x.1.now)) result (number_at w64 octets.now) }
{
    if octets.len() < 8 {
        return Err(MsgFault::Short);
    }
    let (front, rest) = octets.split_at(8);
    let number = u64::from_be_bytes([
        front[0], front[1], front[2], front[3], front[4], front[5], front[6], front[7],
    ]);
    Ok((number, rest))
}

fn octet_at(octets: &[u8]) -> Result<(u8, &[u8]), MsgFault>
    ensures { Gives (λ x. (x.0, x.1.now)) result (octet_at octets.now) }
{
    match octets {
        [] => Err(MsgFault::Short),
        [octet, rest @ ..] => Ok((*octet, rest)),
    }
}

/// The octets behind_octets the first `count`, which are not looked at.
fn behind_octets(count: usize, octets: &[u8]) -> Result<&[u8], MsgFault>
    ensures { Gives (λ x. x.now) result (behind_octets count octets.now) }
{
    if octets.len() < count {
        return Err(MsgFault::Short);
    }
    Ok(&octets[count..])
}

fn behind_mark(octets: &[u8]) -> Result<&[u8], MsgFault>
    ensures { Gives (λ x. x.now) result (behind_mark octets.now) }
{
    match octets {
        [0xFF, 0xFF, rest @ ..] => Ok(rest),
        _ => Err(MsgFault::NotApple),
    }
}

fn verb_of(first: u8, second: u8) -> Option<Verb>
    ensures { result ≡ verb_of first second }
{
    match (first, second) {
        (b'I', b'N') => Some(Verb::Invite),
        (b'O', b'K') => Some(Verb::Accept),
        (b'N', b'O') => Some(Verb::Reject),
        (b'B', b'Y') => Some(Verb::Bye),
        (b'C', b'K') => Some(Verb::Clock),
        (b'R', b'S') => Some(Verb::Feedback),
        (b'R', b'L') => Some(Verb::RateLimit),
        _ => None,
    }
}

fn verb_at(octets: &[u8]) -> Result<(Verb, &[u8]), MsgFault>
    ensures { Gives (λ x. (x.0, x.1.now)) result (verb_at octets.now) }
{
    let [first, second, rest @ ..] = octets else {
        return Err(MsgFault::Short);
    };
    match verb_of(*first, *second) {
        Some(verb) => Ok((verb, rest)),
        None => Err(MsgFault::UnknownVerb),
    }
}

/// The token and the SSRC behind_octets a version of 2.
#[tactic(auto, unfolding(crate::specs::Reading::header_at))]
fn header_at(octets: &[u8]) -> Result<(u32, u32, &[u8]), MsgFault>
    ensures { Gives (λ x. (x.0, x.1, x.2.now)) result (header_at octets.now) }
{
    let (version, rest) = u32_at(octets)?;
    let (token, rest) = u32_at(rest)?;
    let (ssrc, rest) = u32_at(rest)?;
    if version != VERSION {
        return Err(MsgFault::Version);
    }
    Ok((token, ssrc, rest))
}

/// Where the first 0 stands.
fn end_of(octets: &[u8]) -> Option<usize>
    ensures end { result ≡ position is_end octets.now }
    ensures inside { IfSome result (λ end. end ≤ length octets.now) }
    ensures name { IfSome result (λ end. All (λ octet. octet ≢ 0) (take end octets.now)) }
{
    octets.iter().position(|octet| *octet == 0)
}

#[tactic(auto, unfolding(crate::specs::Reading::name_at))]
fn name_at(octets: &[u8]) -> Result<Name, MsgFault>
    ensures { result ≡ name_at octets.now }
{
    if octets.is_empty() {
        return Ok(Name::kept(octets));
    }
    match end_of(octets) {
        Some(end) => Ok(Name::kept(&octets[..end])),
        None => Err(MsgFault::NameNotEnded),
    }
}

#[tactic(auto, unfolding(crate::specs::Reading::invitation_at))]
fn invitation_at(octets: &[u8]) -> Result<Invitation, MsgFault>
    ensures { result ≡ invitation_at octets.now }
{
    let (token, ssrc, rest) = header_at(octets)?;
    let name = name_at(rest)?;
    Ok(Invitation { token, ssrc, name })
}

#[tactic(auto, unfolding(crate::specs::Reading::bye_at))]
fn bye_at(octets: &[u8]) -> Result<Message, MsgFault>
    ensures { result ≡ bye_at octets.now }
{
    let (token, ssrc, _rest) = header_at(octets)?;
    Ok(Message::Bye { token, ssrc })
}

#[tactic(auto, unfolding(crate::specs::Reading::clock_at))]
fn clock_at(octets: &[u8]) -> Result<Message, MsgFault>
    ensures { result ≡ clock_at octets.now }
{
    let (ssrc, rest) = u32_at(octets)?;
    let (count, rest) = octet_at(rest)?;
    let rest = behind_octets(3, rest)?;
    let (first, rest) = u64_at(rest)?;
    let (second, rest) = u64_at(rest)?;
    let (third, _rest) = u64_at(rest)?;
    Ok(Message::Clock {
        ssrc,
        count,
        times: [first, second, third],
    })
}

#[tactic(auto, unfolding(crate::specs::Reading::feedback_at))]
fn feedback_at(octets: &[u8]) -> Result<Message, MsgFault>
    ensures { result ≡ feedback_at octets.now }
{
    let (ssrc, rest) = u32_at(octets)?;
    let (seq, rest) = u16_at(rest)?;
    let _rest = behind_octets(2, rest)?;
    Ok(Message::Feedback { ssrc, seq })
}

fn read_as(verb: Verb, octets: &[u8]) -> Result<Message, MsgFault>
    ensures { result ≡ read_as verb octets.now }
{
    match verb {
        Verb::Invite => {
            let Invitation { token, ssrc, name } = invitation_at(octets)?;
            Ok(Message::Invite { token, ssrc, name })
        }
        Verb::Accept => {
            let Invitation { token, ssrc, name } = invitation_at(octets)?;
            Ok(Message::Accept { token, ssrc, name })
        }
        Verb::Reject => {
            let Invitation { token, ssrc, name } = invitation_at(octets)?;
            Ok(Message::Reject { token, ssrc, name })
        }
        Verb::Bye => bye_at(octets),
        Verb::Clock => clock_at(octets),
        Verb::Feedback => feedback_at(octets),
        Verb::RateLimit => Ok(Message::RateLimit),
    }
}

#[tactic(auto, unfolding(crate::specs::Reading::read))]
fn whole(octets: &[u8]) -> Result<Message, MsgFault>
    ensures { result ≡ read octets.now }
{
    let rest = behind_mark(octets)?;
    let (verb, rest) = verb_at(rest)?;
    read_as(verb, rest)
}

/// The message at the front of these octets, or the first fault in the order of [`MsgFault`]. Octets behind_octets
/// the 0 of a name or behind_octets a fixed form are not looked at.
pub fn read_message(b: &[u8]) -> Result<Message, MsgFault>
    // What is read is spelled so, and a fault is the first that holds.
    ensures reads { MatchResult result (Spells b.now) (IsFirstFault b.now) }
    // What is spelled so is read, and the first fault is answered.
    ensures only { (m : Message) → Spells b.now m → result ≡ Ok m }
    ensures only_fault { (f : MsgFault) → IsFirstFault b.now f → result ≡ Err f }

    ensures exact { result ≡ read b.now }
{
    whole(b)
}
