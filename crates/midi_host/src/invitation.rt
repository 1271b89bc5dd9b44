//! The words of `invite`.

ghost use Rattle.std.specs.Prelude.{◌≡◌, ◌<◌, ◌≤◌, IfSome};
ghost use Rattle.midi_host.specs.Invitation.{control_of, turns_of, invitation_of};

use super::word::Word;
use jm_edge::Addr;
use jm_script::{addr, number};

/// The most turns that a call may have.
const MOST_TURNS: u64 = 4_294_967_295;

/// Whom the words of `invite` call, and for how many turns.
#[derive(Clone, Copy, Debug, PartialEq, Eq)]
pub struct Invitation {
    /// The address of the host's control port, below 65,535: the data port is the next one.
    pub to: Addr,
    /// From 1 to 4,294,967,295.
    pub turns: u32,
}

// The address of a control port that a word writes.
fn control_address(word: &[u8]) -> Option<Addr>
    ensures value { result ≡ control_of word.now }
    ensures next { IfSome result (λ to. to.port < 65535) }
{
    let Some(to) = addr(word) else {
        return None;
    };
    if to.port < u16::MAX { Some(to) } else { None }
}

// The number of turns that a word writes.
fn turn_count(word: &[u8]) -> Option<u32>
    ensures value { result ≡ turns_of word.now }
{
    let Some(turns) = number(word, MOST_TURNS) else {
        return None;
    };
    if turns > 0 { Some(turns as u32) } else { None }
}

/// What the words of `invite` ask for: `invite ADDR TURNS`, with eight hexadecimal digits, a colon and a port below 65,535,
/// and with a number from 1 to 4,294,967,295. `None` exactly where the words aren't these.
#[tactic(auto, unfolding(crate::specs::Invitation::invitation_of))]
pub fn invitation_of(words: &[Word]) -> Option<Invitation>
    ensures value { result ≡ invitation_of words.now }
    ensures next { IfSome result (λ invitation. invitation.to.port < 65535) }
{
    let [verb, host, count] = words else {
        return None;
    };
    if verb.as_bytes() != b"invite".as_slice() {
        return None;
    }
    let Some(to) = control_address(host.as_bytes()) else {
        return None;
    };
    let Some(turns) = turn_count(count.as_bytes()) else {
        return None;
    };
    Some(Invitation { to, turns })
}
