//! The names that players give themselves in scripts of version 2.

ghost use Rattle.std.specs.Prelude.{◌≡◌, ◌≤◌, length};
ghost use Rattle.std.specs.List.{list_all};
ghost use Rattle.jm_script.specs.Name.{is_name_octet, is_player_name, player_name_of};

use arrayvec::ArrayVec;
use std::marker::Model;

/// The most octets of a name.
const MOST_OCTETS: usize = 16;

/// A player's name: 1 to 16 octets from a to z and 0 to 9, the first a letter. Contracts see it as their list.
#[derive(Debug, PartialEq, Eq, Drop)]
pub struct PlayerName {
    octets: ArrayVec<u8, MOST_OCTETS>,
}

impl Model for PlayerName {
    ghost use Rattle.std.specs.Prelude.{ℕ, List, length, ◌≤◌};
    ghost use Rattle.jm_script.specs.Name.{IsPlayerName};

    ghost Value = { List ℕ };

    ghost view = { λ n. n.octets.items };

    ghost invariant = { λ n. IsPlayerName n.octets.items };

    ghost inverse = { λ octets. record { octets = record { items = octets } } };
}

/// Whether an octet may stand in a name, behind its first.
fn is_name_octet(octet: u8) -> bool
    ensures { result ≡ is_name_octet octet }
{
    octet.is_ascii_lowercase() || octet.is_ascii_digit()
}

/// Whether all octets may stand in a name, behind its first.
fn are_name_octets(octets: &[u8]) -> bool
    ensures { result ≡ list_all is_name_octet octets.now }
{
    octets.iter().all(|octet| is_name_octet(*octet))
}

/// Whether octets are a name.
fn is_player_name(octets: &[u8]) -> bool
    ensures { result ≡ is_player_name octets.now }
{
    match octets {
        [] => false,
        [first, rest @ ..] => {
            first.is_ascii_lowercase() && are_name_octets(rest) && rest.len() < MOST_OCTETS
        }
    }
}

impl PlayerName {
    ghost use Rattle.jm_script.specs.Name.{IsPlayerName};

    /// The name of these octets; `None` exactly where they aren't one.
    pub fn new(octets: &[u8]) -> Option<PlayerName>
        ensures { result ≡ player_name_of octets.now }
    {
        if is_player_name(octets) {
            return Some(PlayerName::kept(octets));
        }
        None
    }

    /// The name's octets.
    pub fn as_slice(&self) -> &[u8]
        ensures octets { result.now ≡ self.now }
        ensures name { IsPlayerName self.now }
    {
        self.octets.as_slice()
    }

    /// An equal name.
    pub fn copy(&self) -> PlayerName
        ensures { result ≡ self.now }
    {
        PlayerName::kept(self.octets.as_slice())
    }

    /// The name that these octets are.
    fn kept(octets: &[u8]) -> PlayerName
        requires { IsPlayerName octets.now }
        ensures { result ≡ octets.now }
    {
        let mut kept = ArrayVec::new();
        for octet in octets {
            kept.push(*octet);
        }
        PlayerName { octets: kept }
    }
}
