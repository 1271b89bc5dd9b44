//! The players that entered by name.

ghost use Rattle.std.specs.Prelude.{◌≡◌, ◌++◌, ◌∷◌, [], OnOk};
ghost use Rattle.midi_host.specs.Players.{player_named};

use jm_script::PlayerName;
use std::alloc::{AllocError, Global};
use std::marker::Model;

/// A player that entered by name.
#[derive(Debug, Drop)]
pub struct NamedPlayer {
    pub name: PlayerName,
    pub player: u8,
}

/// The players that entered by name, in order. Contracts see them as their list.
#[derive(Debug, Drop)]
pub struct Players {
    players: Vec<NamedPlayer>,
}

impl Model for Players {
    ghost use Rattle.std.specs.Prelude.{List};
    ghost use Rattle.midi_host.specs.declared.players.NamedPlayer.{NamedPlayer};

    ghost Value = { List NamedPlayer };

    ghost view = { λ p. p.players.items };
}

impl Players {
    /// None.
    pub fn new(alloc: Global) -> Players
        ensures { result ≡ [] }
    {
        Players {
            players: Vec::new(alloc),
        }
    }

    /// The number of the player of this name, if one entered.
    pub fn number_of(&self, name: &PlayerName) -> Option<u8>
        ensures { result ≡ player_named name.now self.now }
    {
        for one in &self.players {
            if one.name.as_slice() == name.as_slice() {
                return Some(one.player);
            }
        }
        None
    }

    /// Adds one at the end.
    pub fn push(&mut self, one: NamedPlayer) -> Result<(), AllocError>
        ensures { OnOk result (self.new ≡ self.old ++ one ∷ []) }
    {
        self.players.push(one)?;
        Ok(())
    }
}
