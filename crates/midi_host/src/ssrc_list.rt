//! A list of SSRCs.

ghost use Rattle.std.specs.Prelude.{◌≡◌, ◌∷◌, ◌++◌, [], length, position, OnOk};
ghost use Rattle.midi_host.specs.SsrcList.{is_it, has_ssrc, without_first};

use std::alloc::{AllocError, Global};
use std::marker::Model;

/// A list of SSRCs, in the order in which they were added.
#[derive(Debug, Drop)]
pub struct SsrcList {
    items: Vec<u32>,
}

impl Model for SsrcList {
    ghost use Rattle.std.specs.Prelude.{ℕ, List};

    ghost Value = { List ℕ };

    ghost view = { λ l. l.items.items };
}

impl SsrcList {
    /// None.
    pub fn new(alloc: Global) -> SsrcList
        ensures { result ≡ [] }
    {
        SsrcList {
            items: Vec::new(alloc),
        }
    }

    /// How many there are.
    pub fn len(&self) -> usize
        ensures { result ≡ length self.now }
    {
        self.items.len()
    }

    /// Whether this one is there.
    pub fn has(&self, ssrc: u32) -> bool
        ensures { result ≡ has_ssrc ssrc self.now }
    {
        self.items.iter().any(|one| *one == ssrc)
    }

    /// Adds one at the end.
    pub fn add(&mut self, ssrc: u32) -> Result<(), AllocError>
        ensures { OnOk result (self.new ≡ self.old ++ ssrc ∷ []) }
    {
        self.items.push(ssrc)?;
        Ok(())
    }

    /// Takes out the first that is this one, if one is.
    pub fn remove(&mut self, ssrc: u32)
        ensures { self.new ≡ without_first ssrc self.old }
    {
        if let Some(place) = place_of(self.items.as_slice(), ssrc) {
            self.items.remove(place);
        }
    }
}

// The place of the first that is this one.
fn place_of(items: &[u32], ssrc: u32) -> Option<usize>
    ensures { result ≡ position (is_it ssrc) items.now }
{
    items.iter().position(|one| *one == ssrc)
}
