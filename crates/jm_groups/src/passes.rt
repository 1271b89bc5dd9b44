//! One thread's passes, one for each group.

ghost use Rattle.std.specs.Prelude.{ℕ, ◌≡◌, ◌≤◌, ◌<◌, ◌+◌, [], length, map, All, Some, IfOk, MatchResult, slice_get, vec_len, vec_capacity};
ghost use Rattle.std.specs.Borrow.{sem};
ghost use Rattle.std.specs.List.{AllZip, zip};
ghost use Rattle.jm_desk.specs.Sharing.{IsOf};
ghost use Rattle.jm_groups.specs.Sharing.{AreOf, HasOut, HasRoom, IsOpening, IsSplit, TakesInPair, SeesHistory, after_split, split_view, view_of};

use crate::groups::Groups;
use jm_desk::{Desk, Pass};
use std::alloc::{AllocError, Global};
use std::marker::Model;

/// They let one thread at a time call at each desk of one [`crate::Groups`]. Contracts see the list of the passes, in
/// the order of the groups.
#[derive(Drop)]
pub struct Passes {
    pub(crate) passes: Vec<Pass>,
    pub(crate) alloc: Global,
}

impl Model for Passes {
    ghost use Rattle.std.specs.Prelude.{List};
    ghost use Rattle.jm_desk.specs.Sharing.{PassView};

    ghost Value = { List PassView };

    ghost view = { λ p. p.passes.items };
}

impl Passes {
    ghost use Rattle.jm_groups.specs.Lending.{LendsPass};

    /// Lends the pass of group g. The others stay as they are.
    pub fn pass(&mut self, g: usize) -> &mut Pass
        requires { g < length self.old }
        ensures value { slice_get self.old g ≡ Some result.now }
        ensures* lends { sem 𝓛 (LendsPass self.entry g result) }
    {
        &mut self.passes[g]
    }

    /// Passes of their own for another thread: of each group one that has seen what the pass here has. Only opening
    /// passes split. Where there is no memory for them, all is as it was.
    #[tactic(auto, using(crate::specs::SharingLaws::split_own, crate::specs::SharingLaws::split_opening, crate::specs::SharingLaws::split_parts))]
    pub fn split(&mut self, groups: &Groups) -> Result<Passes, AllocError>
        requires own { AreOf groups.now self.old }
        requires opening { All IsOpening self.old }
        requires room { All HasRoom self.old }
        ensures parted { MatchResult result (λ _. self.new ≡ map after_split self.old) (λ _. self.new ≡ self.old) }
        ensures own { AreOf groups.now self.new }
        ensures others { IfOk result (λ others. AreOf groups.now others) }
        ensures given { IfOk result (λ others. map view_of others ≡ map split_view self.old) }
        ensures opening { All IsOpening self.new }
        ensures split { IfOk result (λ others. All IsSplit others) }
        ensures out { IfOk result (λ _. (n : ℕ) → All (HasOut n) self.old → All (HasOut (n + 1)) self.new) }
    {
        let mut others = Vec::with_capacity(self.alloc, self.passes.len())?;
        split_each(&mut self.passes, &groups.desks, &mut others);
        Ok(Passes {
            passes: others,
            alloc: self.alloc,
        })
    }

    /// Takes in the passes of another thread, which were split from these, with all that they have seen. It takes no
    /// memory.
    #[tactic(auto, using(crate::specs::SharingLaws::joined_opening))]
    pub fn join(&mut self, groups: &Groups, other: Passes)
        requires own { AreOf groups.now self.old }
        requires others { AreOf groups.now other }
        requires opening { All IsOpening self.old }
        requires split { All IsSplit other }
        ensures each { AllZip TakesInPair (zip self.old other) self.new }
        ensures own { AreOf groups.now self.new }
        ensures legal { AllZip SeesHistory groups.now.desks self.new }
        ensures opening { All IsOpening self.new }
        ensures out { (n : ℕ) → All (HasOut (n + 1)) self.old → All (HasOut n) self.new }
    {
        let Passes { passes, alloc: _ } = other;
        join_each(&mut self.passes, &groups.desks, passes);
    }
}

// Splits each pass at its desk.
fn split_each(passes: &mut Vec<Pass>, desks: &[Desk], others: &mut Vec<Pass>)
    requires own { AllZip IsOf desks.now passes.old.items }
    requires opening { All IsOpening passes.old.items }
    requires space { All HasRoom passes.old.items }
    requires empty { others.old.items ≡ [] }
    requires room { vec_len passes.old ≤ vec_capacity others.old }
    ensures parted { passes.new.items ≡ map after_split passes.old.items }
    ensures own { AllZip IsOf desks.now others.new.items }
    ensures given { map view_of others.new.items ≡ map split_view passes.old.items }
{
    for k in 0..passes.len() {
        let other = passes[k].split(&desks[k]);
        others.push_reserved(other);
    }
}

// Joins each of the others to the pass of its desk.
fn join_each(passes: &mut Vec<Pass>, desks: &[Desk], others: Vec<Pass>)
    requires own { AllZip IsOf desks.now passes.old.items }
    requires others { AllZip IsOf desks.now others.items }
    requires opening { All IsOpening passes.old.items }
    requires split { All IsSplit others.items }
    ensures each { AllZip TakesInPair (zip passes.old.items others.items) passes.new.items }
    ensures own { AllZip IsOf desks.now passes.new.items }
    ensures legal { AllZip SeesHistory desks.now passes.new.items }
{
    let mut others = others.into_iter();
    for k in 0..passes.len() {
        let Some(other) = others.next() else {
            unreachable!()
        };
        passes[k].join(&desks[k], other);
    }
}
