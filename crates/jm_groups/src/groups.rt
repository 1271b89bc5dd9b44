//! The desks of the groups, opened over their books and closed again.

ghost use Rattle.std.specs.Prelude.{◌≡◌, ◌≤◌, ◌<◌, ◌+◌, [], length, map, All, Some, Err, IfOk, OnOk, IfErr, IfNone, IsOk, MatchOption, slice_get, vec_len, vec_capacity};
ghost use Rattle.std.specs.List.{AllZip};
ghost use Rattle.jm_desk.specs.Sharing.{IsOf};
ghost use Rattle.jm_groups.specs.declared.fault.GroupsFault.TheVariants.{NoMemory};
ghost use Rattle.jm_groups.specs.Opening.{long_route, refusal};
ghost use Rattle.jm_groups.specs.Routes.{group_of};
ghost use Rattle.jm_groups.specs.Sharing.{AreOf, IsOpening, IsWhole, HasOut, book_of, first_view, items_of, taken_seen, view_of};

use crate::fault::GroupsFault;
use crate::passes::Passes;
use crate::route::{Route, is_met};
use jm_book::{Book, Step};
use jm_desk::{Desk, Pass};
use jm_edge::Addr;
use std::alloc::{AllocError, Global};
use std::marker::Model;

/// So many groups there are at most.
pub const MOST_GROUPS: usize = 8;

/// One to eight sessions, each with a desk of its own, and the routes by which an address finds its group. Contracts
/// see the desks and the routes.
#[derive(Drop)]
pub struct Groups {
    pub(crate) desks: Vec<Desk>,
    routes: Vec<Route>,
    // room for the tapes, so that closing takes no memory
    tapes: Vec<Vec<Step>>,
}

impl Model for Groups {
    ghost use Rattle.std.specs.Prelude.{◌≡◌, ◌≤◌, ◌+◌, [], length, All, vec_len, vec_capacity};
    ghost use Rattle.jm_groups.specs.Sharing.{Grouped};

    ghost Value = { Grouped };

    ghost view = { λ g. record { desks = g.desks.items; routes = g.routes.items } };

    ghost invariant = { λ g. (vec_len g.routes + 1 ≡ vec_len g.desks) × (vec_len g.desks ≤ 8) × All (λ r. r.bits ≤ 32) g.routes.items × (vec_len g.desks ≤ vec_capacity g.tapes) × (g.tapes.items ≡ []) };
}

impl Groups {
    /// Opens a desk over each of these books, which have taken no step, with the opening pass of each. There are 1 to
    /// 8 books, and one route fewer: the route at place 0 leads to the group of the second book, and so on. Where they
    /// are refused, or memory is, the books are dropped.
    pub fn new(
        books: Vec<Book>,
        routes: Vec<Route>,
        alloc: Global,
    ) -> Result<(Groups, Passes), GroupsFault>
        requires { All (λ b. b.steps ≡ []) books.items }
        ensures refused { MatchOption (refusal (vec_len books) routes.items) (IfErr result (λ why. why ≡ NoMemory)) (λ why. result ≡ Err why) }
        ensures routes { IfOk result (λ t. t.0.routes ≡ routes.items) }
        ensures books { IfOk result (λ t. map book_of t.0.desks ≡ books.items) }
        ensures own { IfOk result (λ t. AreOf t.0 t.1) }
        ensures views { IfOk result (λ t. map view_of t.1 ≡ map first_view t.0.desks) }
        ensures opening { IfOk result (λ t. All IsOpening t.1) }
        ensures alone { IfOk result (λ t. All (HasOut 0) t.1) }
    {
        refuse(books.len(), &routes)?;
        let mut desks = Vec::with_capacity(alloc, books.len())?;
        let mut passes = Vec::with_capacity(alloc, books.len())?;
        let tapes = Vec::with_capacity(alloc, books.len())?;
        open_each(books, &mut desks, &mut passes, alloc)?;
        Ok((
            Groups {
                desks,
                routes,
                tapes,
            },
            Passes { passes, alloc },
        ))
    }

    /// Which group an address is of: 1 plus the place of the first route that it meets, else 0. The port doesn't matter.
    pub fn group_of(&self, from: Addr) -> usize
        ensures group { result ≡ group_of from.host self.now.routes }
        ensures bound { result < length self.now.desks }
    {
        group_among(&self.routes, from.host)
    }

    /// How many groups there are, 1 to 8.
    pub fn count(&self) -> usize
        ensures count { result ≡ length self.now.desks }
        ensures routes { result ≡ length self.now.routes + 1 }
        ensures bound { result ≤ 8 }
    {
        self.desks.len()
    }

    /// The desk of this group.
    pub fn desk(&self, g: usize) -> &Desk
        requires { g < length self.now.desks }
        ensures { slice_get self.now.desks g ≡ Some result.now }
    {
        &self.desks[g]
    }

    /// Ends the sharing, and gives the tape of each group: what the close of its desk gives. It takes no memory.
    pub fn close(self, passes: Passes) -> Vec<Vec<Step>>
        requires own { AreOf self passes }
        requires opening { All IsOpening passes }
        requires alone { All (HasOut 0) passes }
        ensures steps { map items_of result.items ≡ map taken_seen passes }
        ensures whole { AllZip IsWhole self.desks passes }
    {
        let Groups {
            desks,
            routes: _,
            mut tapes,
        } = self;
        let Passes { passes, alloc: _ } = passes;
        close_each(desks, passes, &mut tapes);
        tapes
    }
}

// Whether so many books with these routes make groups, and else why not.
fn refuse(books: usize, routes: &[Route]) -> Result<(), GroupsFault>
    ensures refused { MatchOption (refusal books routes.now) (IsOk result) (λ why. result ≡ Err why) }
    ensures count { OnOk result ((length routes.now + 1 ≡ books) × (books ≤ 8)) }
    ensures bits { OnOk result (All (λ r. r.bits ≤ 32) routes.now) }
{
    if books == 0 {
        return Err(GroupsFault::NoGroup);
    }
    if MOST_GROUPS < books {
        return Err(GroupsFault::TooMany { count: books });
    }
    if routes.len() + 1 != books {
        return Err(GroupsFault::RouteCount {
            count: routes.len(),
        });
    }
    match long_route(routes) {
        Some(place) => Err(GroupsFault::BadRoute { place }),
        None => Ok(()),
    }
}

// The place of the first route of over 32 bits.
fn long_route(routes: &[Route]) -> Option<usize>
    ensures first { result ≡ long_route routes.now }
    ensures none { IfNone result (All (λ r. r.bits ≤ 32) routes.now) }
{
    for (place, route) in routes.iter().enumerate() {
        if 32 < route.bits {
            return Some(place);
        }
    }
    None
}

// 1 plus the place of the first of these routes that the host meets, else 0.
fn group_among(routes: &[Route], host: u32) -> usize
    requires { All (λ r. r.bits ≤ 32) routes.now }
    ensures group { result ≡ group_of host routes.now }
    ensures bound { result ≤ length routes.now }
{
    for (place, route) in routes.iter().enumerate() {
        if is_met(route, host) {
            return place + 1;
        }
    }
    0
}

// Opens a desk over each book.
fn open_each(
    books: Vec<Book>,
    desks: &mut Vec<Desk>,
    passes: &mut Vec<Pass>,
    alloc: Global,
) -> Result<(), AllocError>
    requires steps { All (λ b. b.steps ≡ []) books.items }
    requires none { (desks.old.items ≡ []) × (passes.old.items ≡ []) }
    requires room { (vec_len books ≤ vec_capacity desks.old) × (vec_len books ≤ vec_capacity passes.old) }
    ensures books { OnOk result (map book_of desks.new.items ≡ books.items) }
    ensures own { OnOk result (AllZip IsOf desks.new.items passes.new.items) }
    ensures views { OnOk result (map view_of passes.new.items ≡ map first_view desks.new.items) }
    ensures opening { OnOk result (All IsOpening passes.new.items) }
    ensures alone { OnOk result (All (HasOut 0) passes.new.items) }
    ensures count { OnOk result (vec_len desks.new ≡ vec_len books) }
{
    let mut books = books.into_iter();
    while let Some(book) = books.next() {
        let (desk, pass) = Desk::new(book, alloc)?;
        desks.push_reserved(desk);
        passes.push_reserved(pass);
    }
    Ok(())
}

// Closes each desk with its pass.
fn close_each(desks: Vec<Desk>, passes: Vec<Pass>, tapes: &mut Vec<Vec<Step>>)
    requires own { AllZip IsOf desks.items passes.items }
    requires opening { All IsOpening passes.items }
    requires alone { All (HasOut 0) passes.items }
    requires none { tapes.old.items ≡ [] }
    requires room { vec_len desks ≤ vec_capacity tapes.old }
    ensures steps { map items_of tapes.new.items ≡ map taken_seen passes.items }
    ensures whole { AllZip IsWhole desks.items passes.items }
{
    let mut desks = desks.into_iter();
    let mut passes = passes.into_iter();
    while let Some(desk) = desks.next() {
        let Some(pass) = passes.next() else {
            unreachable!()
        };
        tapes.push_reserved(desk.close(pass));
    }
}
