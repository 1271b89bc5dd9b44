//! What is shared at a desk.

use crate::turn::DeskTurn;
use jm_book::Book;
use jm_turn::Told;

/// The book of a desk. Contracts name it; callers never have one.
#[derive(Drop)]
pub struct Held {
    pub(crate) book: Book,
}

impl Told for Held {
    ghost use Rattle.jm_desk.specs.History.{StandsFor};

    type Turn = DeskTurn;

    ghost stands = { StandsFor };
}
