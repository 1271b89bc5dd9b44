//! Why there are no groups.

ghost use Rattle.std.specs.Prelude.{◌≡◌, ◌≤◌, ◌+◌, ◌∷◌, ◌++◌, OnErr, OnOk, length, if◌then◌else◌, is_ok};
ghost use Rattle.jm_groups.specs.declared.fault.GroupsFault.TheVariants as fault;

use std::alloc::{AllocError, AllocFailed};

/// Why these books and routes make no groups. The first of these that holds is told, but want of memory at any time.
#[derive(Clone, Copy, Debug, PartialEq, Eq)]
pub enum GroupsFault {
    /// There was no memory.
    NoMemory,
    /// There is no book.
    NoGroup,
    /// There are more than 8 books, so many.
    TooMany { count: usize },
    /// There are so many routes, not one fewer than the books.
    RouteCount { count: usize },
    /// The route at this place, the first such, has more than 32 bits.
    BadRoute { place: usize },
}

impl From<AllocError> for GroupsFault {
    ghost from_gives = { λ _ e. e ≡ fault.NoMemory };

    fn from(_none: AllocError) -> Self {
        GroupsFault::NoMemory
    }
}
