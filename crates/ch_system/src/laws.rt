//! What holds of the definitions that this crate's contracts cite. Each law is the contract of a
//! function that does nothing.

ghost use Rattle.ch_system.specs.Fresh.{FreshShowsD, FreshShowsV, FreshShowsQ, FreshShowsF};

/// A chapter is fresh exactly where it is there and its S is 0.
pub fn fresh_shows()
    ensures d { FreshShowsD }
    ensures v { FreshShowsV }
    ensures q { FreshShowsQ }
    ensures f { FreshShowsF }
{}
