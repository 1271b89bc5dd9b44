//! What holds of the definitions that this crate's contracts cite. Each law is the contract of a
//! function that does nothing.

ghost use Rattle.ch_sysex.specs.Fresh.{IsOfLogs, FreshShows, EachShows, CodedInOrder};

/// The chapter is its logs one after another, and is fresh exactly where the S bit of one of them is 0; and each
/// log tells by its own whether the packet before brought its message.
pub fn fresh_shows()
    ensures logs { IsOfLogs }
    ensures shows { FreshShows }
    ensures each { EachShows }
{}

/// What the chapter codes stands oldest first and is of distinct items.
pub fn coded_in_order()
    ensures { CodedInOrder }
{}
