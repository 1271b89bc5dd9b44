//! The top calls of the program.

/// A top call of the program.
#[derive(Clone, Copy, Debug, PartialEq, Eq)]
pub enum Verb {
    /// The one that reads lines, also where there is no word or another one.
    Plain,
    /// `jam`: the one in which threads share a session.
    Jam,
    /// `invite`: the one that calls another host.
    Invite,
    /// `serve`: the one that is a host on the network.
    Serve,
}
