//! What a book tells of its joined peers: where packets go, and what is to be reported to whom.

ghost use Rattle.std.specs.Prelude.{◌≡◌, ◌+◌, ◌<◌, ◌≤◌, [], ◌∷◌, ◌++◌, length};
ghost use Rattle.std.specs.List.{cons_option};

use arrayvec::ArrayVec;
use jm_edge::Addr;
use std::marker::Model;

/// As many entries as there can be peers.
pub(crate) const MOST_ENTRIES: usize = 32;

/// What is to be reported to one peer.
#[derive(Clone, Copy, Debug, PartialEq, Eq)]
pub struct FeedbackEntry {
    /// The address of its control port.
    pub to: Addr,
    /// The low 16 bits of the number of the last packet that came from it.
    pub seq: u16,
}

impl Default for FeedbackEntry {
    fn default() -> FeedbackEntry {
        FeedbackEntry {
            to: Addr { host: 0, port: 0 },
            seq: 0,
        }
    }
}

/// A list of at most 32 entries, in the order of the peers. It takes no memory.
#[derive(Debug, Drop)]
pub struct FeedbackList {
    list: ArrayVec<FeedbackEntry, MOST_ENTRIES>,
}

impl Model for FeedbackList {
    ghost use Rattle.std.specs.Prelude.{List};
    ghost use Rattle.jm_book.specs.declared.lists.FeedbackEntry.{FeedbackEntry};

    ghost Value = { List FeedbackEntry };

    ghost view = { λ l. l.list.items };
}

impl FeedbackList {
    /// A list of none.
    pub fn new() -> FeedbackList
        ensures { result ≡ [] }
    {
        FeedbackList {
            list: ArrayVec::new(),
        }
    }

    /// The entries, in order.
    pub fn as_slice(&self) -> &[FeedbackEntry]
        ensures { result.now ≡ self.now }
    {
        self.list.as_slice()
    }

    pub(crate) fn clear(&mut self)
        ensures { self.new ≡ [] }
    {
        self.list.clear();
    }

    /// Takes one more, if there is one.
    pub(crate) fn add(&mut self, entry: Option<FeedbackEntry>)
        requires { length self.old < MOST_ENTRIES }
        ensures { self.new ≡ self.old ++ cons_option entry [] }
    {
        if let Some(entry) = entry {
            self.list.push(entry);
        }
    }
}

/// A list of at most 32 addresses, in the order of the peers. It takes no memory.
#[derive(Debug, Drop)]
pub struct AddrList {
    addresses: [Addr; MOST_ENTRIES],
    count: usize,
}

impl Model for AddrList {
    ghost use Rattle.std.specs.Prelude.{List, take, ◌≤◌};
    ghost use Rattle.jm_edge.specs.declared.Addr.{Addr};

    ghost Value = { List Addr };

    ghost view = { λ l. take l.count l.addresses };

    ghost invariant = { λ l. l.count ≤ 32 };
}

impl AddrList {
    /// A list of none.
    pub fn new() -> AddrList
        ensures { result ≡ [] }
    {
        AddrList {
            addresses: [Addr { host: 0, port: 0 }; MOST_ENTRIES],
            count: 0,
        }
    }

    /// The addresses, in order.
    pub fn as_slice(&self) -> &[Addr]
        ensures { result.now ≡ self.now }
    {
        &self.addresses[..self.count]
    }

    pub(crate) fn clear(&mut self)
        ensures { self.new ≡ [] }
    {
        self.count = 0;
    }

    /// Takes one more, if there is one.
    pub(crate) fn add(&mut self, address: Option<Addr>)
        requires { length self.old < MOST_ENTRIES }
        ensures { self.new ≡ self.old ++ cons_option address [] }
    {
        if let Some(address) = address {
            self.addresses[self.count] = address;
            self.count += 1;
        }
    }
}
