//! The list of keys and stamps.

ghost use Rattle.std.specs.Prelude.{ℕ, IsTrue, ◌≡◌, ◌+◌, ◌<◌, ◌≤◌, true, [], ◌∷◌, ◌++◌, filter, length, slice_set, Some, MatchOption, if◌then◌else◌, ◌==◌};
ghost use Rattle.jm_recency.specs.Links.{key_at, link_after};
ghost use Rattle.jm_recency.specs.Recency.{holds, without, touched, since_stamp, AreUpTo, IsRecency, first_key, next_key, stamp_of, from_key, IsAtKey};

use std::marker::Model;

/// The link behind the last key, and before the first one.
const END: u16 = 65535;

/// The link of a key that isn't there.
const ABSENT: u16 = 65534;

/// A list of keys below `N`, each at most once, with stamps that never fall along it: the key that was
/// touched longest ago comes first. `N` is at most 1,024. No call takes memory.
#[derive(Debug, Drop)]
pub struct Recency<const N: usize> {
    /// The key behind each key.
    next: [u16; N],
    /// The key before each key.
    previous: [u16; N],
    /// The stamp of each key that is there.
    stamps: [u64; N],
    oldest: u16,
    newest: u16,
    count: usize,
}

impl<const N: usize> Model for Recency<N> {
    ghost use Rattle.std.specs.Prelude.{List, ℕ};
    ghost use Rattle.jm_recency.specs.Links.{walk, AreLinks};

    ghost Value = { List (ℕ × ℕ) };

    ghost view = { λ r. walk r.next r.stamps r.count r.oldest };

    ghost invariant = { λ r. AreLinks N r.next r.previous r.stamps r.oldest r.newest r.count
        (walk r.next r.stamps r.count r.oldest) };
}

/// Sets the link of the key `at`, or the list's end where `at` is none.
fn relink(links: &mut [u16], end: &mut u16, at: u16, to: u16)
    requires { length links.old ≤ 1024 }
    ensures links { links.new ≡ slice_set links.old at to }
    ensures end { end.new ≡ (if at == 65535 then to else end.old) }
{
    if at == END {
        *end = to;
    } else {
        let place = at as usize;
        if place < links.len() {
            links[place] = to;
        }
    }
}

/// The key that a link leads to, if it leads to one.
fn key_of(link: u16) -> Option<u16>
    ensures { result ≡ key_at link }
{
    if link == END || link == ABSENT {
        None
    } else {
        Some(link)
    }
}

impl<const N: usize> Recency<N> {
    /// No key. It takes time by `N`.
    pub fn new() -> Self
        requires { N ≤ 1024 }
        ensures { result ≡ [] }
    {
        let links = [ABSENT; N];
        let stamps = [0; N];
        Recency {
            next: links,
            previous: links,
            stamps,
            oldest: END,
            newest: END,
            count: 0,
        }
    }

    /// How many keys there are.
    pub fn len(&self) -> usize
        ensures number { result ≡ length self.now }
        ensures bound { result ≤ N }
        ensures order { IsRecency N 0 self.now }
    {
        self.count
    }

    /// The key that was touched longest ago.
    pub fn first(&self) -> Option<u16>
        ensures { result ≡ first_key self.now }
    {
        key_of(self.oldest)
    }

    /// The link behind the key.
    fn link_of(&self, k: u16) -> u16
        ensures link { result ≡ link_after self.now k }
        ensures order { IsRecency N 0 self.now }
        ensures few { N ≤ 1024 }
    {
        let links = &self.next;
        let place = k as usize;
        if place < links.len() {
            links[place]
        } else {
            ABSENT
        }
    }

    /// Whether the key is there.
    pub fn holds(&self, k: u16) -> bool
        ensures here { result ≡ holds k self.now }
        ensures bound { IsTrue result → k < N }
    {
        self.link_of(k) != ABSENT
    }

    /// The key behind this one: `None` exactly where `k` is last or isn't there.
    pub fn next(&self, k: u16) -> Option<u16>
        ensures next { result ≡ next_key k self.now }
        ensures key { IsAtKey self.now result }
    {
        key_of(self.link_of(k))
    }

    /// The key's stamp: `None` exactly where `k` isn't there.
    pub fn stamp(&self, k: u16) -> Option<u64>
        ensures { result ≡ stamp_of k self.now }
    {
        if self.holds(k) {
            Some(self.stamps[k as usize])
        } else {
            None
        }
    }

    /// One step of a walk along the keys: the stamp of a key that is there, and the key behind it. A walk
    /// begins at [`Recency::first`].
    pub fn visit(&self, k: u16) -> (u64, Option<u16>)
        requires { holds k self.now ≡ true }
        ensures here { from_key self.now (Some k) ≡ (k, result.0) ∷ from_key self.now result.1 }
        ensures key { IsAtKey self.now result.1 }
    {
        (self.stamps[k as usize], self.next(k))
    }

    /// Takes the key out, if it is there.
    pub fn drop_key(&mut self, k: u16)
        ensures { self.new ≡ without k self.old }
    {
        if self.holds(k) {
            let place = k as usize;
            let before = self.previous[place];
            let after = self.next[place];
            relink(&mut self.next, &mut self.oldest, before, after);
            relink(&mut self.previous, &mut self.newest, after, before);
            self.next[place] = ABSENT;
            self.previous[place] = ABSENT;
            self.count -= 1;
        }
    }

    /// Puts the key last, with this stamp; what it had goes. `k` is below `N`, and no stamp of the list is
    /// past this one.
    pub fn touch(&mut self, k: u16, stamp: u64)
        requires key { k < N }
        requires order { AreUpTo stamp self.old }
        ensures { self.new ≡ touched k stamp self.old }
    {
        self.drop_key(k);
        let place = k as usize;
        let newest = self.newest;
        relink(&mut self.next, &mut self.oldest, newest, k);
        self.previous[place] = newest;
        self.next[place] = END;
        self.stamps[place] = stamp;
        self.newest = k;
        self.count += 1;
    }

    /// Takes all keys out. It takes time by `N`.
    pub fn clear(&mut self)
        ensures { self.new ≡ [] }
    {
        let links = [ABSENT; N];
        self.next = links;
        self.previous = links;
        self.oldest = END;
        self.newest = END;
        self.count = 0;
    }

    /// Leaves exactly the keys with at least this stamp, in order. It takes the time of what goes.
    pub fn trim(&mut self, stamp: u64)
        ensures { self.new ≡ since_stamp stamp self.old }
    {
        while let Some(k) = self.first_before(stamp) {
            self.drop_key(k);
        }
    }

    /// The first key, where its stamp is before this one.
    fn first_before(&self, stamp: u64) -> Option<u16>
        ensures { MatchOption result (since_stamp stamp self.now ≡ self.now)
            (λ k. (since_stamp stamp (without k self.now) ≡ since_stamp stamp self.now)
            × (length (without k self.now) < length self.now)) }
    {
        match self.first() {
            None => None,
            Some(k) => {
                if self.stamps[k as usize] < stamp {
                    Some(k)
                } else {
                    None
                }
            }
        }
    }

    /// Makes the content that of `other`. It takes time by `N`.
    pub fn copy_from(&mut self, other: &Self)
        ensures { self.new ≡ other.now }
    {
        let next = other.next;
        let previous = other.previous;
        let stamps = other.stamps;
        self.next = next;
        self.previous = previous;
        self.stamps = stamps;
        self.oldest = other.oldest;
        self.newest = other.newest;
        self.count = other.count;
    }
}
