//! The parameters that were entered in a channel.

ghost use Rattle.std.specs.Prelude.{◌≡◌, ◌≤◌, [], ◌∷◌, ◌++◌, length, filter};
ghost use Rattle.std.specs.List.{filter_map};
ghost use Rattle.jm_state.specs.Entered.{no_halves, half_set, halves_in, half_dropped, latest, entered_with, is_other, agrees, same_entered, halves_eq};

use arrayvec::ArrayVec;
use jm_cmds::{D7, Param};
use std::marker::Model;

/// The halves of a parameter's value that were entered: by Control 6 and by Control 38 (RFC 6295, A.4).
#[derive(Clone, Copy, PartialEq, Eq, Debug)]
pub struct Halves {
    pub entry_high: Option<D7>,
    pub entry_low: Option<D7>,
}

impl Halves {
    /// Nothing was entered.
    pub(crate) fn none() -> Halves
        ensures { result ≡ no_halves }
    {
        Halves {
            entry_high: None,
            entry_low: None,
        }
    }

    /// Whether the same halves are there, with the same values.
    fn is(&self, other: &Halves) -> bool
        ensures { result ≡ halves_eq self.now other.now }
    {
        self.entry_high == other.entry_high && self.entry_low == other.entry_low
    }

    /// With this as the high or the low half.
    fn with(self, high: bool, value: Option<D7>) -> Halves
        ensures { result ≡ half_set high value self }
    {
        if high {
            return Halves {
                entry_high: value,
                ..self
            };
        }
        Halves {
            entry_low: value,
            ..self
        }
    }
}

/// A parameter of which a half was entered.
#[derive(Clone, Copy, Debug)]
pub(crate) struct Entry {
    pub(crate) param: Param,
    pub(crate) halves: Halves,
}

impl Default for Entry {
    fn default() -> Entry {
        Entry {
            param: Param {
                nrpn: false,
                high: D7::low(0),
                low: D7::low(0),
            },
            halves: Halves::none(),
        }
    }
}

impl Entry {
    /// What is left of the entry where this half of this parameter is taken away.
    fn without_half(&self, high: bool, param: &Param) -> Option<Entry>
        ensures { result ≡ half_dropped high param.now self.now }
    {
        if !self.param.is(param) {
            return Some(*self);
        }
        let halves = self.halves.with(high, None);
        match (halves.entry_high, halves.entry_low) {
            (None, None) => None,
            _ => Some(Entry {
                param: self.param,
                halves,
            }),
        }
    }
}

/// The 16 parameters that were entered last, the one entered longest ago first.
#[derive(Debug, Drop)]
pub(crate) struct Entered {
    entries: ArrayVec<Entry, 16>,
}

impl Model for Entered {
    ghost use Rattle.std.specs.Prelude.{List};
    ghost use Rattle.jm_state.specs.declared.entered.Entry.{Entry};

    ghost Value = { List Entry };

    ghost view = { λ e. e.entries.items };
}

/// The halves of this parameter: none where it isn't there.
fn halves_in(entries: &[Entry], param: &Param) -> Halves
    ensures { result ≡ halves_in entries.now param.now }
{
    for entry in entries {
        if entry.param.is(param) {
            return entry.halves;
        }
    }
    Halves::none()
}

/// Whether each parameter of these entries has the same halves in both lists.
fn agrees(entries: &[Entry], ours: &[Entry], theirs: &[Entry]) -> bool
    ensures { result ≡ agrees ours.now theirs.now entries.now }
{
    for entry in entries {
        if !halves_in(ours, &entry.param).is(&halves_in(theirs, &entry.param)) {
            return false;
        }
    }
    true
}

/// These entries.
fn copied(entries: &[Entry]) -> ArrayVec<Entry, 16>
    requires { length entries.now ≤ 16 }
    ensures { result.items ≡ entries.now }
{
    let mut left = ArrayVec::new();
    for entry in entries {
        left.push(*entry);
    }
    left
}

/// The entries of other parameters, in their order.
fn others(entries: &[Entry], param: &Param) -> ArrayVec<Entry, 16>
    requires { length entries.now ≤ 16 }
    ensures { result.items ≡ filter (is_other param.now) entries.now }
{
    let mut left = ArrayVec::new();
    for entry in entries {
        if !entry.param.is(param) {
            left.push(*entry);
        }
    }
    left
}

/// The entries without this half of this parameter, in their order.
fn dropped(entries: &[Entry], high: bool, param: &Param) -> ArrayVec<Entry, 16>
    requires { length entries.now ≤ 16 }
    ensures { result.items ≡ filter_map (half_dropped high param.now) entries.now }
{
    let mut left = ArrayVec::new();
    for entry in entries {
        if let Some(rest) = entry.without_half(high, param) {
            left.push(rest);
        }
    }
    left
}

/// Puts an entry last. Of 16 the first gives way, and is handed out.
#[tactic(auto, using(crate::specs::EnteredLaws::latest_full, crate::specs::EnteredLaws::latest_room))]
fn put_last(entries: &mut ArrayVec<Entry, 16>, entry: Entry) -> Option<Entry>
    ensures { entries.new.items ≡ latest (entries.old.items ++ entry ∷ []) }
{
    if entries.is_full() {
        let first = entries.remove(0);
        entries.push(entry);
        return Some(first);
    }
    entries.push(entry);
    None
}

impl Entered {
    /// No parameter.
    pub(crate) fn new() -> Entered
        ensures { result ≡ [] }
    {
        Entered {
            entries: ArrayVec::new(),
        }
    }

    /// The same parameters in the same order.
    pub(crate) fn copy(&self) -> Entered
        ensures { result ≡ self.now }
    {
        Entered {
            entries: copied(self.entries.as_slice()),
        }
    }

    /// The halves of this parameter: none where it isn't there.
    pub(crate) fn halves(&self, param: &Param) -> Halves
        ensures { result ≡ halves_in self.now param.now }
    {
        halves_in(self.entries.as_slice(), param)
    }

    /// Whether each parameter has the same halves in both, whatever their order.
    pub(crate) fn same(&self, other: &Entered) -> bool
        ensures { result ≡ same_entered self.now other.now }
    {
        let ours = self.entries.as_slice();
        let theirs = other.entries.as_slice();
        agrees(ours, ours, theirs) && agrees(theirs, ours, theirs)
    }

    /// Sets a half of this parameter. With a value the parameter counts as entered last, and a seventeenth takes
    /// the place of the one entered longest ago. `None` drops the half where the parameter stands.
    pub(crate) fn set_half(&mut self, high: bool, param: &Param, value: Option<D7>)
        ensures { self.new ≡ entered_with high param.now value self.old }
    {
        match value {
            None => {
                self.entries = dropped(self.entries.as_slice(), high, param);
            }
            Some(value) => {
                let halves = self.halves(param).with(high, Some(value));
                let entry = Entry {
                    param: *param,
                    halves,
                };
                let mut entries = others(self.entries.as_slice(), param);
                let _gone = put_last(&mut entries, entry);
                self.entries = entries;
            }
        }
    }
}
