//! A table of values by number.

ghost use Rattle.std.specs.Prelude.{◌≡◌, ◌<◌, IsTrue, ◌↔◌, ℕ, slice_set, length};
ghost use Rattle.jm_state.specs.Table.{no_values, value_at, keep_value};

use jm_cmds::D7;
use std::marker::Model;

/// A value, or none, for each number of a control or a note.
#[derive(Clone, Copy, Debug)]
pub(crate) struct Table {
    values: [Option<D7>; 128],
}

impl Model for Table {
    ghost use Rattle.std.specs.Prelude.{List, Option, ℕ};

    ghost Value = { List (Option ℕ) };

    ghost view = { λ t. t.values };

    ghost inverse = { λ values. record { values = values } };
}

/// The place of this number in a table.
fn place(number: D7) -> usize
    ensures number { result ≡ number }
    ensures bound { result < 128 }
{
    usize::from(number.get())
}

impl Table {
    /// No value.
    #[tactic(auto, unfolding(crate::specs::Table::no_values))]
    pub(crate) fn new() -> Table
        ensures { result ≡ no_values }
    {
        let values = [None; 128];
        Table { values }
    }

    pub(crate) fn get(&self, number: D7) -> Option<D7>
        ensures { result ≡ value_at self.now number }
    {
        self.values[place(number)]
    }

    pub(crate) fn set(&mut self, number: D7, value: Option<D7>)
        ensures { self.new ≡ slice_set self.old number value }
    {
        self.values[place(number)] = value;
    }

    /// Takes the value of this number from another table.
    pub(crate) fn keep(&mut self, from: &Table, number: D7)
        ensures { self.new ≡ keep_value from.now self.old number }
    {
        self.set(number, from.get(number));
    }
}
