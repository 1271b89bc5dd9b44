//! The entries of a section that was read.

ghost use Rattle.std.specs.Prelude.{◌≡◌};

use jm_section::Item;
use std::marker::Model;

/// The entries of a section, in order. Contracts see them as their list.
#[derive(Debug, Drop)]
pub struct ItemList {
    items: Vec<Item>,
}

impl Model for ItemList {
    ghost use Rattle.std.specs.Prelude.{List};
    ghost use Rattle.jm_section.specs.declared.item.Item.{Item};

    ghost Value = { List Item };

    ghost view = { λ list. list.items.items };
}

impl ItemList {
    /// These entries.
    pub fn of(items: Vec<Item>) -> ItemList
        ensures { result ≡ items.items }
    {
        ItemList { items }
    }

    /// The entries.
    pub fn as_slice(&self) -> &[Item]
        ensures { result.now ≡ self.now }
    {
        self.items.as_slice()
    }
}
