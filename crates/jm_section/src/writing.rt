//! Writing a whole section.

ghost use Rattle.std.specs.Prelude.{◌≡◌, ◌<◌, ◌≤◌, ◌^◌, length, IsTrue};
ghost use Rattle.jm_wire.specs.Octets.{Appends};
ghost use Rattle.jm_section.specs.Section.{IsWritable, is_written, item_text, items_text, section};
ghost use Rattle.jm_section.specs.declared.next.Place.TheVariants.{First};

use crate::header::write_section_header;
use crate::item::{Item, What};
use crate::next::{Place, next_len, write_next};
use crate::segment::{next_segment_len, write_next_segment};
use jm_wire::Octets;

/// Appends an item of a list, with its delta field and under the running status. An item at the front has no delta field:
/// its delta is 0.
#[tactic(auto, unfolding(crate::specs::Section::item_text, crate::specs::Section::what_text, crate::specs::Section::piece, crate::specs::Section::command_text))]
fn write_item(place: Place, item: &Item, out: &mut Octets)
    requires range { item.now.delta < 2 ^ 28 }
    requires written { IsTrue (is_written item.now.what) }
    requires room { length (item_text place item.now) ≤ out.old.spare }
    ensures { Appends out.old out.new (item_text place item.now) }
{
    match &item.what {
        What::Whole(command) => {
            write_next(place, item.delta, command, out);
        }
        What::Part { kind, octets } => {
            write_next_segment(place, item.delta, *kind, octets.as_slice(), out)
        }
        What::Passed(_) => unreachable!(),
    }
}

/// How many octets [`write_item`] appends.
#[tactic(auto, unfolding(crate::specs::Section::item_text, crate::specs::Section::what_text, crate::specs::Section::piece, crate::specs::Section::command_text))]
fn item_len(place: Place, item: &Item) -> usize
    requires { IsTrue (is_written item.now.what) }
    ensures { result ≡ length (item_text place item.now) }
{
    match &item.what {
        What::Whole(command) => next_len(place, u64::from(item.delta), command),
        What::Part { kind, octets } => {
            next_segment_len(place, u64::from(item.delta), *kind, octets.as_slice())
        }
        What::Passed(_) => unreachable!(),
    }
}

/// The length of the MIDI list of these items.
fn list_len(list: &[Item]) -> usize
    requires { IsWritable list.now }
    ensures { result ≡ length (items_text First list.now) }
{
    let mut place = Place::First;
    let mut len = 0;
    for item in list {
        len += item_len(place, item);
        place = place.after_item(&item.what);
    }
    len
}

/// Appends a section of whole commands that aren't long, and of segments. `journal` says that a journal follows the section.
pub fn write_section(list: &[Item], journal: bool, out: &mut Octets)
    requires items { IsWritable list.now }
    requires room { length (section list.now journal) ≤ out.old.spare }
    ensures { Appends out.old out.new (section list.now journal) }
{
    write_section_header(list_len(list), journal, out);
    let mut place = Place::First;
    for item in list {
        write_item(place, item, out);
        place = place.after_item(&item.what);
    }
}
