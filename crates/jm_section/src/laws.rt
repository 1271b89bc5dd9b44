//! Laws over the definitions that the contracts of this crate cite.

ghost use Rattle.jm_section.specs.Laws.{OneSection, SectionsReadBack};

/// Octets begin with at most one section, so its items are told by them.
pub fn one_section()
    ensures { OneSection }
{}

/// A section that is written is read again, whatever follows it.
pub fn sections_read_back()
    ensures { SectionsReadBack }
{}
