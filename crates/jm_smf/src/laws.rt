//! What holds of files, over the definitions that the calls are proved to follow. Each law is the contract of a function that does
//! nothing.

ghost use Rattle.jm_smf.specs.Laws.{FilesAreRead, OneList, ListsAreInOrder, FilesReadBack, FaultsAreShown};

/// A list is read exactly where the octets are a file of format 0 that spells it, by a grammar that is told apart from reading: what a
/// chunk, the header, a track, and each kind of event are.
pub fn files_are_read()
    ensures { FilesAreRead }
{}

/// Octets spell at most one list.
pub fn one_list()
    ensures { OneList }
{}

/// The ticks of what a file spells never fall, and the numbers of its commands are within their bounds.
pub fn lists_are_in_order()
    ensures { ListsAreInOrder }
{}

/// What was written of a list whose ticks never fall is a file that spells it, with the first tick taken from each tick, and it is read
/// so.
pub fn files_read_back()
    ensures { FilesReadBack }
{}

/// A fault is told exactly where the octets show it, by definitions that are told apart from reading. Before its place stand whole chunks
/// and events alone. At its place stands a header that is refused, or no chunk and no event: it is `Short` where further octets would
/// make one, and another fault where none would.
pub fn faults_are_shown()
    ensures { FaultsAreShown }
{}
