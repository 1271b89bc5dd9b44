//! Laws over the definitions that the contracts of this crate cite.

ghost use Rattle.apple_msg.specs.Grammar.{MessagesReadBack, ReadsWhatIsSpelled, ReadsFirstFault};

/// A message that was written is read again, whatever octets stand behind_octets it.
pub fn messages_read_back()
    ensures { MessagesReadBack }
{}

/// Octets are read as a message exactly where they spell it.
pub fn reads_what_is_spelled()
    ensures { ReadsWhatIsSpelled }
{}

/// Octets have a fault exactly where it is the first that holds.
pub fn reads_first_fault()
    ensures { ReadsFirstFault }
{}
