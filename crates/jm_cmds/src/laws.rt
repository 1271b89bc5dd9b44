//! What holds of the definitions that this crate's contracts cite. Each law is the contract of a
//! function that does nothing.

ghost use Rattle.jm_cmds.specs.Laws.{OneSpelling, ReadsSpelled, ReadsOnlySpelled, FaultsShow, StandsLast, CodesRecent, CodesLess, CodesFresh, CodesDistinct, CodesInOrder, CodesFew, KindTellsNumber};
ghost use Rattle.jm_cmds.specs.FrameLaws.{FramesSpell};

/// Octets begin with at most one command, so a command is told by its octets, whatever follows.
pub fn one_spelling()
    ensures { OneSpelling }
{}

/// Reading what is spelled gives the command back, whatever follows.
pub fn reads_spelled()
    ensures { ReadsSpelled }
{}

/// What is read is spelled at the front, in as many octets as are told.
pub fn reads_only_spelled()
    ensures { ReadsOnlySpelled }
{}

/// A fault is of the first octet that shows one: all octets before it show none.
pub fn faults_show()
    ensures { FaultsShow }
{}

/// When a command is sent, the places that it ends no longer stand, and it stands itself.
pub fn stands_last()
    ensures { StandsLast }
{}

/// A journal needs only the packets from its checkpoint on.
pub fn codes_recent()
    ensures { CodesRecent }
{}

/// A greater checkpoint is a filter on what is coded.
pub fn codes_less()
    ensures { CodesLess }
{}

/// What the last packet brought is a filter on what is coded.
pub fn codes_fresh()
    ensures { CodesFresh }
{}

/// No coded place is ended by another one.
pub fn codes_distinct()
    ensures { CodesDistinct }
{}

/// Coded places stand oldest first.
pub fn codes_in_order()
    ensures { CodesInOrder }
{}

/// How coded places are counted and weighed as commands are sent and the checkpoint grows.
pub fn codes_few()
    ensures { CodesFew }
{}

/// No two controllers have the same kind with the same number.
pub fn kind_tells_number()
    ensures { KindTellsNumber }
{}

/// What a quarter frame does to the word that is being spelled. One that goes on with it sets its own nibble alone, one of
/// type 0 or 7 that begins anew leaves the other nibbles 0, and any other takes the word away.
pub fn frames_spell()
    ensures { FramesSpell }
{}
