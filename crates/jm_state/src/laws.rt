//! What holds of the definitions that this crate's contracts cite. Each law is the contract of a
//! function that does nothing.

ghost use Rattle.jm_state.specs.Laws.{StaysWhole, ByPart, LongSetsNothing, SetsOnePart, EntersLast, CommandsPlayAgain, CountsToggles};

/// A state has 16 channels, each with its tables, as a session begins and behind each command. All laws
/// speak of such states.
pub fn stays_whole()
    ensures { StaysWhole }
{}

/// What a command does to each part depends on this part alone: it sets it, drops it or leaves it. A
/// program reads Controls 0 and 32, too, the toggles of the pedal Control 64, and a clock or a quarter frame moves on what
/// is there.
#[tactic(auto, using(crate::specs::PartLaws::by_part))]
pub fn applies_by_part()
    ensures { ByPart }
{}

/// A System Exclusive message that is sent in segments leaves every part as it is.
#[tactic(auto, using(crate::specs::LongState::long_sets_nothing))]
pub fn long_sets_nothing()
    ensures { LongSetsNothing }
{}

/// Each call that sets a part leaves each other part as it is, and the part reads as it was set. Of
/// controls, two modes that are one part go together; the parameters of a channel count as one part
/// here.
pub fn sets_one_part()
    ensures { SetsOnePart }
{}

/// A half of a parameter that is entered is there, with its other half. At most 16 parameters are kept; where
/// there is room, all others stay as they are.
pub fn enters_last()
    ensures { EntersLast }
{}

/// Song, controls, wheel, notes and pressures are right again when the commands from a packet on are played once more over
/// a state that has all packets before it and maybe some of these, as a participant has that lost what came then.
pub fn commands_play_again()
    ensures { CommandsPlayAgain }
{}

/// The toggles of a channel are as many as the session's commands moved its pedal up or down, as Chapter C codes them, and
/// Control 64 says whether it is down.
#[tactic(auto, using(crate::specs::ReplayLaws::pedal_counted))]
pub fn counts_toggles()
    ensures { CountsToggles }
{}
