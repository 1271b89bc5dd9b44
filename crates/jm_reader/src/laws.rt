//! What is written is read again: the octets of a written journal and of each of its parts are read as the logs of what
//! they code, whatever octets follow. Each law is the contract of a function that does nothing.

ghost use Rattle.ch_control.specs.ChapterC.{chapter_c};
ghost use Rattle.ch_notes.specs.ChapterA.{chapter_a};
ghost use Rattle.ch_notes.specs.ChapterE.{chapter_e};
ghost use Rattle.ch_voice.specs.ChapterP.{chapter_p};
ghost use Rattle.ch_voice.specs.ChapterT.{chapter_t};
ghost use Rattle.ch_voice.specs.ChapterW.{chapter_w};
ghost use Rattle.jm_reader.specs.declared.pairs.PairKind.TheVariants.{Controllers, Extras, Pressures};
ghost use Rattle.jm_reader.specs.ChapterP.{p_read};
ghost use Rattle.jm_reader.specs.ChapterT.{t_read};
ghost use Rattle.jm_reader.specs.ChapterW.{w_read};
ghost use Rattle.jm_reader.specs.Pairs.{listed_read};
ghost use Rattle.jm_reader.specs.Written.{ChapterIsRead};
ghost use Rattle.jm_reader.specs.WrittenA.{a_said};
ghost use Rattle.jm_reader.specs.WrittenC.{c_said};
ghost use Rattle.jm_reader.specs.WrittenChannel.{ChannelsAreRead};
ghost use Rattle.jm_reader.specs.WrittenD.{ResetsAreRead};
ghost use Rattle.jm_reader.specs.WrittenE.{e_said};
ghost use Rattle.jm_reader.specs.WrittenF.{TimeCodeIsRead};
ghost use Rattle.jm_reader.specs.WrittenJournal.{JournalsAreRead};
ghost use Rattle.jm_reader.specs.WrittenM.{ParamsAreRead};
ghost use Rattle.jm_reader.specs.WrittenN.{NotesAreRead};
ghost use Rattle.jm_reader.specs.WrittenP.{p_said};
ghost use Rattle.jm_reader.specs.WrittenQ.{SequencerIsRead};
ghost use Rattle.jm_reader.specs.WrittenSystem.{SystemsAreRead};
ghost use Rattle.jm_reader.specs.WrittenT.{t_said};
ghost use Rattle.jm_reader.specs.WrittenV.{SensingIsRead};
ghost use Rattle.jm_reader.specs.WrittenW.{w_said};
ghost use Rattle.jm_reader.specs.WrittenX.{MessagesAreRead};

/// A journal is read as the low 16 bits of its checkpoint, and as the logs of what it codes of the system and of each
/// channel, channels ascending (RFC 6295, section 5). The commands are within their bounds, and those before the
/// packet keep the limits of what fits.
#[tactic(auto, using(crate::specs::WrittenJournal::journals_are_read))]
pub fn journals_are_read()
    ensures { JournalsAreRead }
{}

/// The journal of a channel is read as the logs of its chapters, behind the logs before it; where it isn't there, nothing of
/// the channel is coded.
#[tactic(auto, using(crate::specs::WrittenChannel::channels_are_read))]
pub fn channels_are_read()
    ensures { ChannelsAreRead }
{}

/// The system journal is read as what its chapters code, behind the logs before it and whatever octets follow; where it
/// isn't there, nothing of them is coded.
#[tactic(auto, using(crate::specs::WrittenSystem::systems_are_read))]
pub fn systems_are_read()
    ensures { SystemsAreRead }
{}

/// Chapter P is read as what is coded of the program of a channel; where it isn't there, nothing of it is coded.
#[tactic(auto, using(crate::specs::WrittenP::p_is_read))]
pub fn programs_are_read()
    ensures { ChapterIsRead chapter_p p_said (λ channel octets. p_read channel octets) }
{}

/// Chapter C is read as what is coded of the controllers of a channel; where it isn't there, nothing of it is coded.
#[tactic(auto, using(crate::specs::WrittenC::c_is_read))]
pub fn controllers_are_read()
    ensures { ChapterIsRead chapter_c c_said (λ channel octets. listed_read Controllers channel octets) }
{}

/// Chapter M is read as what is coded of a channel's parameters, whatever octets follow; where it isn't there, nothing
/// of them is coded.
#[tactic(auto, using(crate::specs::WrittenM::params_are_read))]
pub fn params_are_read()
    ensures { ParamsAreRead }
{}

/// Chapter W is read as what is coded of the wheel of a channel; where it isn't there, nothing of it is coded.
#[tactic(auto, using(crate::specs::WrittenW::w_is_read))]
pub fn wheels_are_read()
    ensures { ChapterIsRead chapter_w w_said (λ channel octets. w_read channel octets) }
{}

/// Chapter N is read as what is coded of a channel's notes, whatever octets follow; where it isn't there, nothing of
/// them is coded.
#[tactic(auto, using(crate::specs::WrittenN::notes_are_read))]
pub fn notes_are_read()
    ensures { NotesAreRead }
{}

/// Chapter E is read as what is coded of the release velocities and reference counts of a channel's keys; where it isn't there, nothing of it is coded.
#[tactic(auto, using(crate::specs::WrittenE::e_is_read))]
pub fn extras_are_read()
    ensures { ChapterIsRead chapter_e e_said (λ channel octets. listed_read Extras channel octets) }
{}

/// Chapter T is read as what is coded of the pressure of a channel; where it isn't there, nothing of it is coded.
#[tactic(auto, using(crate::specs::WrittenT::t_is_read))]
pub fn pressures_are_read()
    ensures { ChapterIsRead chapter_t t_said (λ channel octets. t_read channel octets) }
{}

/// Chapter A is read as what is coded of the pressures of a channel's keys; where it isn't there, nothing of it is coded.
#[tactic(auto, using(crate::specs::WrittenA::a_is_read))]
pub fn key_pressures_are_read()
    ensures { ChapterIsRead chapter_a a_said (λ channel octets. listed_read Pressures channel octets) }
{}

/// Chapter D is read as what is coded of resets, tunings and songs, whatever octets follow, and what follows is read
/// too; where it isn't there, nothing of them is coded.
#[tactic(auto, using(crate::specs::WrittenD::resets_are_read))]
pub fn resets_are_read()
    ensures { ResetsAreRead }
{}

/// Chapter Q is read as what is coded of the song position, whatever octets follow, and what follows is read too; where
/// it isn't there, nothing of it is coded.
#[tactic(auto, using(crate::specs::WrittenQ::sequencer_is_read))]
pub fn sequencer_is_read()
    ensures { SequencerIsRead }
{}

/// Chapter V is read as what is coded of active sensing, whatever octets follow; where it isn't there, nothing of it is
/// coded.
#[tactic(auto, using(crate::specs::WrittenV::sensing_is_read))]
pub fn sensing_is_read()
    ensures { SensingIsRead }
{}

/// Chapter F is read as what is coded of time code, whatever octets follow; where it isn't there, nothing of it is
/// coded.
#[tactic(auto, using(crate::specs::WrittenF::time_code_is_read))]
pub fn time_code_is_read()
    ensures { TimeCodeIsRead }
{}

/// Chapter X is read as what is coded of System Exclusive messages, up to the end of the octets; where it isn't there,
/// nothing of them is coded.
#[tactic(auto, using(crate::specs::WrittenX::messages_are_read))]
pub fn messages_are_read()
    ensures { MessagesAreRead }
{}
