//! The law of repair, part by part. Where a state that has all packets before one is repaired by the logs of a later packet's
//! journal, and the journal's checkpoint isn't later than the first packet that the state lacks, the part is as all commands
//! before the later packet leave it. So it is for a receiver before its first packet, where the checkpoint is packet 0. Each
//! law is the contract of a function that does nothing; commands stand in the order of their packets.

ghost use Rattle.jm_receiver.specs.Laws.{ProgramsAreRepaired, ControlsAreRepaired, WheelsAreRepaired, NotesAreRepaired, PressuresAreRepaired, SongIsRepaired, SequencerIsRepaired, TimeCodeIsRepaired, TogglesAreRepaired, SelectionsAreRepaired, FreshLogsRepair};
ghost use Rattle.jm_receiver.specs.Laws.{MessagesAreRepaired, ParametersAreRepaired, ReceiversStayWhole, CommandsKeepAgreement};
ghost use Rattle.jm_receiver.specs.Agreement.{StatesAreRepaired};
ghost use Rattle.jm_receiver.specs.KeptAgreement.{InStepAgain};
ghost use Rattle.jm_receiver.specs.FreshAgreement.{FreshLogsRepairStates, InStepByFresh};
ghost use Rattle.jm_receiver.specs.InStep.{ReceiversComeInStep};
ghost use Rattle.jm_receiver.specs.Late.{LateJoinersHaveValues};
ghost use Rattle.jm_receiver.specs.Needless.{NothingNeedlessIsHeard};
ghost use Rattle.jm_receiver.specs.Unfresh.{NothingNeedlessBehindAnEmptyPacket};
ghost use Rattle.jm_receiver.specs.HeardLaw.{MostPartsAreHeard};
ghost use Rattle.jm_receiver.specs.HeardStates.{StatesAreHeard, StatesAreHeardByFresh};
ghost use Rattle.jm_receiver.specs.HeardPackets.{PacketsAreHeard};
ghost use Rattle.jm_receiver.specs.ParamsHeard.{ParametersAreHeard};
ghost use Rattle.jm_receiver.specs.SelectionsHeard.{SelectionsAreHeard};
ghost use Rattle.jm_receiver.specs.PacketsTell.{PacketsTellParams};
ghost use Rattle.jm_receiver.specs.SegmentsHeard.{SegmentsAreHeardOnce};

/// The program of each channel is repaired, with the bank that it was chosen with.
#[tactic(auto, using(crate::specs::ProgramLaw::program_repaired))]
pub fn programs_are_repaired()
    ensures { ProgramsAreRepaired }
{}

/// The values of the controls of each channel are repaired, two modes that are one part together.
#[tactic(auto, using(crate::specs::ControlLaw::control_repaired))]
pub fn controls_are_repaired()
    ensures { ControlsAreRepaired }
{}

/// The wheel of each channel is repaired.
#[tactic(auto, using(crate::specs::WheelLaw::wheel_repaired))]
pub fn wheels_are_repaired()
    ensures { WheelsAreRepaired }
{}

/// Whether each note sounds is repaired, and with which velocity.
#[tactic(auto, using(crate::specs::NoteLaw::note_repaired))]
pub fn notes_are_repaired()
    ensures { NotesAreRepaired }
{}

/// The pressures of each channel and of each of its keys are repaired.
#[tactic(auto, using(crate::specs::PressureLaw::pressure_repaired, crate::specs::PolyLaw::poly_repaired))]
pub fn pressures_are_repaired()
    ensures { PressuresAreRepaired }
{}

/// The song is repaired.
#[tactic(auto, using(crate::specs::SongLaw::song_repaired))]
pub fn song_is_repaired()
    ensures { SongIsRepaired }
{}

/// The song position is repaired, with whether the sequencer runs and whether the position is still to be played.
#[tactic(auto, using(crate::specs::KnownLaw::sequencer_repaired))]
pub fn sequencer_is_repaired()
    ensures { SequencerIsRepaired }
{}

/// The time code is repaired: what quarter frames have spelled, and how far the next word is.
#[tactic(auto, using(crate::specs::KnownLaw::time_code_repaired))]
pub fn time_code_is_repaired()
    ensures { TimeCodeIsRepaired }
{}

/// The toggles of each channel's sustain pedal are repaired: how often it was moved since Control 121 or the last reset, modulo 64.
#[tactic(auto, using(crate::specs::ToggleLaw::toggles_repaired))]
pub fn toggles_are_repaired()
    ensures { TogglesAreRepaired }
{}

/// The selection of a parameter in each channel is repaired: its four halves, and of which kind the last one was.
#[tactic(auto, using(crate::specs::SelectionLaw::selection_repaired))]
pub fn selections_are_repaired()
    ensures { SelectionsAreRepaired }
{}

/// Where just one packet was lost, the fresh logs of the next one's journal alone repair each part, though older released notes and older
/// halves of parameters are among them: the number of messages where the journal has at most 128 of their logs, and the parameters of
/// a channel where at most 16 different ones were entered in it since the last Reset State command up to the lost packet.
#[tactic(auto, using(crate::specs::FreshLaw::fresh_repair))]
pub fn fresh_logs_repair()
    ensures { FreshLogsRepair }
{}

/// The number of System Exclusive messages since the last Reset State command is repaired, modulo 256, where the journal has at most
/// 128 of their logs.
#[tactic(auto, using(crate::specs::MessageLaw::number_of_messages_repaired))]
pub fn messages_are_repaired()
    ensures { MessagesAreRepaired }
{}

/// The parameters of a channel are repaired, both halves of each, where at most 16 different ones were entered in it since the last
/// Reset State command before the journal's packet. In whatever order they were entered, none of so few is pushed out.
#[tactic(auto, using(crate::specs::ParamLaw::param_repaired))]
pub fn parameters_are_repaired()
    ensures { ParametersAreRepaired }
{}

/// The state of a receiver is whole: the parameters that were entered in a channel are different ones, at most 16, each with a half,
/// and counts are in their ranges. All parts are absent before it has taken a packet.
pub fn receivers_stay_whole()
    ensures { ReceiversStayWhole }
{}

/// Where a whole state agrees with what the commands of a session left, all parts being equal but for the parameters of channels in
/// which more than 16 different ones were entered since the last Reset State command, it agrees still behind further
/// commands.
pub fn commands_keep_agreement()
    ensures { CommandsKeepAgreement }
{}

/// Whole states are repaired: one that agrees with the packets before the first lost one, repaired by all logs of a packet's journal,
/// agrees with all packets before that one.
pub fn states_are_repaired()
    ensures { StatesAreRepaired }
{}

/// A packet that is taken after lost ones brings a state in step again: repaired by all logs of its journal and then given its
/// commands it agrees with all packets up to it.
pub fn states_are_in_step_again()
    ensures { InStepAgain }
{}

/// Whole states are repaired by the fresh logs alone where just one packet was lost: one that agrees with the packets before that one,
/// repaired by the fresh logs of the next packet's journal, agrees with that one too.
pub fn fresh_logs_repair_states()
    ensures { FreshLogsRepairStates }
{}

/// A packet that is taken after just one lost one brings a state in step again by its fresh logs alone: repaired by them and then given
/// the packet's commands it agrees with all packets up to it.
pub fn fresh_logs_bring_in_step()
    ensures { InStepByFresh }
{}

/// A whole receiver whose state agrees with all packets before the first one that it lacks takes a later packet of the stream under its
/// own number, and its state agrees with all packets up to that one: whether none was lost between them, and the journal isn't used;
/// just one, and the fresh logs alone are; or more, and all are. The packet is 1 to 32,767 ahead of the last one that was taken; the
/// first one is below 65,536; and the journal's checkpoint isn't later than the first packet that the receiver lacks. An unfinished
/// message has at least 2,046 octets, as the first segments of a session have, before the packet and behind it.
pub fn receivers_come_in_step()
    ensures { ReceiversComeInStep }
{}

/// Where no packet was missed before it, what is heard of a packet that is taken is just what its section holds: its whole commands, and
/// each message whose last segment is in it, in order, each at the packet's timestamp plus the deltas up to it, modulo 2^32. The
/// state is the old one behind them. So it is behind an earlier packet whatever the journal has, and for the first packet where
/// its journal has no logs.
pub fn nothing_needless_is_heard()
    ensures { NothingNeedlessIsHeard }
{}

/// The same where just one packet was missed before it and no command was sent in that one: the journal has no fresh logs then,
/// whatever older ones it has.
pub fn nothing_needless_behind_an_empty_packet()
    ensures { NothingNeedlessBehindAnEmptyPacket }
{}

/// The commands that repair hands on, each applied in order to the old state, leave it with the song, the number of messages, the controls
/// but 0 and 32, the wheels, the sounding notes with their velocities and the pressures of the repaired state. So it is for every
/// state and all logs, of which the messages that reset nothing have at most 254 data octets.
pub fn most_parts_are_heard()
    ensures { MostPartsAreHeard }
{}

/// Of a whole state that agrees with the packets before the first lost one, repaired by all logs of a packet's journal: the commands that
/// repair hands on, each applied in order to the old state, leave it with the programs and their banks, all controls, the song,
/// the number of messages, the wheels, the sounding notes with their velocities and the pressures of the repaired state.
pub fn states_are_heard()
    ensures { StatesAreHeard }
{}

/// The same where just one packet was lost, by the fresh logs alone of the next one's journal.
pub fn states_are_heard_by_fresh_logs()
    ensures { StatesAreHeardByFresh }
{}

/// What a receiver in step hears of a later packet of the stream, each command played in order into its old state, gives its new one, but for
/// song position, time code, the pedal's toggles, selections and parameters: whatever was lost before the packet. The premises are those
/// of `receivers_come_in_step`.
pub fn packets_are_heard()
    ensures { PacketsAreHeard }
{}

/// A late joiner, whose first packet needn't be the session's, has after each packet that it takes, of the session's state, each value that a
/// command of the packets from that first packet's checkpoint on set or dropped: program numbers, controls, wheels, sounding notes with
/// their velocities, and pressures. Each later packet is 1 to 32,767 ahead of the last one that it took, and its checkpoint isn't
/// later than the first packet that it lacks.
pub fn late_joiners_have_values()
    ensures { LateJoinersHaveValues }
{}

/// What repair hands on tells a listener of parameters, too: of a whole state that agrees with the packets before the first lost one, the
/// commands that repair by a journal's logs hands on, each applied in order to it, leave it with the parameters of the repaired state, both
/// halves of each, in each channel in which at most 16 different ones were entered since the last Reset State command. So it is by
/// all logs, and by the fresh ones alone where just one packet was lost.
pub fn parameters_are_heard()
    ensures { ParametersAreHeard }
{}

/// And of selections: under the premises of `states_are_repaired` those commands leave the state with the selection of the repaired state in
/// each channel, whatever parameters are handed on, since the selection is handed on after them. So it is by all logs, and by
/// the fresh ones alone where just one packet was lost.
pub fn selections_are_heard()
    ensures { SelectionsAreHeard }
{}

/// What a receiver in step hears of a later packet of the stream, each command played in order into its old state, gives the new one's
/// selections, too, and its parameters in each channel in which at most 16 different ones were entered since the last Reset State
/// command: whatever was lost before the packet. The premises are those of `receivers_come_in_step`. With `packets_are_heard` it leaves
/// song position, time code and the pedal's toggles alone untold.
pub fn packets_tell_parameters()
    ensures { PacketsTellParams }
{}

/// A System Exclusive message that comes in segments, in packets one behind another each of which the receiver takes, is heard once, whole, with
/// the low 32 bits of its tick, and nothing else is heard of these packets. So it is however its octets, at most 65,536, are divided. Before
/// the first of them the receiver had taken the packet before, or none where the first is packet 0.
pub fn segments_are_heard_once()
    ensures { SegmentsAreHeardOnce }
{}
