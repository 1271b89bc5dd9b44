//! What holds of sessions where their packets are received, over the definitions of sender and receiver. The steps are any
//! legal ones, each play of which brings a command with its numbers within their bounds: so are those of every book, as
//! the clauses of `Book::steps` say. Each law is the contract of a function that does nothing.

ghost use Rattle.jm_session.specs.Packets.{CheckpointsAreTold, PacketsAreRead};
ghost use Rattle.jm_session.specs.Honest.{HonestParticipantsStayInStep};
ghost use Rattle.jm_session.specs.InStep.{ReceiversStayInStep};
ghost use Rattle.jm_session.specs.LongHeard.{LongCommandsAreHeardOnce};
ghost use Rattle.jm_session.specs.Premises.{SentStays, SessionsAreRepaired, SessionsMeetPremises};
ghost use Rattle.jm_session.specs.Sending.{SessionsSendPackets};
ghost use Rattle.jm_session.specs.SomeLongSession.{SomeLongCommandsAreHeard};
ghost use Rattle.jm_session.specs.SomeSession.{SomeSessionIsHonest};

use jm_packet::laws::headers_read_back;
use jm_receiver::laws::{
    controls_are_repaired, fresh_logs_repair_states, notes_are_repaired, pressures_are_repaired,
    programs_are_repaired, receivers_come_in_step, segments_are_heard_once, sequencer_is_repaired,
    song_is_repaired, states_are_repaired, time_code_is_repaired, wheels_are_repaired,
};
use jm_section::laws::sections_read_back;

/// The packet of a cut is read as its header, with the low 16 bits of its number, the low 32 of its tick and the stream's
/// SSRC; its commands, each with the ticks since the one before it, or its one segment of a long command; and, from packet 1
/// on, its journal: the low 16 bits of the checkpoint, and the logs of what it codes of the sent commands. Packet 0 has no
/// journal. So a receiver of this stream finds just that in it.
pub fn packets_are_read()
    ensures { PacketsAreRead }
{
    headers_read_back();
    sections_read_back();
}

/// Where a cut is taken, its packet's checkpoint is the greatest number up to the packet's own that has the low 16 bits that
/// are read.
#[tactic(auto, using(crate::proofs::PacketLaws::checkpoints_told))]
pub fn checkpoints_are_told()
    ensures { CheckpointsAreTold }
{}

/// The sent commands stand in the order of their packets, are within their bounds, and are all of packets before the next
/// one; what its journal codes keeps the limits; and the checkpoint passes no joined participant's mark.
#[tactic(auto, using(crate::proofs::PremiseLaws::premises_met))]
pub fn sessions_meet_premises()
    ensures { SessionsMeetPremises }
{}

/// What was sent in the packets before one stays as it is, whatever steps come.
#[tactic(auto, using(crate::proofs::PremiseLaws::sent_stays))]
pub fn sent_stays()
    ensures { SentStays }
{}

/// Where a state that has all packets before one is repaired by the journal of the packet that is cut next, and the
/// session's checkpoint isn't later than the first packet that the state lacks, these parts of it are as all sent commands
/// leave them: programs with their banks, controls, wheels, notes, pressures, the song, its position and the time code. A
/// whole state that agrees with the packets before one agrees with all sent commands then: all parts are equal, parameters by
/// key, those of a channel aside in which more than 16 different ones were entered since the last Reset State command. Where
/// the state lacks just the last packet the fresh logs alone do it.
pub fn sessions_are_repaired()
    ensures { SessionsAreRepaired }
{
    programs_are_repaired();
    controls_are_repaired();
    wheels_are_repaired();
    notes_are_repaired();
    pressures_are_repaired();
    song_is_repaired();
    sequencer_is_repaired();
    time_code_is_repaired();
    states_are_repaired();
    fresh_logs_repair_states();
}

/// A receiver of the session's stream that is in step stays so with the packet that is cut next. In step is one that is whole,
/// whose state agrees with all packets up to the last one that it took, and in which no message is unfinished that is shorter
/// than a session's first segment. Whichever packets it lost before this one, it takes this one under its number, and its
/// state agrees with all commands that are sent then; and it is in step, whatever steps come. The session's checkpoint isn't
/// later than the first packet that it lacks, and the packet is 1 to 32,767 ahead of the last one that it took, or below
/// 65,536 as the first one.
pub fn receivers_stay_in_step()
    ensures { ReceiversStayInStep }
{
    receivers_come_in_step();
    packets_are_read();
}

/// What a cut writes is a packet of its session, in the words of the clause `in_step` of `Receiver::accept`: whatever steps come
/// behind it, it is read as its number's low 16 bits, its own commands of all that the session sends, and the logs of its
/// checkpoint; and these commands are as that clause asks. So what the clause says of any session holds of every session of a book.
pub fn sessions_send_packets()
    ensures { SessionsSendPackets }
{
    packets_are_read();
}

/// The receiver of an honest participant stays in step, with no premise on checkpoints or distances. The participant joins by a
/// join or by an invitation, in step with the last packet that was sent, or before packet 1 is; it stays; and each of its
/// reports that moves its mark moves it to a packet that its receiver took. Whatever other steps the session takes, and
/// whichever packets are lost or come late: each packet that is later than the last one that the receiver took has a
/// checkpoint that isn't later than the first packet that it lacks, is at most 32,767 ahead, is taken under its number, and
/// leaves the receiver in step again. The session's tape takes fewer than 2^64 steps.
pub fn honest_participants_stay_in_step()
    ensures { HonestParticipantsStayInStep }
{
    receivers_stay_in_step();
}

/// There is a session that meets what `honest_participants_stay_in_step` asks, and in which a packet with a note is lost: the
/// participant's receiver takes the next packet alone, which has no commands, and has the note; its report is honest, and moves the
/// checkpoint past the lost packet.
pub fn some_session_is_honest()
    ensures { SomeSessionIsHonest }
{
    honest_participants_stay_in_step();
}

/// A long System Exclusive message that is played goes out in the first packets that are cut after its play, one segment in each and nothing
/// else, whatever other steps come between. A receiver of the stream that takes each of these packets, and before the first of them had taken the
/// packet before it, or none where it is packet 0, hears the message once, whole, with the low 32 bits of its tick, and nothing else of
/// these packets.
pub fn long_commands_are_heard_once()
    ensures { LongCommandsAreHeardOnce }
{
    segments_are_heard_once();
    packets_are_read();
}

/// There are sessions that meet what `long_commands_are_heard_once` asks: each message of 2,047 to 4,092 data octets can be played, goes
/// out in two packets, and a receiver that took none before takes both and hears it.
pub fn some_long_commands_are_heard()
    ensures { SomeLongCommandsAreHeard }
{
    receivers_stay_in_step();
    long_commands_are_heard_once();
}
