//! What holds of the stream: its packets, and what is pending.

ghost use Rattle.jm_book.specs.Commands.{KeepsCommands};
ghost use Rattle.jm_book.specs.StreamConduct.{SendsPending, LeavesNothing, PendsSinceCut, KeepsPackets, CountsCuts, KeepsStream, PlaysAppend, NeedsNoCut, PacketsFit, WaitsAlone, SendsInTurn};
ghost use Rattle.jm_book.specs.Segments.{DividesLong};

/// The packet of a cut has the number of the packets before it, whatever steps come later. Where no segment waits it has just the
/// commands that were pending before the cut, in their order; else it holds the first segment that waited, and with the last one
/// the commands that were pending. Its tick is that of the first of these; without any it is the greatest tick among this cut and
/// all plays and cuts before it.
pub fn sends_pending()
    ensures { SendsPending }
{}

/// After a cut nothing is pending, but where more than one segment waited: then just the first of these was taken off.
pub fn leaves_nothing()
    ensures { LeavesNothing }
{}

/// What is pending is the plays since the last cut, in order, behind what that cut left, or all plays where no cut was made.
pub fn pends_since_cut()
    ensures { PendsSinceCut }
{}

/// Packets that were sent stay as they are, whatever steps come.
pub fn keeps_packets()
    ensures { KeepsPackets }
{}

/// As many packets were sent as cuts were made.
pub fn counts_cuts()
    ensures { CountsCuts }
{}

/// A step that is neither a play nor a cut leaves the stream as it was.
pub fn keeps_stream()
    ensures { KeepsStream }
{}

/// A play puts just its own command behind the pending ones, with its player, the number of plays before it, and
/// the greatest tick among it and all plays and cuts before it. Where it is long its segments wait. It changes no packet.
pub fn plays_append()
    ensures { PlaysAppend }
{}

/// With nothing pending and no segment waiting a play is never refused for want of a cut: any command, or its first segment, has
/// room in a packet of its own.
pub fn needs_no_cut()
    ensures { NeedsNoCut }
{}

/// After legal steps each packet, and what is pending, has at most 256 commands, a MIDI list of at most 4,095 octets,
/// and deltas that four octets hold; or it is a segment of 1 to 2,046 data octets.
pub fn packets_fit()
    ensures { PacketsFit }
{}

/// A long command is divided into a first segment, middle ones and a last one, each with 2,046 data octets but the last, which has
/// the rest, at least 1.
pub fn divides_long()
    ensures { DividesLong }
{}

/// After legal steps no command that is pending is long, unless it alone is pending and its last segments wait.
pub fn waits_alone()
    ensures { WaitsAlone }
{}

/// Along legal steps the segments of a long command stand in order in successive packets, from the first one after its play
/// on; as far as they weren't sent they wait. The command is sent with the last of them.
pub fn sends_in_turn()
    ensures { SendsInTurn }
{}

/// Where the command of each play has its numbers within their bounds, so has each that was sent or is pending.
#[tactic(auto, using(crate::specs::CommandLaws::keeps_commands))]
pub fn keeps_commands()
    ensures { KeepsCommands }
{}
