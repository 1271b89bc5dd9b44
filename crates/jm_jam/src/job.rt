//! Who works in a jam.

use jm_cmds::Channel;

/// A worker of a jam. A gate is told its number: players have theirs from 0 to 3, feedback has 4 and 5, the sender 6.
#[derive(Clone, Copy, Debug)]
pub enum Job {
    /// It plays the commands of this player, and cuts where a command needs it.
    Player(Channel),
    /// It reports packets for this participant.
    Feedback { worker: u8, ssrc: u32 },
    /// It cuts.
    Sender,
}
