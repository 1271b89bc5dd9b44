// The two ends of a session, between which packets are lost.
use super::replay::host_name;
use super::room::PacketRoom;
use jm_book::{Book, Config, Cutted, Played};
use jm_cmds::{Channel, D7, read_command};
use jm_receiver::Receiver;
use jm_state::State;
use std::alloc::Global;
use std::test::Fail;

const SSRC: u32 = 0x1122_3344;

/// What is played before each packet: notes, a controller, the pedal and the wheel. No note sounds behind the last.
const PLAYED: [[[u8; 3]; 2]; 5] = [
    [[0x90, 60, 100], [0xb0, 7, 90]],
    [[0x80, 60, 64], [0x90, 64, 80]],
    [[0xb0, 64, 127], [0xe0, 5, 70]],
    [[0x90, 64, 0], [0xb0, 64, 0]],
    [[0xa0, 62, 9], [0xb0, 7, 10]],
];

/// A book whose packets go to a receiver.
#[derive(Drop)]
struct Pair {
    book: Book,
    room: PacketRoom,
    receiver: Receiver,
    /// The state that all commands leave that were played.
    meant: State,
}

impl Pair {
    fn new(alloc: Global) -> Result<Pair, Fail> {
        let config = Config {
            ssrc: SSRC,
            events: 100,
            name: host_name(),
        };
        let mut book = Book::new(config, alloc)?;
        book.reserve()?;
        let _player = book.enter();
        book.reserve()?;
        let _mark = book.join(1);
        Ok(Pair {
            book,
            room: PacketRoom::new(alloc)?,
            receiver: Receiver::new(SSRC, alloc)?,
            meant: State::new(),
        })
    }

    fn play(&mut self, octets: &[u8], alloc: Global) -> Result<(), Fail> {
        let (command, _) = read_command(octets, alloc)?;
        self.meant.apply(&command);
        self.book.reserve()?;
        match self.book.play(0, command, 0) {
            Played::Accepted { .. } => Ok(()),
            Played::Refused { .. } => Err("refused")?,
        }
    }

    /// Cuts a packet, and carries it to the receiver unless it is lost.
    fn cut(&mut self, lost: bool) -> Result<(), Fail> {
        self.book.reserve()?;
        match self.room.cut(&mut self.book, 0) {
            Cutted::Packet { .. } => {}
            _ => return Err("refused")?,
        }
        if !lost {
            let _took = self.receiver.accept(self.room.as_slice())?;
        }
        Ok(())
    }
}

// Whether the receiver has in the end what was meant, where packet k was lost if bit k of `losses` is 1. The last one arrives.
fn arrives_in_spite_of(losses: u8, alloc: Global) -> Result<bool, Fail> {
    let mut pair = Pair::new(alloc)?;
    let mut left = losses;
    for commands in &PLAYED {
        for command in commands {
            pair.play(command, alloc)?;
        }
        pair.cut(left % 2 == 1)?;
        left /= 2;
    }
    let state = pair.receiver.state();
    let hanging = state.note(Channel::low(0), D7::low(60)).is_some()
        || state.note(Channel::low(0), D7::low(64)).is_some();
    Ok(state.same(&pair.meant) && !hanging)
}

#[test]
fn lost_packets_leave_no_note_hanging(rt: HostRuntime) -> Result<(), Fail> {
    for losses in 0..16u8 {
        assert!(rt; arrives_in_spite_of(losses, rt.alloc())?);
    }
    Ok(())
}
