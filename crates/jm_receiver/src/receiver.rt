//! The receiver.

ghost use Rattle.std.specs.Prelude.{◌≡◌, None, IfOk, OnErr};
ghost use Rattle.jm_state.specs.Parts.{no_state};
ghost use Rattle.jm_receiver.specs.Accept.{contents, repaired_by, repaired_using, kept_over, heard_in, accepted, Accepts};
ghost use Rattle.jm_receiver.specs.StaysInStep.{StaysInStep};

use crate::heard::{HeardList, Hearing};
use crate::opening::{AcceptFault, Opened, open};
use crate::place::{Placed, Uses, find_place};
use crate::repair::repair_state;
use jm_cmds::{ReadError, Sysex};
use jm_reader::{Log, Logs};
use jm_state::State;
use std::alloc::{AllocError, Global};
use std::marker::Model;

/// What a receiver took from a packet.
#[derive(Debug, Drop)]
pub struct Took {
    /// The packet's number, of which the packet has the low 16 bits.
    pub number: u64,
    /// How many packets were missed before it. 0 for the first packet.
    pub gap: u64,
    /// The commands that repair hands on, and then those of the packet's section.
    pub heard: HeardList,
}

/// A receiver of one stream of a session. Contracts see it as a record: whose stream it takes, the number of the last packet
/// that it took, its state, and the data octets of an unfinished message.
#[derive(Debug, Drop)]
pub struct Receiver {
    alloc: Global,
    ssrc: u32,
    last: Option<u64>,
    state: State,
    unfinished: Option<Sysex>,
}

impl Model for Receiver {
    ghost use Rattle.jm_receiver.specs.Receiver.{Received};

    ghost Value = { Received };

    ghost view = { λ r. record { ssrc = r.ssrc; last = r.last; state = r.state; unfinished = r.unfinished } };
}

impl Hearing {
    /// The state is repaired by these logs, and what repair hands on is heard.
    fn repair_by(&mut self, logs: &[Log], alloc: Global) -> Result<(), AllocError>
        ensures { IfOk result (λ _. self.new ≡ repaired_by logs.now self.old) }
    {
        let mut repaired = self.state.copy();
        repair_state(&mut repaired, logs);
        self.hand_on_repair(logs, &repaired, alloc)?;
        self.state = repaired;
        Ok(())
    }

    /// The state is repaired by those of these logs that are used, and what repair hands on is heard.
    fn repair_using(&mut self, uses: Uses, mut logs: Logs, alloc: Global) -> Result<(), AllocError>
        ensures { IfOk result (λ _. self.new ≡ repaired_using uses logs self.old) }
    {
        match uses {
            Uses::Nothing => Ok(()),
            Uses::Fresh => {
                logs.keep_fresh();
                self.repair_by(logs.as_slice(), alloc)
            }
            Uses::All => self.repair_by(logs.as_slice(), alloc),
        }
    }
}

impl Receiver {
    /// A receiver of the stream of this source. It has taken no packet, all parts of its state are absent, and no message is unfinished.
    pub fn new(ssrc: u32, alloc: Global) -> Result<Receiver, AllocError>
        ensures { IfOk result (λ r. r ≡ record { ssrc = ssrc; last = None; state = no_state; unfinished = None }) }
    {
        Ok(Receiver {
            alloc,
            ssrc,
            last: None,
            state: State::new(),
            unfinished: None,
        })
    }

    /// The state after the last packet that was taken.
    pub fn state(&self) -> &State
        ensures { result.now ≡ self.now.state }
    {
        &self.state
    }

    /// The number of the last packet that was taken, if one was.
    pub fn last(&self) -> Option<u64>
        ensures { result ≡ self.now.last }
    {
        self.last
    }

    /// Whose stream it takes.
    pub fn ssrc(&self) -> u32
        ensures { result ≡ self.now.ssrc }
    {
        self.ssrc
    }

    /// A copy of the unfinished message, where no packet was missed.
    fn keep_over(&self, gap: u64) -> Result<Option<Sysex>, AllocError>
        ensures { IfOk result (λ unfinished. unfinished ≡ kept_over gap self.now.unfinished) }
    {
        if gap != 0 {
            return Ok(None);
        }
        match &self.unfinished {
            Some(message) => Ok(Some(message.copy(self.alloc)?)),
            None => Ok(None),
        }
    }

    /// The state after a packet, and what is heard of it.
    fn hear(&self, opened: Opened, place: Placed) -> Result<Hearing, AllocError>
        ensures { IfOk result (λ h. h ≡ heard_in self.now (contents opened) place) }
    {
        let mut hearing = Hearing {
            state: self.state.copy(),
            tick: opened.tick,
            heard: HeardList::none(self.alloc),
            unfinished: None,
        };
        hearing.repair_using(place.uses, opened.logs, self.alloc)?;
        hearing.unfinished = self.keep_over(place.gap)?;
        hearing.hear_items(opened.items.as_slice(), self.alloc)?;
        Ok(hearing)
    }

    /// Takes a packet, or says why not.
    #[tactic(auto, unfolding(crate::specs::Accept::accepted))]
    fn take(&mut self, packet: &[u8]) -> Result<Took, ReadError<AcceptFault>>
        ensures accepts { Accepts result self.new (accepted self.old packet.now) }
        ensures unchanged { OnErr result (self.new ≡ self.old) }
    {
        let opened = open(self.ssrc, packet, self.alloc)?;
        let place = match find_place(self.last, opened.number) {
            Ok(place) => place,
            Err(fault) => return Err(ReadError::Fault(fault)),
        };
        let hearing = self.hear(opened, place)?;
        self.state = hearing.state;
        self.unfinished = hearing.unfinished;
        self.last = Some(place.number);
        Ok(Took {
            number: place.number,
            gap: place.gap,
            heard: hearing.heard,
        })
    }

    /// Takes a packet (RFC 6295, sections 4 and 5).
    ///
    /// The first packet that is taken has the number of its 16 bits, and all logs of its journal repair the state. A later one
    /// is 1 to 32,767 ahead of the last: the number grows by that, modulo 2^64. Where no packet was missed between them
    /// the journal isn't used; where one was, the state is repaired by the logs of what came in it, and else by all logs. Then
    /// the commands of the section are heard and applied in order: whole ones, and System Exclusive messages that come in segments (section
    /// 3.2), each with the time of its last segment. An unfinished message is kept for the next packet. It is dropped where a packet was missed
    /// before that one, at a further first segment, at one that calls it off, at a whole message, and where it would have more than
    /// 65,536 data octets. Other segments are skipped where none is unfinished.
    ///
    /// Refused, in this order: `Packet` for the header; `OtherSsrc` where the packet is of another stream; `Packet` for the
    /// section; `Journal` where the journal isn't one, also where it isn't used; `Older` where the low 16 bits of the number are
    /// 0 or at least 32,768 ahead of those of the last packet. `Memory` is answered where memory is refused. After a refusal
    /// the receiver is as it was.
    ///
    /// A receiver that is in step with its session, and takes a packet of it, is in step again, whatever was lost between: where the packet is 1
    /// to 32,767 ahead of the last one, and its checkpoint isn't later than the first packet that the receiver lacks; as the first one, below
    /// 65,536, with the checkpoint 0 or none. Such a packet isn't refused, but for want of memory.
    pub fn accept(&mut self, packet: &[u8]) -> Result<Took, ReadError<AcceptFault>>
        ensures accepts { Accepts result self.new (accepted self.old packet.now) }
        ensures unchanged { OnErr result (self.new ≡ self.old) }
        ensures in_step { StaysInStep self.old packet.now result self.new }
    {
        self.take(packet)
    }
}
