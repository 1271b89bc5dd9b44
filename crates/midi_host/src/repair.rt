//! The verb `repair`: packets that go to one receiver, and its state.

ghost use Rattle.std.specs.Prelude.{◌≡◌, ◌++◌, OnOk, None, Some};
ghost use Rattle.jm_receiver.specs.Accept.{accepted};
ghost use Rattle.midi_host.specs.Did.{Did};
ghost use Rattle.midi_host.specs.Repair.{heard_lines, took_lines, taken_by, packet_to, shown, repaired_line};

use super::answers::Answers;
use super::conversation::{Conversation, LineOutcome, MOST_OCTETS, refuse};
use jm_cmds::ReadError;
use jm_packet::read_source;
use jm_receiver::{AcceptFault, Heard, Receiver, Took};
use jm_script::{AnswerLine, Cause, Line, LineKind, read_line};
use std::alloc::{AllocError, Global};

/// The verb. Its receiver is made for the source of the first packet whose header is read.
#[derive(Debug, Drop)]
pub struct Repair {
    pub receiver: Option<Receiver>,
}

impl Answers {
    /// Adds the lines of what was heard.
    fn add_heard(&mut self, heard: &[Heard], alloc: Global) -> Result<(), AllocError>
        ensures { OnOk result (self.new ≡ self.old ++ heard_lines heard.now) }
    {
        for one in heard {
            self.add(&AnswerLine::HeardOne {
                kind: one.kind,
                tick: one.tick,
                command: one.command.copy(alloc)?,
            })?;
        }
        Ok(())
    }

    /// Adds what was taken of a packet, and then what was heard.
    fn add_took(&mut self, took: &Took, alloc: Global) -> Result<(), AllocError>
        ensures { OnOk result (self.new ≡ self.old ++ took_lines took.now) }
    {
        self.add(&AnswerLine::Took {
            number: took.number,
            gap: took.gap,
            count: took.heard.len(),
        })?;
        self.add_heard(took.heard.as_slice(), alloc)?;
        Ok(())
    }
}

/// A packet comes to a receiver.
fn accept(
    receiver: &mut Receiver,
    octets: &[u8],
    alloc: Global,
    answers: &mut Answers,
) -> Result<LineOutcome, AllocError>
    ensures { Did result (taken_by receiver.old (accepted receiver.old octets.now)) (Some receiver.new) answers.old answers.new }
{
    match receiver.accept(octets) {
        Ok(took) => {
            answers.add_took(&took, alloc)?;
            Ok(LineOutcome::Taken)
        }
        Err(ReadError::Fault(fault)) => {
            answers.add(&AnswerLine::NotTaken(fault))?;
            Ok(LineOutcome::Taken)
        }
        Err(ReadError::Memory) => Err(AllocError),
    }
}

impl Repair {
    /// `packet HEX`, where no receiver is.
    fn first_packet(
        &mut self,
        octets: &[u8],
        alloc: Global,
        answers: &mut Answers,
    ) -> Result<LineOutcome, AllocError>
        requires { self.old.receiver ≡ None }
        ensures { Did result (packet_to None octets.now) self.new.receiver answers.old answers.new }
    {
        match read_source(octets) {
            Err(fault) => {
                answers.add(&AnswerLine::NotTaken(AcceptFault::Packet(fault)))?;
                Ok(LineOutcome::Taken)
            }
            Ok(ssrc) => {
                let mut receiver = Receiver::new(ssrc, alloc)?;
                let outcome = accept(&mut receiver, octets, alloc, answers)?;
                self.receiver = Some(receiver);
                Ok(outcome)
            }
        }
    }

    /// `packet HEX`.
    fn packet(
        &mut self,
        octets: &[u8],
        alloc: Global,
        answers: &mut Answers,
    ) -> Result<LineOutcome, AllocError>
        ensures { Did result (packet_to self.old.receiver octets.now) self.new.receiver answers.old answers.new }
    {
        match &mut self.receiver {
            Some(receiver) => accept(receiver, octets, alloc, answers),
            None => self.first_packet(octets, alloc, answers),
        }
    }

    /// `state`.
    fn show(&self, answers: &mut Answers) -> Result<(), AllocError>
        ensures { OnOk result (answers.new ≡ answers.old ++ shown self.now.receiver) }
    {
        match &self.receiver {
            None => {
                answers.add(&AnswerLine::End)?;
                Ok(())
            }
            Some(receiver) => {
                answers.add_state(receiver.state())?;
                answers.add(&AnswerLine::End)?;
                Ok(())
            }
        }
    }

    /// A line that is in the grammar.
    fn take(
        &mut self,
        line: Line,
        alloc: Global,
        answers: &mut Answers,
    ) -> Result<LineOutcome, AllocError>
        ensures { Did result (repaired_line self.old.receiver line) self.new.receiver answers.old answers.new }
    {
        match line {
            Line::Blank => Ok(LineOutcome::Taken),
            Line::RepairPacket(octets) => self.packet(octets.as_slice(), alloc, answers),
            Line::ShowState => {
                self.show(answers)?;
                Ok(LineOutcome::Taken)
            }
            _ => Ok(LineOutcome::Bad(Cause::Word)),
        }
    }
}

impl Conversation for Repair {
    ghost use Rattle.midi_host.specs.declared.conversation.TheConstants.{MOST_OCTETS};
    ghost use Rattle.midi_host.specs.Told.{told_by};
    ghost use Rattle.midi_host.specs.Repair.{repair_lined};
    ghost use Rattle.std.proofs.Common.{lit≤};
    ghost use Rattle.midi_host.specs.ToldBy.{told_by_nothing, told_by_lines, told_by_too_long};

    const LONGEST: usize = MOST_OCTETS;

    ghost LONGEST = { MOST_OCTETS };

    ghost told = { λ repair before lines. told_by MOST_OCTETS repair_lined before repair.receiver lines };

    ghost bounded = { lit≤ tt };

    ghost told_nothing = { λ repair before. told_by_nothing MOST_OCTETS repair_lined before repair.receiver };

    ghost told_lines = { λ repair before line lines many. told_by_lines MOST_OCTETS repair_lined before repair.receiver line lines many };

    ghost told_too_long = { λ repair before line lines few long. told_by_too_long MOST_OCTETS repair_lined before repair.receiver line lines few long };

    fn line(
        &mut self,
        alloc: Global,
        before: u32,
        line: &[u8],
        answers: &mut Answers,
    ) -> Result<LineOutcome, AllocError> {
        match read_line(LineKind::Repair, line, false, 1, alloc) {
            Ok(line) => self.take(line, alloc, answers),
            Err(error) => refuse(error),
        }
    }
}
