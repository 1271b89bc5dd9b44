//! The log of the program (RFC 6295, A.2, Figure A.2.1).

ghost use Rattle.std.specs.Prelude.{◌≡◌, ◌+◌, ◌≤◌, Some, [], ◌∷◌};
ghost use Rattle.jm_cmds.specs.Sent.{s_of};
ghost use Rattle.jm_wire.specs.Octets.{Appends};
ghost use Rattle.ch_voice.specs.KeptProgram.{program_text};
ghost use Rattle.ch_voice.specs.declared.events.ProgramEvent.TheVariants.{Chosen};
ghost use Rattle.ch_voice.specs.ProgramTable.{choice_of};

use crate::bank::Bank;
use jm_cmds::{D7, s_of};
use jm_wire::Octets;

/// The program that stands.
#[derive(Clone, Copy)]
pub(crate) struct ProgramLog {
    /// Whether the packet before brought it.
    pub(crate) fresh: bool,
    pub(crate) program: D7,
    /// B BANK-MSB.
    pub(crate) high: u8,
    /// X BANK-LSB.
    pub(crate) low: u8,
}

impl ProgramLog {
    /// Appends S PROGRAM and the bank.
    pub(crate) fn write(&self, out: &mut Octets)
        requires { 3 ≤ out.old.spare }
        ensures { Appends out.old out.new (program_text (Some self.now)) }
    {
        out.push(s_of(self.fresh) + self.program.get());
        out.push(self.high);
        out.push(self.low);
    }
}

/// A program with the bank before it, as a table keeps it.
#[derive(Clone, Copy, Debug)]
pub(crate) struct ProgramChoice {
    pub(crate) program: D7,
    /// B BANK-MSB.
    pub(crate) high: u8,
    /// X BANK-LSB.
    pub(crate) low: u8,
}

/// This program, with this bank before it.
pub(crate) fn choice_of(bank: &Bank, program: D7) -> ProgramChoice
    ensures { result ≡ choice_of bank.now (Chosen program) }
{
    ProgramChoice {
        program,
        high: bank.high_octet(),
        low: bank.low_octet(),
    }
}

impl ProgramChoice {
    /// Appends S PROGRAM and the bank.
    pub(crate) fn write(&self, fresh: bool, out: &mut Octets)
        requires { 3 ≤ out.old.spare }
        ensures { Appends out.old out.new ((s_of fresh + self.now.program) ∷ self.now.high ∷ self.now.low ∷ []) }
    {
        out.push(s_of(fresh) + self.program.get());
        out.push(self.high);
        out.push(self.low);
    }
}
