// What the reader of lines asks of a verb.
ghost use Rattle.std.specs.Prelude.{◌≡◌, ◌+◌, ◌<◌, ◌≤◌, ℕ, List, [], ◌∷◌, length};
ghost use Rattle.jm_cmds.specs.declared.outcome.ReadError.{ReadError};
ghost use Rattle.midi_host.specs.Text.{IsOfLine};
ghost use Rattle.midi_host.specs.Told.{Told, told_none, told_bad, cause_of};
ghost use Rattle.midi_host.specs.Outcome.{Hears, Refuses};

use super::answers::Answers;
use jm_cmds::ReadError;
use jm_script::{Cause, LineFault};
use std::alloc::{AllocError, Global};

/// The most lines that an input may have.
pub const MOST_LINES: u32 = 4_194_304;

/// The most octets of a line, without its end, of each verb.
pub const MOST_OCTETS: usize = 131_200;

/// What a verb made of a line.
#[derive(Clone, Copy, Debug, PartialEq, Eq)]
pub enum LineOutcome {
    /// It was taken, and its answer was added.
    Taken,
    /// It is outside the grammar, and nothing was added.
    Bad(Cause),
}

/// Whether the reading goes on.
#[derive(Clone, Copy, Debug, PartialEq, Eq)]
pub enum Flow {
    /// The reading goes on.
    On,
    /// A line was outside the grammar, and was answered so.
    Stop,
}

// The cause that a fault of the grammar is.
fn cause_of(fault: LineFault) -> Cause
    ensures { result ≡ cause_of fault }
{
    match fault {
        LineFault::Word => Cause::Word,
        LineFault::Form => Cause::Form,
        LineFault::Command => Cause::Command,
    }
}

/// What becomes of a line that was not read: it is bad, unless memory was refused.
pub fn refuse(error: ReadError<LineFault>) -> Result<LineOutcome, AllocError>
    ensures { Refuses error result }
{
    match error {
        ReadError::Fault(fault) => Ok(LineOutcome::Bad(cause_of(fault))),
        ReadError::Memory => Err(AllocError),
    }
}

/// One of the program's languages of lines.
pub trait Conversation {
    ghost use Rattle.midi_host.specs.declared.conversation.TheConstants.{MOST_LINES, MOST_OCTETS};
    ghost use Rattle.jm_script.specs.declared.answer.Cause.TheVariants.{Lines, TooLong};

    /// The most octets of a line, without its end.
    const LONGEST: usize;

    /// The same, for contracts.
    ghost LONGEST: { ℕ };

    /// What the lines to come will be told, where so many came before.
    ghost told: { Self → ℕ → List (List ℕ) → Told };

    /// Takes a line that came after `before` others, and adds its answer to `answers`.
    fn line(
        &mut self,
        alloc: Global,
        before: u32,
        line: &[u8],
        answers: &mut Answers,
    ) -> Result<LineOutcome, AllocError>
        requires few { before < MOST_LINES }
        requires short { length line.now ≤ LONGEST }
        requires of_line { IsOfLine line.now }
        ensures { Hears result before (told self.old before) (told self.new (before + 1)) line.now
            answers.old answers.new };

    /// No line is told nothing.
    ghost told_nothing: { (verb : Self) (before : ℕ) → told verb before [] ≡ told_none };

    /// A line past the limit of lines is bad, whatever it is.
    ghost told_lines: { (verb : Self) (before : ℕ) (line : List ℕ) (lines : List (List ℕ)) → MOST_LINES ≤ before
        → told verb before (line ∷ lines) ≡ told_bad (before + 1) Lines };

    /// So is one past the limit of octets.
    ghost told_too_long: { (verb : Self) (before : ℕ) (line : List ℕ) (lines : List (List ℕ)) → before < MOST_LINES
        → LONGEST < length line → told verb before (line ∷ lines) ≡ told_bad (before + 1) TooLong };

    /// No verb takes longer lines than the longest.
    ghost bounded: { LONGEST ≤ MOST_OCTETS };
}
