// The reader of lines between two octets. It knows nothing of a verb but what its trait says.
ghost use Rattle.std.specs.Prelude.{◌≡◌, ◌+◌, ◌<◌, ◌≤◌, ◌++◌, [], ◌∷◌, IfOk, OnOk, length, vec_len};
ghost use Rattle.midi_host.specs.Told.{bad_line};
ghost use Rattle.midi_host.specs.LineReader.{IsKept, Fed, Ended, Closed, Nears};

use super::answers::Answers;
use super::conversation::{Conversation, Flow, LineOutcome, MOST_LINES};
use jm_script::{AnswerLine, Cause};
use std::alloc::{AllocError, Global};

/// How far the reading has come.
#[derive(Drop)]
pub struct LineReader {
    /// The number of lines that came to their end.
    pub before: u32,
    /// The line so far.
    pub line: Vec<u8>,
    /// The answers that aren't written yet.
    pub answers: Answers,
}

// Answers the line so far as the first that is outside the grammar.
fn stop(reader: &mut LineReader, cause: Cause) -> Result<Flow, AllocError>
    requires { reader.old.before ≤ MOST_LINES }
    ensures ok { OnOk result (reader.new.answers ≡ reader.old.answers ++ bad_line (reader.old.before + 1) cause) }
    ensures stop { IfOk result (λ flow. flow ≡ Flow.Stop) }
{
    reader.answers.add(&AnswerLine::BadScript {
        line: reader.before + 1,
        cause,
    })?;
    Ok(Flow::Stop)
}

// The line so far came to its end.
fn end_line<V: Conversation>(
    verb: &mut V,
    alloc: Global,
    reader: &mut LineReader,
) -> Result<Flow, AllocError>
    requires { IsKept V.LONGEST reader.old }
    ensures ended { Ended result (V.told verb.old reader.old.before) (V.told verb.new reader.new.before)
        reader.old reader.new }
    ensures nears { Nears result V.LONGEST reader.old reader.new 1 }
{
    if reader.before == MOST_LINES {
        return stop(reader, Cause::Lines);
    }
    match verb.line(
        alloc,
        reader.before,
        reader.line.as_slice(),
        &mut reader.answers,
    )? {
        LineOutcome::Taken => {
            reader.before += 1;
            reader.line.clear();
            Ok(Flow::On)
        }
        LineOutcome::Bad(cause) => stop(reader, cause),
    }
}

// One octet came.
fn take_octet<V: Conversation>(
    verb: &mut V,
    alloc: Global,
    reader: &mut LineReader,
    octet: u8,
) -> Result<Flow, AllocError>
    requires { IsKept V.LONGEST reader.old }
    ensures fed { Fed result (V.told verb.old reader.old.before) (V.told verb.new reader.new.before)
        reader.old reader.new (octet ∷ []) }
    ensures nears { Nears result V.LONGEST reader.old reader.new 1 }
{
    if octet == b'\n' {
        return end_line(verb, alloc, reader);
    }
    if reader.before == MOST_LINES {
        return stop(reader, Cause::Lines);
    }
    if reader.line.len() == V::LONGEST {
        return stop(reader, Cause::TooLong);
    }
    reader.line.push(octet)?;
    Ok(Flow::On)
}

/// A piece came. Where the reading goes on, its whole lines were answered, and the rest is the line so far.
pub fn take_piece<V: Conversation>(
    verb: &mut V,
    alloc: Global,
    reader: &mut LineReader,
    piece: &[u8],
) -> Result<Flow, AllocError>
    requires { IsKept V.LONGEST reader.old }
    ensures fed { Fed result (V.told verb.old reader.old.before) (V.told verb.new reader.new.before)
        reader.old reader.new piece.now }
    ensures nears { Nears result V.LONGEST reader.old reader.new (length piece.now) }
{
    for octet in piece {
        match take_octet(verb, alloc, reader, *octet)? {
            Flow::On => {}
            Flow::Stop => return Ok(Flow::Stop),
        }
    }
    Ok(Flow::On)
}

/// The text came to its end. A last line that lacks its end is answered too.
pub fn close<V: Conversation>(
    verb: &mut V,
    alloc: Global,
    reader: &mut LineReader,
) -> Result<Flow, AllocError>
    requires { IsKept V.LONGEST reader.old }
    ensures { Closed result (V.told verb.old reader.old.before) reader.old reader.new }
{
    if reader.line.is_empty() {
        return Ok(Flow::On);
    }
    end_line(verb, alloc, reader)
}
