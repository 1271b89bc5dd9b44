// The reading of a source to its end, and the writing of what it is answered.
ghost use Rattle.std.specs.Prelude.{◌≡◌, ◌≢◌, ◌≤◌, [], OnOk, OnErr, IfSome};
ghost use Rattle.jm_edge.specs.Faults.{Rose};
ghost use Rattle.midi_host.specs.Text.{lines_of};
ghost use Rattle.midi_host.specs.LineReader.{IsKept};
ghost use Rattle.midi_host.specs.Wrote.{Wrote, WrotePart};
ghost use Rattle.midi_host.specs.Ends.{Ends, Finishes, OnReadFault, OnWriteFault, ReadsFew, IsFaultless, Completes};

use super::answers::Answers;
use super::conversation::{Conversation, Flow};
use super::line_reader::{LineReader, close, take_piece};
use super::status::Status;
use super::writing::{WriteFailed, write_all};
use jm_edge::{Got, Sink, Source};
use std::alloc::Global;

/// The octets that are asked of a source at once.
const PIECE: usize = 4096;

// Writes the answers that aren't written yet.
fn write_out<K: Sink>(answers: &mut Answers, sink: &mut K) -> Result<(), WriteFailed>
    ensures ok { OnOk result (Wrote (K.written sink.old) (K.written sink.new) answers.old) }
    ensures err { OnErr result (WrotePart (K.written sink.old) (K.written sink.new) answers.old) }
    ensures cleared { OnOk result (answers.new ≡ []) }
    ensures counted { K.faults sink.old ≤ K.faults sink.new }
    ensures rose { OnErr result (Rose (K.faults sink.old) (K.faults sink.new)) }
{
    write_all(sink, answers.as_slice())?;
    answers.clear();
    Ok(())
}

// The source is at its end.
fn finish<V: Conversation, K: Sink>(
    verb: &mut V,
    alloc: Global,
    reader: &mut LineReader,
    sink: &mut K,
) -> Status
    requires kept { IsKept V.LONGEST reader.old }
    requires written { reader.old.answers ≡ [] }
    ensures finishes { Finishes result (V.told verb.old reader.old.before (lines_of reader.old.line.items))
        (K.written sink.old) (K.written sink.new) }
    ensures counted { K.faults sink.old ≤ K.faults sink.new }
    ensures rose { OnWriteFault result (Rose (K.faults sink.old) (K.faults sink.new)) }
{
    match close(verb, alloc, reader) {
        Ok(flow) => {
            if write_out(&mut reader.answers, sink).is_err() {
                return Status::WriteFault;
            }
            match flow {
                Flow::On => Status::Done,
                Flow::Stop => Status::BadScript,
            }
        }
        Err(_) => Status::NoMemory,
    }
}

/// Answers the lines of a source to a sink, to the source's end or to the first line outside the grammar.
pub fn answer_lines<V: Conversation, S: Source, K: Sink>(
    verb: &mut V,
    alloc: Global,
    source: &mut S,
    sink: &mut K,
) -> Status
    ensures ends { Ends result (λ text. V.told verb.old 0 (lines_of text))
        (S.left source.old) (S.left source.new) (K.written sink.old) (K.written sink.new) }
    ensures right_words { result ≢ Status.Usage }
    ensures reads_counted { S.faults source.old ≤ S.faults source.new }
    ensures writes_counted { K.faults sink.old ≤ K.faults sink.new }
    ensures reads_few { ReadsFew (S.left source.old) (S.reads source.old) (S.reads source.new) }
    ensures read_rose { OnReadFault result (Rose (S.faults source.old) (S.faults source.new)) }
    ensures write_rose { OnWriteFault result (Rose (K.faults sink.old) (K.faults sink.new)) }
    ensures complete { IsFaultless (S.faults source.old) (S.faults source.new)
        → IsFaultless (K.faults sink.old) (K.faults sink.new)
        → IfSome (S.left source.old) (λ input. Completes result (V.told verb.old 0 (lines_of input))) }
{
    let mut reader = LineReader {
        before: 0,
        line: Vec::new(alloc),
        answers: Answers::new(alloc),
    };
    let mut buf = [0; PIECE];
    'reads: loop {
        let count = match source.read(&mut buf) {
            Got::Octets(count) => count,
            Got::Done => return finish(verb, alloc, &mut reader, sink),
            Got::Failed => return Status::ReadFault,
        };
        match take_piece(verb, alloc, &mut reader, &buf[..count]) {
            Ok(Flow::On) => match write_out(&mut reader.answers, sink) {
                Ok(()) => {}
                Err(_) => return Status::WriteFault,
            },
            Ok(Flow::Stop) => match write_out(&mut reader.answers, sink) {
                Ok(()) => return Status::BadScript,
                Err(_) => return Status::WriteFault,
            },
            Err(_) => return Status::NoMemory,
        }
    }
}
