// The top call of the verbs that read lines.
ghost use Rattle.std.specs.Prelude.{◌≡◌, ◌≢◌, ◌≤◌, ◌↔◌, IfSome, None};
ghost use Rattle.jm_edge.specs.Faults.{Rose};
ghost use Rattle.midi_host.specs.Ends.{Ends, OnReadFault, OnWriteFault, ReadsFew, IsFaultless, Completes, HasFewLines};
ghost use Rattle.midi_host.specs.Run.{verb_named, verb_of, answer_to};
ghost use Rattle.midi_host.specs.SessionShown.{ShowsSessions};

use super::answering::answer_lines;
use super::read::Read;
use super::repair::Repair;
use super::replay::Replay;
use super::status::Status;
use super::word::Word;
use jm_edge::{Sink, Source};
use std::alloc::Global;

/// A verb of the program.
#[derive(Clone, Copy, Debug, PartialEq, Eq)]
pub enum VerbWord {
    /// `replay`: the lines of a script, over one session.
    Replay,
    /// `read`: octets, each line for itself.
    Read,
    /// `repair`: packets, which go to one receiver.
    Repair,
}

// The verb that a word names.
fn verb_named(word: &[u8]) -> Option<VerbWord>
    ensures { result ≡ verb_named word.now }
{
    if word == b"replay".as_slice() {
        return Some(VerbWord::Replay);
    }
    if word == b"read".as_slice() {
        return Some(VerbWord::Read);
    }
    if word == b"repair".as_slice() {
        return Some(VerbWord::Repair);
    }
    None
}

// The verb that the words are.
fn verb_of(words: &[Word]) -> Option<VerbWord>
    ensures { result ≡ verb_of words.now }
{
    match words {
        [word] => verb_named(word.as_bytes()),
        _ => None,
    }
}

/// Answers an input to a sink, by the verb that the words are.
///
/// `Usage` comes exactly where the words aren't those of a verb, and then nothing is read or written. `Done` and
/// `BadScript` come where the source and the sink met no fault, by whether each line is in the grammar.
/// `ReadFault` comes only where the source's count of faults rose in this call, `WriteFault` only where the
/// sink's did, and `NoMemory` where there was none.
///
/// `repair` shows a session's state: where the packets that came so far are of one session, each 1 to 32,767 ahead of the one before
/// it and with a checkpoint of at most that one's number plus 1 (the first one with 0 or none), whatever was lost between, what
/// `state` prints is the state that all of the session's packets up to the last one leave, unless more than 16 different parameters were
/// entered in a channel since the last Reset State command.
pub fn run<S: Source, K: Sink>(
    words: &[Word],
    source: &mut S,
    sink: &mut K,
    alloc: Global,
) -> Status
    ensures usage { (result ≡ Status.Usage) ↔ (verb_of words.now ≡ None) }
    ensures ends { Ends result (answer_to words.now) (S.left source.old) (S.left source.new) (K.written sink.old)
        (K.written sink.new) }
    ensures reads_counted { S.faults source.old ≤ S.faults source.new }
    ensures writes_counted { K.faults sink.old ≤ K.faults sink.new }
    ensures reads_few { ReadsFew (S.left source.old) (S.reads source.old) (S.reads source.new) }
    ensures read_rose { OnReadFault result (Rose (S.faults source.old) (S.faults source.new)) }
    ensures write_rose { OnWriteFault result (Rose (K.faults sink.old) (K.faults sink.new)) }

    // A run that meets no fault ends by the grammar, unless there is no memory.
    ensures complete { verb_of words.now ≢ None → IsFaultless (S.faults source.old) (S.faults source.new)
        → IsFaultless (K.faults sink.old) (K.faults sink.new)
        → IfSome (S.left source.old) (λ input. Completes result (answer_to words.now input)) }
    ensures few_lines { IfSome (S.left source.old) (HasFewLines result) }

    // Each answer of `repair` to `state` behind packets of one session is the text of that session's state.
    ensures shows_sessions { ShowsSessions result words.now (S.left source.old) (K.written sink.old) (K.written sink.new) }
{
    match verb_of(words) {
        None => Status::Usage,
        Some(VerbWord::Replay) => answer_lines(
            &mut Replay::Opening { version: 1 },
            alloc,
            source,
            sink,
        ),
        Some(VerbWord::Read) => answer_lines(&mut Read {}, alloc, source, sink),
        Some(VerbWord::Repair) => {
            answer_lines(&mut Repair { receiver: None }, alloc, source, sink)
        }
    }
}
