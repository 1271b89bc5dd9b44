// Writing a text to a sink.
ghost use Rattle.std.specs.Prelude.{◌≡◌, ◌≤◌, ◌++◌, [], OnOk, OnErr, length, vec_len};
ghost use Rattle.jm_edge.specs.Faults.{Rose};
ghost use Rattle.midi_host.specs.Wrote.{Wrote, WrotePart};

use jm_edge::{Put, Sink};

/// A write failed.
#[derive(Clone, Copy, Debug, PartialEq, Eq)]
pub struct WriteFailed;

/// Writes a text whole. Where a write fails, a front of it was written, and the sink's count of faults rose.
pub fn write_all<K: Sink>(sink: &mut K, text: &[u8]) -> Result<(), WriteFailed>
    ensures ok { OnOk result (Wrote (K.written sink.old) (K.written sink.new) text.now) }
    ensures err { OnErr result (WrotePart (K.written sink.old) (K.written sink.new) text.now) }
    ensures counted { K.faults sink.old ≤ K.faults sink.new }
    ensures rose { OnErr result (Rose (K.faults sink.old) (K.faults sink.new)) }
{
    let mut at = 0;
    while at < text.len() {
        match sink.write(&text[at..]) {
            Put::Took(count) => at += count,
            Put::Failed => return Err(WriteFailed),
        }
    }
    Ok(())
}
