//! Chapter C: the controllers of a channel (RFC 6295, A.3, Figures A.3.1 to A.3.3).

ghost use Rattle.std.specs.Prelude.{◌≡◌, ◌≤◌, length, IfOk};
ghost use Rattle.jm_reader.specs.Chapter.{Reads, chapter};
ghost use Rattle.jm_reader.specs.Pairs.{toggles_said, count_said, control_said, listed_read};
ghost use Rattle.jm_reader.specs.declared.pairs.PairKind.TheVariants.{Controllers};

use crate::faults::JournalFault;
use crate::logs::{LogKind, Logs};
use crate::pairs::{PairKind, read_listed};
use jm_cmds::{Channel, D7, ReadError, is_counted, is_entry};

/// The toggles of the sustain pedal, where this is its controller.
fn toggles_said(channel: Channel, number: D7, form: u8) -> Option<LogKind>
    ensures { result ≡ toggles_said channel number form }
{
    if number.get() == 64 {
        return Some(LogKind::Toggle {
            channel,
            count: form % 64,
        });
    }
    None
}

/// The count of a controller whose commands are counted.
fn count_said(channel: Channel, number: D7, form: u8) -> Option<LogKind>
    ensures { result ≡ count_said channel number form }
{
    if is_counted(number) {
        return Some(LogKind::Count {
            channel,
            number,
            count: form % 64,
        });
    }
    None
}

/// What the log of a controller says, where it says something here.
pub(crate) fn said(channel: Channel, number: D7, form: u8) -> Option<LogKind>
    ensures { result ≡ control_said channel number form }
{
    if is_entry(number) {
        return None;
    }
    if form < 128 {
        return Some(LogKind::Control {
            channel,
            number,
            value: D7::low(form),
        });
    }
    if form < 192 {
        return toggles_said(channel, number, form);
    }
    count_said(channel, number, form)
}

/// Reads the chapter at the front of these octets, which stand at `place`, and tells how many octets it has.
pub(crate) fn read(
    body: &[u8],
    place: usize,
    channel: Channel,
    logs: &mut Logs,
) -> Result<usize, ReadError<JournalFault>>
    ensures value { Reads result logs.new (chapter place logs.old (listed_read Controllers channel body.now)) }
    ensures used { IfOk result (λ used. used ≤ length body.now) }
{
    read_listed(PairKind::Controllers, body, place, channel, logs)
}
