//! The line that a call ends with.

ghost use Rattle.std.specs.Prelude.{◌≡◌, ◌+◌, ◌≤◌, length};
ghost use Rattle.midi_host.specs.Ended.{phase_text, ended_line};

use apple_invite::{EndCause, Phase};
use itoa::Buffer;
use jm_wire::Octets;

// How far an invitation came.
fn phase_text(phase: Phase) -> &'static [u8]
    ensures text { result.now ≡ phase_text phase }
    ensures short { length result.now ≤ 16 }
{
    match phase {
        Phase::Fresh => b"fresh",
        Phase::AskCtl | Phase::AskRtp => b"asking",
        Phase::Open => b"open",
        Phase::Closed(EndCause::NoAnswer) => b"closed no-answer",
        Phase::Closed(EndCause::Rejected) => b"closed rejected",
        Phase::Closed(EndCause::Bye) => b"closed bye",
        Phase::Closed(EndCause::Ours) => b"closed ours",
    }
}

/// Puts the line into `out`, which has room for 80 octets, in place of what stood there: how far an invitation came before
/// it was closed, and how often the clocks were compared.
#[tactic(auto, unfolding(crate::specs::Ended::ended_line))]
pub fn write_ended(phase: Phase, clocks: u64, out: &mut Octets)
    requires { 80 ≤ out.old.spare + length out.old.octets }
    ensures { out.new.octets ≡ ended_line phase clocks }
{
    let mut buffer = Buffer::new();
    out.clear();
    out.push_slice(b"ended ");
    out.push_slice(phase_text(phase));
    out.push_slice(b" clocks ");
    out.push_slice(buffer.format(clocks).as_bytes());
    out.push(b'\n');
}
