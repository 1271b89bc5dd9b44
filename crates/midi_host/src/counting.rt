//! Counting a tape, and the line that tells of it.

ghost use Rattle.std.specs.Prelude.{◌≡◌, ◌+◌, ◌≤◌, ◌<◌, ◌^◌, length, codes, IfOk};
ghost use Rattle.midi_host.specs.Counts.{with_change, with_kind, counts_of};
ghost use Rattle.midi_host.specs.ServedLine.{served_line};

use super::attendance::Attendance;
use super::change::Change;
use super::counts::Counts;
use itoa::Buffer;
use jm_book::{Config, Step};
use jm_wire::Octets;
use std::alloc::{AllocError, Global};

// Counts a change.
fn add_change(counts: &mut Counts, change: Change)
    requires joins { counts.old.joins + 1 < 2 ^ 64 }
    requires leaves { counts.old.leaves + 1 < 2 ^ 64 }
    ensures { counts.new ≡ with_change change counts.old }
{
    match change {
        Change::Joins => counts.joins += 1,
        Change::Leaves => counts.leaves += 1,
        Change::Neither => {}
    }
}

// Counts a step by its kind.
fn add_kind(counts: &mut Counts, step: &Step)
    requires packets { counts.old.packets + 1 < 2 ^ 64 }
    requires commands { counts.old.commands + 1 < 2 ^ 64 }
    ensures { counts.new ≡ with_kind step.now counts.old }
{
    match step {
        Step::Cut { .. } => counts.packets += 1,
        Step::Play { .. } => counts.commands += 1,
        Step::Enter
        | Step::Ack { .. }
        | Step::Join { .. }
        | Step::Leave { .. }
        | Step::Hear { .. }
        | Step::Feedback
        | Step::Say { .. } => {}
    }
}

/// What is counted on the tape of a session of this configuration: its packets, its commands, and how often one joined and
/// left, also by a message. At `Err` there was no memory for those who took part at once.
pub fn counts_of(config: &Config, tape: &[Step], alloc: Global) -> Result<Counts, AllocError>
    ensures { IfOk result (λ counts. counts ≡ counts_of config.now tape.now) }
{
    let mut attendance = Attendance::new(config.ssrc, config.name.copy(), alloc);
    let mut counts = Counts {
        packets: 0,
        commands: 0,
        joins: 0,
        leaves: 0,
    };
    for step in tape {
        let change = attendance.follow(step)?;
        add_change(&mut counts, change);
        add_kind(&mut counts, step);
    }
    Ok(counts)
}

/// Puts the line that tells of a served session into `out`, which has room for 160 octets, in place of what stood there: what
/// was counted on its tape, and how many sends failed.
#[tactic(auto, unfolding(crate::specs::ServedLine::served_line))]
pub fn write_served(counts: Counts, send_faults: u64, out: &mut Octets)
    requires { 160 ≤ out.old.spare + length out.old.octets }
    ensures { out.new.octets ≡ served_line counts send_faults }
{
    let mut buffer = Buffer::new();
    out.clear();
    out.push_slice(b"served packets ");
    out.push_slice(buffer.format(counts.packets).as_bytes());
    out.push_slice(b" commands ");
    out.push_slice(buffer.format(counts.commands).as_bytes());
    out.push_slice(b" joins ");
    out.push_slice(buffer.format(counts.joins).as_bytes());
    out.push_slice(b" leaves ");
    out.push_slice(buffer.format(counts.leaves).as_bytes());
    out.push_slice(b" send-faults ");
    out.push_slice(buffer.format(send_faults).as_bytes());
    out.push(b'\n');
}
