//! Whether two states are the same.

ghost use Rattle.std.specs.Prelude.{◌≡◌, IsTrue, ℕ, ◌<◌};
ghost use Rattle.jm_cmds.specs.declared.param.Param.{Param};
ghost use Rattle.jm_state.specs.Table.{value_at};
ghost use Rattle.jm_state.specs.Entered.{halves_in};
ghost use Rattle.jm_state.specs.Parts.{control_at, nth_channel};
ghost use Rattle.jm_state.specs.Same.{SameChannel, AreSame};
ghost use Rattle.jm_state.specs.Sameness.{same_states};

use crate::channel::{ChannelState, ProgramPart};
use crate::entered::Entered;
use crate::state::State;
use crate::table::Table;
use jm_cmds::{D7, Selection};

/// Whether both are absent, or have the same value.
fn same_value(a: Option<D7>, b: Option<D7>) -> bool
    ensures holds { IsTrue result → a ≡ b }
    ensures else_not { a ≡ b → IsTrue result }
{
    match (a, b) {
        (None, None) => true,
        (Some(a), Some(b)) => a == b,
        _ => false,
    }
}

/// Whether each number has the same value in both tables.
fn same_values(a: &Table, b: &Table) -> bool
    ensures holds { IsTrue result → (number : ℕ) → number < 128 → value_at a.now number ≡ value_at b.now number }
    ensures else_not { ((number : ℕ) → number < 128 → value_at a.now number ≡ value_at b.now number) → IsTrue result }
{
    for number in 0..128u8 {
        let number = D7::low(number);
        if !same_value(a.get(number), b.get(number)) {
            return false;
        }
    }
    true
}

/// Whether each parameter has the same halves in both, whatever their order.
#[tactic(auto, using(crate::specs::EnteredLaws::entered_equal, crate::specs::EnteredLaws::equal_entered))]
fn same_entered(a: &Entered, b: &Entered) -> bool
    ensures holds { IsTrue result → (p : Param) → halves_in a.now p ≡ halves_in b.now p }
    ensures else_not { ((p : Param) → halves_in a.now p ≡ halves_in b.now p) → IsTrue result }
{
    a.same(b)
}

/// Whether a control has the same value in both channels.
fn same_control(a: &ChannelState, b: &ChannelState, number: D7) -> bool
    ensures holds { IsTrue result → control_at a.now number ≡ control_at b.now number }
    ensures else_not { control_at a.now number ≡ control_at b.now number → IsTrue result }
{
    same_value(a.control(number), b.control(number))
}

/// Whether each control has the same value in both channels.
fn same_controls(a: &ChannelState, b: &ChannelState) -> bool
    ensures holds { IsTrue result → (number : ℕ) → number < 128 → control_at a.now number ≡ control_at b.now number }
    ensures else_not { ((number : ℕ) → number < 128 → control_at a.now number ≡ control_at b.now number) → IsTrue result }
{
    for number in 0..128u8 {
        if !same_control(a, b, D7::low(number)) {
            return false;
        }
    }
    true
}

/// Whether the same halves are there, with the same values, and the same kind was set last.
#[tactic(auto, using(crate::specs::Same::selection_equal))]
fn same_halves(a: Selection, b: Selection) -> bool
    ensures holds { IsTrue result → a ≡ b }
    ensures else_not { a ≡ b → IsTrue result }
{
    if a.nrpn != b.nrpn {
        return false;
    }
    same_value(a.rpn_high, b.rpn_high)
        && same_value(a.rpn_low, b.rpn_low)
        && same_value(a.nrpn_high, b.nrpn_high)
        && same_value(a.nrpn_low, b.nrpn_low)
}

/// Whether both channels have the same selection, or none.
fn same_selection(a: Option<Selection>, b: Option<Selection>) -> bool
    ensures holds { IsTrue result → a ≡ b }
    ensures else_not { a ≡ b → IsTrue result }
{
    match (a, b) {
        (None, None) => true,
        (Some(a), Some(b)) => same_halves(a, b),
        _ => false,
    }
}

/// Whether both channels have the same program, or none.
fn same_program(a: Option<ProgramPart>, b: Option<ProgramPart>) -> bool
    ensures holds { IsTrue result → a ≡ b }
    ensures else_not { a ≡ b → IsTrue result }
{
    a == b
}

/// Whether the wheels, the pressures on the channels and the toggles are equal.
fn same_moved(a: &ChannelState, b: &ChannelState) -> bool
    ensures holds { IsTrue result → (a.now.wheel ≡ b.now.wheel) × (a.now.pressure ≡ b.now.pressure) × (a.now.toggles ≡ b.now.toggles) }
    ensures else_not { a.now.wheel ≡ b.now.wheel → a.now.pressure ≡ b.now.pressure → a.now.toggles ≡ b.now.toggles → IsTrue result }
{
    a.wheel == b.wheel && a.pressure == b.pressure && a.toggles.get() == b.toggles.get()
}

/// Whether all parts of two channels are equal.
fn same_channel(a: &ChannelState, b: &ChannelState) -> bool
    ensures holds { IsTrue result → SameChannel a.now b.now }
    ensures else_not { SameChannel a.now b.now → IsTrue result }
{
    same_program(a.program, b.program)
        && same_selection(a.selection, b.selection)
        && same_moved(a, b)
        && same_controls(a, b)
        && same_entered(&a.entered, &b.entered)
        && same_values(&a.notes, &b.notes)
        && same_values(&a.polys, &b.polys)
}

/// Whether all parts of each of the channels are equal.
fn same_channels(a: &[ChannelState; 16], b: &[ChannelState; 16]) -> bool
    ensures holds { IsTrue result → (channel : ℕ) → channel < 16 → SameChannel (nth_channel a.now channel) (nth_channel b.now channel) }
    ensures else_not { ((channel : ℕ) → channel < 16 → SameChannel (nth_channel a.now channel) (nth_channel b.now channel)) → IsTrue result }
{
    for i in 0..16usize {
        if !same_channel(&a[i], &b[i]) {
            return false;
        }
    }
    true
}

impl State {
    /// Whether the parts that the whole session has are equal.
    fn same_session(&self, other: &State) -> bool
        ensures holds { IsTrue result → (self.now.song ≡ other.now.song) × (self.now.sequencer ≡ other.now.sequencer) × (self.now.time_code ≡ other.now.time_code) × (self.now.sysex_count ≡ other.now.sysex_count) }
        ensures else_not { self.now.song ≡ other.now.song → self.now.sequencer ≡ other.now.sequencer → self.now.time_code ≡ other.now.time_code → self.now.sysex_count ≡ other.now.sysex_count → IsTrue result }
    {
        self.song == other.song
            && self.sequencer.get() == other.sequencer.get()
            && self.time_code.get() == other.time_code.get()
            && self.sysex_count == other.sysex_count
    }

    /// Whether all parts are equal.
    fn are_same(&self, other: &State) -> bool
        ensures holds { IsTrue result → AreSame self.now other.now }
        ensures else_not { AreSame self.now other.now → IsTrue result }
    {
        self.same_session(other) && same_channels(&self.channels, &other.channels)
    }

    /// Whether all parts are equal. The order in which parameters were entered doesn't count.
    pub fn same(&self, other: &State) -> bool
        ensures holds { IsTrue result → AreSame self.now other.now }
        ensures else_not { AreSame self.now other.now → IsTrue result }
        ensures test { result ≡ same_states self.now other.now }
    {
        let same = self.are_same(other);
        same
    }
}
