//! The controls of a channel, and what each does to its state.

ghost use Rattle.std.specs.Prelude.{◌≡◌};
ghost use Rattle.jm_cmds.specs.Control.{control_kind};
ghost use Rattle.jm_cmds.specs.Pedal.{IsPedal};
ghost use Rattle.jm_state.specs.Parts.{control_at, control_put, pair_of, is_down, pedal_at};
ghost use Rattle.jm_state.specs.Apply.{controls_left, silenced, controllers_reset, pedal_moved, half_entered, half_selected, controlled};

use crate::channel::ChannelState;
use crate::slots::Toggles;
use crate::table::Table;
use jm_cmds::{ControlKind, D7, ParamCommand, Pedal, PedalEvent, Selection, pedal_step};

/// The other of two modes that are one part: 124 and 125, and 126 and 127 (RFC 6295, A.3.1).
fn pair_of(mode: D7) -> D7
    ensures { result ≡ pair_of mode }
{
    D7::low(match mode.get() {
        124 => 125,
        125 => 124,
        126 => 127,
        _ => 126,
    })
}

/// What Control 121 leaves of the controls.
#[tactic(auto, unfolding(crate::specs::Apply::controls_left))]
fn controls_left(controls: &Table) -> Table
    ensures { result ≡ controls_left controls.now }
{
    let mut left = Table::new();
    left.keep(controls, D7::low(0));
    left.keep(controls, D7::low(32));
    left.keep(controls, D7::low(122));
    left.keep(controls, D7::low(124));
    left.keep(controls, D7::low(125));
    left.keep(controls, D7::low(126));
    left.keep(controls, D7::low(127));
    left
}

/// Whether the sustain pedal is down where Control 64 has this value.
fn is_down(pedal: Option<D7>) -> bool
    ensures { result ≡ is_down pedal }
{
    match pedal {
        None => false,
        Some(value) => value.get() >= 64,
    }
}

impl ChannelState {
    /// The value of this control: `None` of a number that has no part.
    pub(crate) fn control(&self, number: D7) -> Option<D7>
        ensures { result ≡ control_at self.now number }
    {
        match ControlKind::of(number) {
            ControlKind::Mode { .. }
            | ControlKind::Kept { .. }
            | ControlKind::Pedal
            | ControlKind::Plain { .. } => self.controls.get(number),
            _ => None,
        }
    }

    /// Sets a control. One of two modes that are one part takes the place of the other, and `None` for either makes
    /// both absent. A number that has no part changes nothing.
    pub(crate) fn set_control(&mut self, number: D7, value: Option<D7>)
        ensures { self.new ≡ control_put number value self.old }
    {
        match ControlKind::of(number) {
            ControlKind::Mode { .. } => {
                self.controls.set(pair_of(number), None);
                self.controls.set(number, value);
            }
            ControlKind::Kept { .. } | ControlKind::Pedal | ControlKind::Plain { .. } => {
                self.controls.set(number, value);
            }
            _ => {}
        }
    }

    /// All notes end, and with them the pressure.
    fn silence(&mut self)
        ensures { self.new ≡ silenced self.old }
    {
        self.notes = Table::new();
        self.pressure = None;
    }

    /// Control 121.
    fn reset_controllers(&mut self)
        ensures { self.new ≡ controllers_reset self.old }
    {
        self.controls = controls_left(&self.controls);
        self.toggles = Toggles::new();
        self.selection = None;
        self.wheel = None;
        self.pressure = None;
        self.polys = Table::new();
    }

    /// The sustain pedal: down where Control 64 is there with a value of 64 to 127.
    fn pedal(&self) -> Pedal
        ensures pedal { result ≡ pedal_at self.now }
        ensures bound { IsPedal result }
    {
        Pedal {
            on: is_down(self.control(D7::low(64))),
            toggles: self.toggles.get(),
        }
    }

    /// Control 64 moves the pedal: the toggles count where it goes up or down.
    fn move_pedal(&mut self, value: D7)
        ensures { self.new ≡ pedal_moved value self.old }
    {
        let moved = PedalEvent::Moved {
            on: value.get() >= 64,
        };
        let pedal = pedal_step(self.pedal(), moved);
        self.toggles.set(pedal.toggles);
    }

    /// Controls 6 and 38.
    fn enter(&mut self, high: bool, value: D7)
        ensures { self.new ≡ half_entered high value self.old }
    {
        if let Some(selection) = self.selection {
            if let Some(param) = selection.selected() {
                self.entered.set_half(high, &param, Some(value));
            }
        }
    }

    /// Controls 98 to 101.
    fn select(&mut self, nrpn: bool, high: bool, value: D7)
        ensures { self.new ≡ half_selected nrpn high value self.old }
    {
        let from = match self.selection {
            None => Selection::none(),
            Some(selection) => selection,
        };
        self.selection = Some(from.after(ParamCommand::Select { nrpn, high, value }));
    }

    /// A controller takes a value.
    pub(crate) fn take_control(&mut self, number: D7, value: D7)
        ensures { self.new ≡ controlled number value self.old }
    {
        match ControlKind::of(number) {
            ControlKind::DataEntry { high } => self.enter(high, value),
            ControlKind::Selection { nrpn, high } => self.select(nrpn, high, value),
            ControlKind::Increment { .. } => {}
            ControlKind::Silence { .. } => self.silence(),
            ControlKind::ResetControllers => self.reset_controllers(),
            ControlKind::Mode { .. } => {
                self.silence();
                self.set_control(number, Some(value));
            }
            ControlKind::Pedal => {
                self.move_pedal(value);
                self.set_control(number, Some(value));
            }
            ControlKind::Kept { .. } | ControlKind::Plain { .. } => {
                self.set_control(number, Some(value));
            }
        }
    }
}
