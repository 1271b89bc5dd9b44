//! The state of one channel.

ghost use Rattle.std.specs.Prelude.{◌≡◌};
ghost use Rattle.jm_state.specs.Parts.{no_channel};
ghost use Rattle.jm_state.specs.Apply.{program_with};

use crate::entered::Entered;
use crate::slots::Toggles;
use crate::table::Table;
use jm_cmds::{D7, Selection};

/// A channel's program, with the bank that was set where it was chosen.
#[derive(Clone, Copy, PartialEq, Eq, Debug)]
pub struct ProgramPart {
    pub program: D7,
    /// The values of Controls 0 and 32 (RFC 6295, A.2). Without a Control 0 there is no bank, and a Control 32
    /// that never came counts as 0.
    pub bank: Option<(D7, D7)>,
}

/// The state of one channel.
#[derive(Debug, Drop)]
pub(crate) struct ChannelState {
    pub(crate) program: Option<ProgramPart>,
    /// The values of controls. Of 124 and 125 at most one is there, and of 126 and 127.
    pub(crate) controls: Table,
    /// How often the sustain pedal went up or down.
    pub(crate) toggles: Toggles,
    pub(crate) selection: Option<Selection>,
    pub(crate) entered: Entered,
    pub(crate) wheel: Option<(D7, D7)>,
    /// The velocities of the notes that sound.
    pub(crate) notes: Table,
    pub(crate) pressure: Option<D7>,
    /// The pressures on keys.
    pub(crate) polys: Table,
}

impl ChannelState {
    /// All parts are absent.
    pub(crate) fn new() -> ChannelState
        ensures { result ≡ no_channel }
    {
        ChannelState {
            program: None,
            controls: Table::new(),
            toggles: Toggles::new(),
            selection: None,
            entered: Entered::new(),
            wheel: None,
            notes: Table::new(),
            pressure: None,
            polys: Table::new(),
        }
    }

    /// An equal state.
    pub(crate) fn copy(&self) -> ChannelState
        ensures { result ≡ self.now }
    {
        ChannelState {
            program: self.program,
            controls: self.controls,
            toggles: self.toggles,
            selection: self.selection,
            entered: self.entered.copy(),
            wheel: self.wheel,
            notes: self.notes,
            pressure: self.pressure,
            polys: self.polys,
        }
    }

    /// A program is chosen. It takes the bank that Controls 0 and 32 say.
    pub(crate) fn choose(&mut self, program: D7)
        ensures { self.new ≡ program_with program self.old }
    {
        let bank = match (
            self.controls.get(D7::low(0)),
            self.controls.get(D7::low(32)),
        ) {
            (None, _) => None,
            (Some(high), None) => Some((high, D7::low(0))),
            (Some(high), Some(low)) => Some((high, low)),
        };
        self.program = Some(ProgramPart { program, bank });
    }
}
