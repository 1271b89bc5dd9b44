//! The parameter that is selected in a channel.

ghost use Rattle.std.specs.Prelude.{◌≡◌};
ghost use Rattle.jm_cmds.specs.Selection.{param_command, selection_with, selection_after, no_selection, selected_param};

use crate::commands::Command;
use crate::controls::ControlKind;
use crate::numbers::{Channel, D7};
use crate::param::Param;

/// What a command means for the parameters of one channel.
#[derive(Clone, Copy, PartialEq, Eq, Debug)]
pub enum ParamCommand {
    /// Controls 98 to 101: one half of the number of a parameter, and its kind.
    Select { nrpn: bool, high: bool, value: D7 },
    /// Controls 6 and 38: one half of the selected parameter's value.
    Enter { high: bool, value: D7 },
    /// Control 121: nothing is selected any longer.
    Unselect,
    /// A Reset State command: nothing is selected any longer, and no value is active.
    Clear,
    /// Nothing.
    Pass,
}

/// What this command means for the parameters of this channel.
pub fn param_command(command: &Command, channel: Channel) -> ParamCommand
    ensures { result ≡ param_command channel command.now }
{
    match command {
        Command::Control {
            channel: at,
            number,
            value,
        } if *at == channel => match ControlKind::of(*number) {
            ControlKind::DataEntry { high } => ParamCommand::Enter {
                high,
                value: *value,
            },
            ControlKind::Selection { nrpn, high } => ParamCommand::Select {
                nrpn,
                high,
                value: *value,
            },
            ControlKind::ResetControllers => ParamCommand::Unselect,
            _ => ParamCommand::Pass,
        },
        _ => {
            if command.is_reset() {
                return ParamCommand::Clear;
            }
            ParamCommand::Pass
        }
    }
}

/// The halves of parameter numbers that a channel was last sent, and the kind of the last of them (RFC 6295,
/// A.1 and A.3.4). It is set back by a Reset State command and by Control 121.
#[derive(Clone, Copy, PartialEq, Eq, Debug)]
pub struct Selection {
    /// Whether the last half was of a non-registered parameter.
    pub nrpn: bool,
    /// Control 101.
    pub rpn_high: Option<D7>,
    /// Control 100.
    pub rpn_low: Option<D7>,
    /// Control 99.
    pub nrpn_high: Option<D7>,
    /// Control 98.
    pub nrpn_low: Option<D7>,
}

impl Selection {
    /// No half at all, as a session begins.
    pub fn none() -> Selection
        ensures { result ≡ no_selection }
    {
        Selection {
            nrpn: false,
            rpn_high: None,
            rpn_low: None,
            nrpn_high: None,
            nrpn_low: None,
        }
    }

    /// The selection with one more half.
    fn with_half(self, nrpn: bool, high: bool, value: D7) -> Selection
        ensures { result ≡ selection_with nrpn high value self }
    {
        let half = Some(value);
        match (nrpn, high) {
            (true, true) => Selection {
                nrpn,
                nrpn_high: half,
                ..self
            },
            (true, false) => Selection {
                nrpn,
                nrpn_low: half,
                ..self
            },
            (false, true) => Selection {
                nrpn,
                rpn_high: half,
                ..self
            },
            (false, false) => Selection {
                nrpn,
                rpn_low: half,
                ..self
            },
        }
    }

    /// The selection behind this command.
    pub fn after(self, command: ParamCommand) -> Selection
        ensures { result ≡ selection_after self command }
    {
        match command {
            ParamCommand::Select { nrpn, high, value } => self.with_half(nrpn, high, value),
            ParamCommand::Unselect | ParamCommand::Clear => Selection::none(),
            ParamCommand::Enter { .. } | ParamCommand::Pass => self,
        }
    }

    /// The parameter that is selected.
    pub fn selected(&self) -> Option<Param>
        ensures { result ≡ selected_param self.now }
    {
        if self.nrpn {
            return Param::of(true, self.nrpn_high, self.nrpn_low);
        }
        Param::of(false, self.rpn_high, self.rpn_low)
    }
}
