//! What a place of the history means for the parameters of one channel.

ghost use Rattle.std.specs.Prelude.{◌≡◌};
ghost use Rattle.ch_param.specs.Event.{param_event, takes_param};

use jm_cmds::{D7, Param, ParamCommand, Selection};

/// What a place of the history means for the parameters of one channel.
#[derive(Clone, Copy, PartialEq, Eq, Debug)]
pub enum ParamEvent {
    /// One half of the value of a parameter, that which was selected when it came.
    Entry { param: Param, high: bool, value: D7 },
    /// No value is active any longer.
    Cleared,
    /// Nothing.
    Other,
}

impl ParamEvent {
    /// What this command means where this is selected.
    pub fn of(selection: &Selection, command: ParamCommand) -> ParamEvent
        ensures { result ≡ param_event selection.now command }
    {
        match command {
            ParamCommand::Enter { high, value } => match selection.selected() {
                Some(param) => ParamEvent::Entry { param, high, value },
                None => ParamEvent::Other,
            },
            ParamCommand::Clear => ParamEvent::Cleared,
            _ => ParamEvent::Other,
        }
    }

    /// Whether an earlier entry of this parameter isn't the parameter's latest one, or isn't active, behind
    /// this event.
    pub(crate) fn takes_param(&self, param: &Param) -> bool
        ensures { result ≡ takes_param param.now self.now }
    {
        match self {
            ParamEvent::Entry { param: other, .. } => param.is(other),
            ParamEvent::Cleared => true,
            ParamEvent::Other => false,
        }
    }
}
