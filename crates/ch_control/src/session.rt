//! What the logs of controllers tell of the whole session.

ghost use Rattle.std.specs.Prelude.{◌≡◌};
ghost use Rattle.jm_cmds.specs.Pedal.{pedal_step};
ghost use Rattle.jm_cmds.specs.Control.{is_counted};
ghost use Rattle.jm_chapter.specs.Logs.{logs_in};
ghost use Rattle.ch_control.specs.declared.events.ControlEvent.TheVariants.{Set};
ghost use Rattle.ch_control.specs.Counts.{no_session, IsSession};
ghost use Rattle.ch_control.specs.ControlTable.{field_of, logs_of};

use crate::counts::Counts;
use jm_chapter::{Log, PlaceLogs};
use jm_cmds::{D7, Pedal, is_counted};

/// What the logs of controllers tell of the whole session, whatever the checkpoint is.
#[derive(Clone, Copy, Debug)]
pub(crate) struct Session {
    pub(crate) counts: Counts,
    pub(crate) pedal: Pedal,
}

impl Session {
    /// That of no command.
    pub(crate) fn none() -> Session
        ensures state { result ≡ no_session }
        ensures bounds { IsSession result }
    {
        Session {
            counts: Counts::none(),
            pedal: Pedal::none(),
        }
    }

    /// The second octet of a controller's log.
    fn field(&self, number: D7, value: D7) -> u8
        requires { IsSession self.now }
        ensures { result ≡ field_of self.now.counts number value }
    {
        if is_counted(number) {
            return 192 + self.counts.of(number);
        }
        value.get()
    }

    /// The logs of a controller with this value.
    pub(crate) fn logs(&self, number: D7, value: D7) -> PlaceLogs
        requires { IsSession self.now }
        ensures { logs_in result ≡ logs_of self.now.counts self.now.pedal.toggles (Set number value) }
    {
        let field = self.field(number, value);
        let log = Log { number, field };
        if number.get() == 64 {
            let field = 128 + self.pedal.toggles;
            return PlaceLogs::Two(log, Log { number, field });
        }
        PlaceLogs::One(log)
    }
}
