//! Logs of two octets.

ghost use Rattle.std.specs.Prelude.{◌≡◌, ◌≤◌, length};
ghost use Rattle.jm_wire.specs.Octets.{Appends};
ghost use Rattle.jm_chapter.specs.Logs.{log_text, logs_text, logs_in, has_log};

use jm_cmds::D7;
use jm_wire::Octets;

/// A log: the number of a note or a controller, and the octet behind it.
#[derive(Clone, Copy, PartialEq, Eq, Debug)]
pub struct Log {
    pub number: D7,
    pub field: u8,
}

impl Log {
    /// Appends the log, with this S bit as the high bit of its first octet.
    fn write(&self, s: u8, out: &mut Octets)
        requires s_fits { s ≤ 128 }
        requires spare { 2 ≤ out.old.spare }
        ensures { Appends out.old out.new (log_text s self.now) }
    {
        out.push(s + self.number.get());
        out.push(self.field);
    }
}

/// The logs of one place of a history, in their order.
#[derive(Clone, Copy, PartialEq, Eq, Debug)]
pub enum PlaceLogs {
    Empty,
    One(Log),
    Two(Log, Log),
}

impl PlaceLogs {
    /// How many there are.
    pub fn len(&self) -> usize
        ensures number { result ≡ length (logs_in self.now) }
        ensures few { result ≤ 2 }
    {
        match self {
            PlaceLogs::Empty => 0,
            PlaceLogs::One(_) => 1,
            PlaceLogs::Two(_, _) => 2,
        }
    }

    /// Whether there is one.
    pub fn has_log(&self) -> bool
        ensures { result ≡ has_log (logs_in self.now) }
    {
        !matches!(self, PlaceLogs::Empty)
    }

    /// Appends them, each with this S bit as the high bit of its first octet.
    pub fn write(&self, s: u8, out: &mut Octets)
        requires s_fits { s ≤ 128 }
        requires spare { length (logs_text s (logs_in self.now)) ≤ out.old.spare }
        ensures { Appends out.old out.new (logs_text s (logs_in self.now)) }
    {
        match self {
            PlaceLogs::Empty => {}
            PlaceLogs::One(log) => log.write(s, out),
            PlaceLogs::Two(first, second) => {
                first.write(s, out);
                second.write(s, out);
            }
        }
    }
}
