// How a run ends.
ghost use Rattle.std.specs.Prelude.{◌≡◌};
ghost use Rattle.midi_host.specs.Number.{status_number};

/// How a run of the program ends. Its number is the status of the process.
#[derive(Clone, Copy, Debug, PartialEq, Eq)]
pub enum Status {
    /// The input was read to its end, and the whole text of answers was written.
    Done = 0,
    /// The words aren't those of a verb.
    Usage = 2,
    /// A line is outside the grammar. The answers before it and then `bad-script LINE CAUSE` were written.
    BadScript = 3,
    /// A read failed. The answers of all lines wholly read before were written.
    ReadFault = 4,
    /// A write failed. A front of the text was written.
    WriteFault = 5,
    /// There was no memory. A front of the text was written.
    NoMemory = 6,
    /// A receive failed.
    PortFault = 8,
    /// The tape of a served session came to have as many steps as it takes.
    RecordFull = 9,
}

impl Status {
    /// The number with which the process ends.
    pub fn number(self) -> u8
        ensures { result ≡ status_number self }
    {
        self as u8
    }
}
