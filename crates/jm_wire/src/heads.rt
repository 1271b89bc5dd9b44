//! The bit headers of a recovery journal (RFC 6295, section 5 and Appendices A.4, A.6, B.3 and B.4): each is a
//! struct with a field for each field of its figure, which `pack` turns into octets and `unpack` reads.

ghost use Rattle.std.specs.Prelude.{◌≡◌, ◌≤◌, ◌<◌};
ghost use Rattle.jm_wire.specs.Heads.{bit, FitsJournal, FitsSystem, FitsChannel, FitsParam, FitsNote, FitsSeq, FitsTime, journal_octets, system_octets, channel_octets, param_octets, note_octets, seq_octets, time_octets, journal_fields, system_fields, channel_fields, param_fields, note_fields, seq_fields, time_fields};

/// Bits of an octet: flags at their weights beside a number that has the other bits, or the flag at a weight.
macro_rules! bits {
    (pack $($flag:expr => $weight:expr),+; $number:expr) => {
        $number $(+ $weight * bit($flag))+
    };
    (flag $octet:expr => $weight:expr) => {
        $octet / $weight % 2 == 1
    };
}

/// A flag as a bit.
fn bit(flag: bool) -> u8
    ensures value { result ≡ bit flag }
    ensures bound { result ≤ 1 }
{
    if flag { 1 } else { 0 }
}

/// The header of a recovery journal (RFC 6295, section 5, Figure 8).
#[derive(Clone, Copy, PartialEq, Eq, Debug)]
pub struct JournalHead {
    /// No log inside is of the packet before.
    pub s: bool,
    /// A system journal is there.
    pub y: bool,
    /// Channel journals are there.
    pub a: bool,
    /// A channel journal has an enhanced Chapter C.
    pub h: bool,
    /// The number of channel journals minus 1, 0 to 15.
    pub totchan: u8,
    /// The low 16 bits of the checkpoint packet's number.
    pub checkpoint: u16,
}

impl JournalHead {
    /// The header's octets. TOTCHAN is at most 15.
    pub fn pack(&self) -> [u8; 3]
        requires { FitsJournal self.now }
        ensures { result ≡ journal_octets self.now }
    {
        [
            bits!(pack self.s => 128, self.y => 64, self.a => 32, self.h => 16; self.totchan),
            (self.checkpoint / 256) as u8,
            (self.checkpoint % 256) as u8,
        ]
    }

    /// The header with these octets.
    pub fn unpack(b: [u8; 3]) -> JournalHead
        ensures fields { result ≡ journal_fields b }
        ensures fits { FitsJournal result }
    {
        JournalHead {
            s: bits!(flag b[0] => 128),
            y: bits!(flag b[0] => 64),
            a: bits!(flag b[0] => 32),
            h: bits!(flag b[0] => 16),
            totchan: b[0] % 16,
            checkpoint: u16::from(b[1]) * 256 + u16::from(b[2]),
        }
    }
}

/// The header of a system journal (RFC 6295, section 5, Figure 10).
#[derive(Clone, Copy, PartialEq, Eq, Debug)]
pub struct SystemHead {
    /// No log inside is of the packet before.
    pub s: bool,
    /// Chapter D is there.
    pub d: bool,
    /// Chapter V is there.
    pub v: bool,
    /// Chapter Q is there.
    pub q: bool,
    /// Chapter F is there.
    pub f: bool,
    /// Chapter X is there.
    pub x: bool,
    /// The octets of the system journal, 0 to 1,023, this header's two with them.
    pub length: u16,
}

impl SystemHead {
    /// The header's octets. LENGTH is at most 1,023.
    pub fn pack(&self) -> [u8; 2]
        requires { FitsSystem self.now }
        ensures { result ≡ system_octets self.now }
    {
        [
            bits!(pack self.s => 128, self.d => 64, self.v => 32, self.q => 16, self.f => 8, self.x => 4;
                (self.length / 256) as u8),
            (self.length % 256) as u8,
        ]
    }

    /// The header with these octets.
    pub fn unpack(b: [u8; 2]) -> SystemHead
        ensures fields { result ≡ system_fields b }
        ensures fits { FitsSystem result }
    {
        SystemHead {
            s: bits!(flag b[0] => 128),
            d: bits!(flag b[0] => 64),
            v: bits!(flag b[0] => 32),
            q: bits!(flag b[0] => 16),
            f: bits!(flag b[0] => 8),
            x: bits!(flag b[0] => 4),
            length: u16::from(b[0] % 4) * 256 + u16::from(b[1]),
        }
    }
}

/// The header of a channel journal (RFC 6295, section 5, Figure 9).
#[derive(Clone, Copy, PartialEq, Eq, Debug)]
pub struct ChannelHead {
    /// No log inside is of the packet before.
    pub s: bool,
    /// The channel, 0 to 15.
    pub chan: u8,
    /// Chapter C is an enhanced one.
    pub h: bool,
    /// The octets of the channel journal, 0 to 1,023, this header's three with them.
    pub length: u16,
    /// Chapter P is there.
    pub p: bool,
    /// Chapter C is there.
    pub c: bool,
    /// Chapter M is there.
    pub m: bool,
    /// Chapter W is there.
    pub w: bool,
    /// Chapter N is there.
    pub n: bool,
    /// Chapter E is there.
    pub e: bool,
    /// Chapter T is there.
    pub t: bool,
    /// Chapter A is there.
    pub a: bool,
}

impl ChannelHead {
    /// The header's octets. CHAN is at most 15, LENGTH at most 1,023.
    pub fn pack(&self) -> [u8; 3]
        requires { FitsChannel self.now }
        ensures { result ≡ channel_octets self.now }
    {
        [
            bits!(pack self.s => 128, self.h => 4; 8 * self.chan + (self.length / 256) as u8),
            (self.length % 256) as u8,
            bits!(pack self.p => 128, self.c => 64, self.m => 32, self.w => 16, self.n => 8, self.e => 4,
                self.t => 2, self.a => 1; 0),
        ]
    }

    /// The header with these octets.
    pub fn unpack(b: [u8; 3]) -> ChannelHead
        ensures fields { result ≡ channel_fields b }
        ensures fits { FitsChannel result }
    {
        ChannelHead {
            s: bits!(flag b[0] => 128),
            chan: b[0] / 8 % 16,
            h: bits!(flag b[0] => 4),
            length: u16::from(b[0] % 4) * 256 + u16::from(b[1]),
            p: bits!(flag b[2] => 128),
            c: bits!(flag b[2] => 64),
            m: bits!(flag b[2] => 32),
            w: bits!(flag b[2] => 16),
            n: bits!(flag b[2] => 8),
            e: bits!(flag b[2] => 4),
            t: bits!(flag b[2] => 2),
            a: bits!(flag b[2] => 1),
        }
    }
}

/// The header of Chapter M (RFC 6295, A.4, Figure A.4.1).
#[derive(Clone, Copy, PartialEq, Eq, Debug)]
pub struct ParamHead {
    /// No log inside is of the packet before.
    pub s: bool,
    /// A PENDING field is there: the number of a parameter of which only a half was selected.
    pub p: bool,
    /// A transaction is open behind the last log.
    pub e: bool,
    /// The parameters are all registered ones.
    pub u: bool,
    /// The parameters are all non-registered ones.
    pub w: bool,
    /// The high octet of each parameter's number is left out.
    pub z: bool,
    /// The octets of the whole chapter, 0 to 1,023, this header's two with them.
    pub length: u16,
}

impl ParamHead {
    /// The header's octets. LENGTH is at most 1,023.
    pub fn pack(&self) -> [u8; 2]
        requires { FitsParam self.now }
        ensures { result ≡ param_octets self.now }
    {
        [
            bits!(pack self.s => 128, self.p => 64, self.e => 32, self.u => 16, self.w => 8, self.z => 4;
                (self.length / 256) as u8),
            (self.length % 256) as u8,
        ]
    }

    /// The header with these octets.
    pub fn unpack(b: [u8; 2]) -> ParamHead
        ensures fields { result ≡ param_fields b }
        ensures fits { FitsParam result }
    {
        ParamHead {
            s: bits!(flag b[0] => 128),
            p: bits!(flag b[0] => 64),
            e: bits!(flag b[0] => 32),
            u: bits!(flag b[0] => 16),
            w: bits!(flag b[0] => 8),
            z: bits!(flag b[0] => 4),
            length: u16::from(b[0] % 4) * 256 + u16::from(b[1]),
        }
    }
}

/// The header of Chapter N (RFC 6295, A.6.1, Figure A.6.2).
#[derive(Clone, Copy, PartialEq, Eq, Debug)]
pub struct NoteHead {
    /// No released note is of the packet before.
    pub b: bool,
    /// The number of note logs, 0 to 127. 127 stands for 128 where LOW is 15 and HIGH is 0.
    pub len: u8,
    /// The first octet of release bits, 0 to 15.
    pub low: u8,
    /// The last octet of release bits, 0 to 15.
    pub high: u8,
}

impl NoteHead {
    /// The header's octets. LEN is at most 127, LOW and HIGH are at most 15.
    pub fn pack(&self) -> [u8; 2]
        requires { FitsNote self.now }
        ensures { result ≡ note_octets self.now }
    {
        [
            bits!(pack self.b => 128; self.len),
            16 * self.low + self.high,
        ]
    }

    /// The header with these octets.
    pub fn unpack(b: [u8; 2]) -> NoteHead
        ensures fields { result ≡ note_fields b }
        ensures fits { FitsNote result }
    {
        NoteHead {
            b: bits!(flag b[0] => 128),
            len: b[0] % 128,
            low: b[1] / 16,
            high: b[1] % 16,
        }
    }
}

/// The first octet of Chapter Q (RFC 6295, B.3.1, Figure B.3.1).
#[derive(Clone, Copy, PartialEq, Eq, Debug)]
pub struct SeqHead {
    /// The chapter isn't of the packet before.
    pub s: bool,
    /// The sequencer is running.
    pub n: bool,
    /// A clock has been heard since it began to run.
    pub d: bool,
    /// A position is there.
    pub c: bool,
    /// A time field is there.
    pub t: bool,
    /// The high three bits of the position, 0 to 7.
    pub top: u8,
}

impl SeqHead {
    /// The octet. TOP is at most 7.
    pub fn pack(&self) -> [u8; 1]
        requires { FitsSeq self.now }
        ensures { result ≡ seq_octets self.now }
    {
        [bits!(pack self.s => 128, self.n => 64, self.d => 32, self.c => 16, self.t => 8; self.top)]
    }

    /// The fields of this octet.
    pub fn unpack(b: [u8; 1]) -> SeqHead
        ensures fields { result ≡ seq_fields b }
        ensures fits { FitsSeq result }
    {
        SeqHead {
            s: bits!(flag b[0] => 128),
            n: bits!(flag b[0] => 64),
            d: bits!(flag b[0] => 32),
            c: bits!(flag b[0] => 16),
            t: bits!(flag b[0] => 8),
            top: b[0] % 8,
        }
    }
}

/// The first octet of Chapter F (RFC 6295, B.4, Figure B.4.1).
#[derive(Clone, Copy, PartialEq, Eq, Debug)]
pub struct TimeHead {
    /// The chapter isn't of the packet before.
    pub s: bool,
    /// A complete time code is there.
    pub c: bool,
    /// A partial time code is there.
    pub p: bool,
    /// The complete time code came by quarter frames.
    pub q: bool,
    /// The time code runs backward.
    pub d: bool,
    /// The type of the last quarter frame, 0 to 7.
    pub point: u8,
}

impl TimeHead {
    /// The octet. POINT is at most 7.
    pub fn pack(&self) -> [u8; 1]
        requires { FitsTime self.now }
        ensures { result ≡ time_octets self.now }
    {
        [
            bits!(pack self.s => 128, self.c => 64, self.p => 32, self.q => 16, self.d => 8; self.point),
        ]
    }

    /// The fields of this octet.
    pub fn unpack(b: [u8; 1]) -> TimeHead
        ensures fields { result ≡ time_fields b }
        ensures fits { FitsTime result }
    {
        TimeHead {
            s: bits!(flag b[0] => 128),
            c: bits!(flag b[0] => 64),
            p: bits!(flag b[0] => 32),
            q: bits!(flag b[0] => 16),
            d: bits!(flag b[0] => 8),
            point: b[0] % 8,
        }
    }
}
