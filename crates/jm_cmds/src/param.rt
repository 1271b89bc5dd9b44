//! Parameters.

ghost use Rattle.std.specs.Prelude.{◌≡◌};
ghost use Rattle.jm_cmds.specs.Param.{param_of, same_param};

use crate::numbers::D7;

/// A parameter: whether it is a non-registered one (NRPN), and the high and the low seven bits of its number.
#[derive(Clone, Copy, PartialEq, Eq, Debug)]
pub struct Param {
    pub nrpn: bool,
    pub high: D7,
    pub low: D7,
}

impl Param {
    /// The parameter with these halves of its number. None where both are 127, which is the null parameter (RFC 6295, A.1
    /// and A.3.4), and none where one of them is missing, which is this project's own rule.
    pub fn of(nrpn: bool, high: Option<D7>, low: Option<D7>) -> Option<Param>
        ensures { result ≡ param_of nrpn high low }
    {
        match (high, low) {
            (Some(high), Some(low)) => {
                if high.get() == 127 && low.get() == 127 {
                    return None;
                }
                Some(Param { nrpn, high, low })
            }
            _ => None,
        }
    }

    /// Whether this is the same parameter.
    pub fn is(&self, other: &Param) -> bool
        ensures { result ≡ same_param self.now other.now }
    {
        self.nrpn == other.nrpn && self.high == other.high && self.low == other.low
    }
}
