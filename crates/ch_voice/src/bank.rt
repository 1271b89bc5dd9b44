//! The bank of a channel.

ghost use Rattle.std.specs.Prelude.{◌≡◌};
ghost use Rattle.ch_voice.specs.Bank.{no_bank, bank_after, high_octet, low_octet};

use crate::events::ProgramEvent;
use jm_cmds::D7;

/// The bank that the commands since the last Reset State command left (RFC 6295, A.2). That a Control 32
/// counts which stands before the Control 0 is this project's own.
#[derive(Debug, Drop)]
pub struct Bank {
    /// The last Control 0: BANK-MSB.
    pub high: Option<D7>,
    /// The last Control 32: BANK-LSB.
    pub low: Option<D7>,
    /// Whether a Control 121 came after that Control 0: X.
    pub set_back: bool,
}

impl Bank {
    /// No bank was told.
    pub(crate) fn none() -> Bank
        ensures { result ≡ no_bank }
    {
        Bank {
            high: None,
            low: None,
            set_back: false,
        }
    }

    /// Takes one more event.
    pub(crate) fn add(&mut self, event: &ProgramEvent)
        ensures { self.new ≡ bank_after self.old event.now }
    {
        match event {
            ProgramEvent::BankHigh { value } => {
                self.high = Some(*value);
                self.set_back = false;
            }
            ProgramEvent::BankLow { value } => self.low = Some(*value),
            ProgramEvent::SetBack => self.set_back = true,
            ProgramEvent::Reset => *self = Bank::none(),
            ProgramEvent::Chosen { .. } | ProgramEvent::Other => {}
        }
    }

    /// B BANK-MSB: 1 and the high half, or 0 where there is none.
    pub(crate) fn high_octet(&self) -> u8
        ensures { result ≡ high_octet self.now }
    {
        match self.high {
            None => 0,
            Some(high) => 128 + high.get(),
        }
    }

    /// X BANK-LSB: whether Control 121 came after the high half, and the low half, which is 0 where there
    /// is none. Without a high half all of it is 0.
    pub(crate) fn low_octet(&self) -> u8
        ensures { result ≡ low_octet self.now }
    {
        if self.high.is_none() {
            return 0;
        }
        let low = match self.low {
            None => 0,
            Some(low) => low.get(),
        };
        if self.set_back { 128 + low } else { low }
    }
}
