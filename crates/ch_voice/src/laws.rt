//! What holds of the definitions that this crate's contracts cite. Each law is the contract of a
//! function that does nothing.

ghost use Rattle.ch_voice.specs.ChapterP.{chapter_p, fresh_p};
ghost use Rattle.ch_voice.specs.ChapterW.{chapter_w, fresh_w};
ghost use Rattle.ch_voice.specs.ChapterT.{chapter_t, fresh_t};
ghost use Rattle.ch_voice.specs.BankTold.{BankTold};
ghost use Rattle.ch_voice.specs.Fresh.{FreshShows};
ghost use Rattle.ch_voice.specs.InOrder.{CodedInOrder};

/// A chapter is fresh exactly where it is there and its S bit is 0.
pub fn fresh_shows()
    ensures program { FreshShows chapter_p fresh_p }
    ensures wheel { FreshShows chapter_w fresh_w }
    ensures pressure { FreshShows chapter_t fresh_t }
{}

/// The bank of a program is told by the controllers that stand before it since the last reset.
pub fn bank_told()
    ensures { BankTold }
{}

/// What Chapter P codes stands oldest first and is of distinct items.
pub fn coded_in_order()
    ensures { CodedInOrder }
{}
