//! Which of the program's top calls the words are for.

ghost use Rattle.std.specs.Prelude.{◌≡◌};
ghost use Rattle.midi_host.specs.VerbChoice.{verb_for};

use super::verb_kind::Verb;
use super::word::Word;

/// The top call that the first word names.
pub fn verb(words: &[Word]) -> Verb
    ensures { result ≡ verb_for words.now }
{
    match words {
        [first, ..] if first.as_bytes() == b"invite".as_slice() => Verb::Invite,
        [first, ..] if first.as_bytes() == b"jam".as_slice() => Verb::Jam,
        [first, ..] if first.as_bytes() == b"serve".as_slice() => Verb::Serve,
        _ => Verb::Plain,
    }
}
