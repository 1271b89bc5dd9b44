//! What the program tells of itself.

ghost use Rattle.std.specs.Prelude.{◌≡◌, is_some};
ghost use Rattle.midi_host.specs.About.{is_about_word, is_about};

use super::word::Word;

const HELP: &str = "midi_host: MIDI sessions over packets of which some get lost
usage: midi_host replay|read|repair < INPUT
       midi_host jam SEED COUNT
       midi_host invite ADDR TURNS
       midi_host serve --port P --turns N

replay   a script of one session: its players, what they play, its packets and its participants
read     commands, sections, packets and messages in hexadecimal digits, each line for itself
repair   packets in hexadecimal digits, which go to one receiver, and its state
jam      four players and others share one session, each in a thread of its own; SEED is at most 999999, COUNT from 1 to 4096
invite   calls the host with its control port at ADDR, as 7f000001:5004, for so many turns
serve    is a host on the network, at the port P and the next one, for N rounds; serve --help tells its options

Each line of the input is answered by lines on standard output; the first that is none is answered bad-script.
The lines are told in docs/FORMATS.md, and examples/ has scripts with their answers.
";

const VERSION: &str = "midi_host 0.1.0\n";

// What is told where this is the only word.
fn about_word(word: &[u8]) -> Option<&'static str>
    ensures { is_some result ≡ is_about_word word.now }
{
    if word == b"--help".as_slice() {
        return Some(HELP);
    }
    if word == b"--version".as_slice() {
        return Some(VERSION);
    }
    None
}

/// What is told of the program itself, exactly where the only word asks for it.
pub fn about(words: &[Word]) -> Option<&'static str>
    ensures { is_some result ≡ is_about words.now }
{
    match words {
        [word] => about_word(word.as_bytes()),
        _ => None,
    }
}
