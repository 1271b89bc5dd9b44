//! The words of `jam`.

ghost use Rattle.std.specs.Prelude.{◌≡◌, ◌≤◌, IfSome};
ghost use Rattle.midi_host.specs.JamWords.{seed_of, count_of, jam_of};

use super::word::Word;
use jm_jam::GREATEST_SEED;
use jm_script::number;

/// The most steps that each worker of a jam makes.
const MOST_STEPS: u64 = 4096;

/// What the words of `jam` ask for.
#[derive(Clone, Copy, Debug, PartialEq, Eq)]
pub struct JamWords {
    /// What the players' commands are made from, at most 999,999.
    pub seed: u32,
    /// How many steps each worker makes, from 1 to 4,096.
    pub count: u32,
}

// The seed that a word writes.
fn seed(word: &[u8]) -> Option<u32>
    ensures value { result ≡ seed_of word.now }
    ensures bound { IfSome result (λ seed. seed ≤ 999999) }
{
    let Some(seed) = number(word, u64::from(GREATEST_SEED)) else {
        return None;
    };
    Some(seed as u32)
}

// The count of steps that a word writes.
fn count(word: &[u8]) -> Option<u32>
    ensures { result ≡ count_of word.now }
{
    let Some(count) = number(word, MOST_STEPS) else {
        return None;
    };
    if count > 0 { Some(count as u32) } else { None }
}

/// What the words of `jam` ask for: `jam SEED COUNT`, with a number of at most 999,999 and one from 1 to 4,096. `None` exactly
/// where the words aren't these.
#[tactic(auto, unfolding(crate::specs::JamWords::jam_of))]
pub fn jam_words(words: &[Word]) -> Option<JamWords>
    ensures value { result ≡ jam_of words.now }
    ensures bound { IfSome result (λ asked. asked.seed ≤ 999999) }
{
    let [verb, first, second] = words else {
        return None;
    };
    if verb.as_bytes() != b"jam".as_slice() {
        return None;
    }
    let Some(seed) = seed(first.as_bytes()) else {
        return None;
    };
    let Some(count) = count(second.as_bytes()) else {
        return None;
    };
    Some(JamWords { seed, count })
}
