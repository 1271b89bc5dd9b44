//! The first words of lines.

ghost use Rattle.std.specs.Prelude.{◌≡◌};
ghost use Rattle.jm_script.specs.Keywords.{step_word_of, keyword_of, read_word_of, repair_word_of};

/// The first word of a line that a session answers.
#[derive(Clone, Copy, Debug, PartialEq, Eq)]
pub(crate) enum StepWord {
    Enter,
    Play,
    Cut,
    Ack,
    Join,
    Leave,
    Hear,
    Feedback,
    Message,
}

/// The first word of a session's line.
#[derive(Clone, Copy, Debug, PartialEq, Eq)]
pub(crate) enum Keyword {
    Script,
    Session,
    Step(StepWord),
}

/// The first word of a line of the verb `read`: what its octets are read as.
#[derive(Clone, Copy, Debug, PartialEq, Eq)]
pub(crate) enum ReadWord {
    Command,
    Section,
    Packet,
    Message,
}

/// The first word of a line of the verb `repair`.
#[derive(Clone, Copy, Debug, PartialEq, Eq)]
pub(crate) enum RepairWord {
    Packet,
    State,
}

/// The word of a line that a session answers, if it is one.
#[tactic(auto, unfolding(crate::specs::Keywords::step_word_of))]
fn step_word(word: &[u8]) -> Option<StepWord>
    ensures { result ≡ step_word_of word.now }
{
    if word == b"enter".as_slice() {
        return Some(StepWord::Enter);
    }
    if word == b"play".as_slice() {
        return Some(StepWord::Play);
    }
    if word == b"cut".as_slice() {
        return Some(StepWord::Cut);
    }
    if word == b"ack".as_slice() {
        return Some(StepWord::Ack);
    }
    if word == b"join".as_slice() {
        return Some(StepWord::Join);
    }
    if word == b"leave".as_slice() {
        return Some(StepWord::Leave);
    }
    if word == b"hear".as_slice() {
        return Some(StepWord::Hear);
    }
    if word == b"feedback".as_slice() {
        return Some(StepWord::Feedback);
    }
    if word == b"message".as_slice() {
        return Some(StepWord::Message);
    }
    None
}

/// The keyword that a word is in a script, if it is one.
#[tactic(auto, unfolding(crate::specs::Keywords::keyword_of))]
pub(crate) fn session_word(word: &[u8]) -> Option<Keyword>
    ensures { result ≡ keyword_of word.now }
{
    if word == b"script".as_slice() {
        return Some(Keyword::Script);
    }
    if word == b"session".as_slice() {
        return Some(Keyword::Session);
    }
    match step_word(word) {
        Some(step) => Some(Keyword::Step(step)),
        None => None,
    }
}

/// The keyword that a word is for the verb `read`, if it is one.
#[tactic(auto, unfolding(crate::specs::Keywords::read_word_of))]
pub(crate) fn read_word(word: &[u8]) -> Option<ReadWord>
    ensures { result ≡ read_word_of word.now }
{
    if word == b"command".as_slice() {
        return Some(ReadWord::Command);
    }
    if word == b"section".as_slice() {
        return Some(ReadWord::Section);
    }
    if word == b"packet".as_slice() {
        return Some(ReadWord::Packet);
    }
    if word == b"message".as_slice() {
        return Some(ReadWord::Message);
    }
    None
}

/// The keyword that a word is for the verb `repair`, if it is one.
#[tactic(auto, unfolding(crate::specs::Keywords::repair_word_of))]
pub(crate) fn repair_word(word: &[u8]) -> Option<RepairWord>
    ensures { result ≡ repair_word_of word.now }
{
    if word == b"packet".as_slice() {
        return Some(RepairWord::Packet);
    }
    if word == b"state".as_slice() {
        return Some(RepairWord::State);
    }
    None
}
