//! Answers that are not written yet.

ghost use Rattle.std.specs.Prelude.{◌≡◌, ◌++◌, [], OnOk};
ghost use Rattle.jm_script.specs.AnswerText.{answer_text};

use jm_script::{AnswerLine, answer_len, write_answer};
use jm_wire::Octets;
use std::alloc::{AllocError, Global};
use std::marker::Model;

/// The lines of answers that are not written yet. Contracts see them as their text.
#[derive(Debug, Drop)]
pub struct Answers {
    alloc: Global,
    text: Vec<u8>,
}

impl Model for Answers {
    ghost use Rattle.std.specs.Prelude.{ℕ, List};

    ghost Value = { List ℕ };

    ghost view = { λ a. a.text.items };
}

impl Answers {
    /// No answer.
    pub fn new(alloc: Global) -> Answers
        ensures { result ≡ [] }
    {
        Answers {
            alloc,
            text: Vec::new(alloc),
        }
    }

    /// Adds the line of an answer.
    pub fn add(&mut self, answer: &AnswerLine) -> Result<(), AllocError>
        ensures { OnOk result (self.new ≡ self.old ++ answer_text answer.now) }
    {
        let len = answer_len(answer);
        if len == usize::MAX {
            return Err(AllocError);
        }
        let mut line = Octets::with_room(len, self.alloc)?;
        write_answer(answer, &mut line);
        self.text.extend_from_slice(line.as_slice())?;
        Ok(())
    }

    /// The text.
    pub fn as_slice(&self) -> &[u8]
        ensures { result.now ≡ self.now }
    {
        self.text.as_slice()
    }

    /// Takes all out.
    pub fn clear(&mut self)
        ensures { self.new ≡ [] }
    {
        self.text.clear();
    }
}
