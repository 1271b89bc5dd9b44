//! The verb `replay`: the lines of a script, over one book.

ghost use Rattle.std.specs.Prelude.{◌≡◌, ◌+◌, ◌≤◌, length, IfOk, codes};
ghost use Rattle.jm_script.specs.AnswerText.{answer_text};
ghost use Rattle.midi_host.specs.Told.{taken};
ghost use Rattle.midi_host.specs.Did.{Did};
ghost use Rattle.midi_host.specs.Replay.{entering, entering_newly, entering_as, playing, playing_as, cutting, acking, joining, leaving, hearing, reporting, saying, played, opening, within, started, opened, version_of, is_started, scripted, playing_of, state_of};
ghost use Rattle.apple_msg.specs.Reading.{read};
ghost use Rattle.jm_script.specs.Line.{IsInRange};

use super::answers::Answers;
use super::conversation::{Conversation, LineOutcome, MOST_OCTETS, refuse};
use super::players::{NamedPlayer, Players};
use super::room::PacketRoom;
use super::session_answers::{
    acked_line, cutted_line, entered_line, given_line, gone_line, heard_line, joined_line,
    played_line, said_line,
};
use apple_msg::{Name, read_message};
use apple_session::PortKind;
use jm_book::{Book, Config, Entered, FeedbackList};
use jm_cmds::Command;
use jm_edge::Addr;
use jm_script::{AnswerLine, Cause, Line, LineKind, PlayerName, Refusal, ShownFault, read_line};
use std::alloc::{AllocError, Global};

/// A session behind its session line.
#[derive(Debug, Drop)]
pub struct Session {
    /// The version of its script.
    pub version: u8,
    pub book: Book,
    pub room: PacketRoom,
    pub players: Players,
}

/// The verb: a script before its session line, or a session behind it.
#[derive(Debug, Drop)]
pub enum Replay {
    /// No session line came. The script is of this version so far.
    Opening { version: u8 },
    Playing(Session),
}

impl Session {
    /// `enter`.
    fn enter(&mut self, answers: &mut Answers) -> Result<LineOutcome, AllocError>
        ensures { Did result (entering (playing_of self.old)) (playing_of self.new) answers.old answers.new }
    {
        self.book.reserve()?;
        let answer = self.book.enter();
        answers.add(&entered_line(answer))?;
        Ok(LineOutcome::Taken)
    }

    /// `enter NAME` of a name that didn't enter yet.
    fn enter_newly(
        &mut self,
        name: PlayerName,
        answers: &mut Answers,
    ) -> Result<LineOutcome, AllocError>
        ensures { Did result (entering_newly name (playing_of self.old)) (playing_of self.new) answers.old answers.new }
    {
        self.book.reserve()?;
        match self.book.enter() {
            Entered::Player(player) => {
                answers.add(&AnswerLine::PlayerAs {
                    player,
                    name: name.copy(),
                })?;
                self.players.push(NamedPlayer { name, player })?;
                Ok(LineOutcome::Taken)
            }
            Entered::RecordFull { events } => {
                answers.add(&entered_line(Entered::RecordFull { events }))?;
                Ok(LineOutcome::Taken)
            }
            Entered::PlayersFull { most } => {
                answers.add(&entered_line(Entered::PlayersFull { most }))?;
                Ok(LineOutcome::Taken)
            }
        }
    }

    /// `enter NAME`.
    fn enter_as(
        &mut self,
        name: PlayerName,
        answers: &mut Answers,
    ) -> Result<LineOutcome, AllocError>
        ensures { Did result (entering_as name (playing_of self.old)) (playing_of self.new) answers.old answers.new }
    {
        match self.players.number_of(&name) {
            Some(_) => {
                answers.add(&AnswerLine::NameTaken { name })?;
                Ok(LineOutcome::Taken)
            }
            None => self.enter_newly(name, answers),
        }
    }

    /// `play PLAYER TICK HEX`, with the player's number.
    fn play(
        &mut self,
        player: u8,
        tick: u64,
        command: Command,
        answers: &mut Answers,
    ) -> Result<LineOutcome, AllocError>
        ensures { Did result (playing player tick command (playing_of self.old)) (playing_of self.new) answers.old answers.new }
    {
        self.book.reserve()?;
        let answer = self.book.play(player, command, tick);
        answers.add(&played_line(&answer))?;
        Ok(LineOutcome::Taken)
    }

    /// `play NAME TICK HEX`.
    fn play_as(
        &mut self,
        name: PlayerName,
        tick: u64,
        command: Command,
        answers: &mut Answers,
    ) -> Result<LineOutcome, AllocError>
        ensures { Did result (playing_as name tick command (playing_of self.old)) (playing_of self.new) answers.old answers.new }
    {
        match self.players.number_of(&name) {
            None => {
                answers.add(&AnswerLine::Refused(Refusal::UnknownPlayer))?;
                Ok(LineOutcome::Taken)
            }
            Some(player) => self.play(player, tick, command, answers),
        }
    }

    /// `cut TICK`.
    fn cut(
        &mut self,
        tick: u64,
        alloc: Global,
        answers: &mut Answers,
    ) -> Result<LineOutcome, AllocError>
        ensures { Did result (cutting tick (playing_of self.old)) (playing_of self.new) answers.old answers.new }
    {
        self.book.reserve()?;
        let answer = self.room.cut(&mut self.book, tick);
        answers.add(&cutted_line(answer, self.room.as_slice(), alloc)?)?;
        Ok(LineOutcome::Taken)
    }

    /// `ack SSRC SEQ`.
    fn ack(&mut self, ssrc: u32, seq: u16, answers: &mut Answers) -> Result<LineOutcome, AllocError>
        ensures { Did result (acking ssrc seq (playing_of self.old)) (playing_of self.new) answers.old answers.new }
    {
        self.book.reserve()?;
        let answer = self.book.ack(ssrc, seq);
        answers.add(&acked_line(answer))?;
        Ok(LineOutcome::Taken)
    }

    /// `join SSRC`.
    fn join(&mut self, ssrc: u32, answers: &mut Answers) -> Result<LineOutcome, AllocError>
        ensures { Did result (joining ssrc (playing_of self.old)) (playing_of self.new) answers.old answers.new }
    {
        self.book.reserve()?;
        let answer = self.book.join(ssrc);
        answers.add(&joined_line(answer))?;
        Ok(LineOutcome::Taken)
    }

    /// `leave SSRC`.
    fn leave(&mut self, ssrc: u32, answers: &mut Answers) -> Result<LineOutcome, AllocError>
        ensures { Did result (leaving ssrc (playing_of self.old)) (playing_of self.new) answers.old answers.new }
    {
        self.book.reserve()?;
        let answer = self.book.leave(ssrc);
        answers.add(&gone_line(answer))?;
        Ok(LineOutcome::Taken)
    }

    /// `hear SSRC SEQ`.
    fn hear(
        &mut self,
        ssrc: u32,
        seq: u16,
        answers: &mut Answers,
    ) -> Result<LineOutcome, AllocError>
        ensures { Did result (hearing ssrc seq (playing_of self.old)) (playing_of self.new) answers.old answers.new }
    {
        self.book.reserve()?;
        let answer = self.book.hear(ssrc, seq);
        answers.add(&heard_line(answer))?;
        Ok(LineOutcome::Taken)
    }

    /// `feedback`.
    fn feedback(&mut self, answers: &mut Answers) -> Result<LineOutcome, AllocError>
        ensures { Did result (reporting (playing_of self.old)) (playing_of self.new) answers.old answers.new }
    {
        self.book.reserve()?;
        let mut entries = FeedbackList::new();
        let answer = self.book.feedback(&mut entries);
        answers.add(&given_line(self.book.ssrc(), answer, entries))?;
        Ok(LineOutcome::Taken)
    }

    /// `message control|data ADDR NOW HEX`.
    fn message(
        &mut self,
        port: PortKind,
        from: Addr,
        now: u64,
        octets: &[u8],
        answers: &mut Answers,
    ) -> Result<LineOutcome, AllocError>
        ensures { Did result (saying port from now (read octets.now) (playing_of self.old)) (playing_of self.new) answers.old answers.new }
    {
        match read_message(octets) {
            Err(fault) => {
                answers.add(&AnswerLine::Fault(ShownFault::Message(fault)))?;
                Ok(LineOutcome::Taken)
            }
            Ok(message) => {
                self.book.reserve()?;
                let answer = self.book.say(port, from, &message, now);
                answers.add(&said_line(answer))?;
                Ok(LineOutcome::Taken)
            }
        }
    }

    /// A line behind the session line.
    fn line(
        &mut self,
        line: Line,
        alloc: Global,
        answers: &mut Answers,
    ) -> Result<LineOutcome, AllocError>
        ensures { Did result (played line (playing_of self.old)) (playing_of self.new) answers.old answers.new }
    {
        match line {
            Line::Blank => Ok(LineOutcome::Taken),
            Line::Enter => self.enter(answers),
            Line::EnterAs { name } => self.enter_as(name, answers),
            Line::Play {
                player,
                tick,
                command,
            } => self.play(player, tick, command, answers),
            Line::PlayAs {
                name,
                tick,
                command,
            } => self.play_as(name, tick, command, answers),
            Line::Cut { tick } => self.cut(tick, alloc, answers),
            Line::Ack { ssrc, seq } => self.ack(ssrc, seq, answers),
            Line::Join { ssrc } => self.join(ssrc, answers),
            Line::Leave { ssrc } => self.leave(ssrc, answers),
            Line::Hear { ssrc, seq } => self.hear(ssrc, seq, answers),
            Line::Feedback => self.feedback(answers),
            Line::Message {
                port,
                from,
                now,
                octets,
            } => self.message(port, from, now, octets.as_slice(), answers),
            _ => Ok(LineOutcome::Bad(Cause::Word)),
        }
    }
}

/// The name that the host gives itself.
pub fn host_name() -> Name
    ensures { result ≡ codes "midi_host" }
{
    let Some(name) = Name::new(b"midi_host") else {
        unreachable!()
    };
    name
}

/// The session of a session line, in a script of this version.
fn start(version: u8, ssrc: u32, events: u32, alloc: Global) -> Result<Session, AllocError>
    requires { (1 ≤ events) × (events ≤ 4194304) }
    ensures { IfOk result (λ s. playing_of s ≡ started version ssrc events) }
{
    let config = Config {
        ssrc,
        events,
        name: host_name(),
    };
    Ok(Session {
        version,
        book: Book::new(config, alloc)?,
        room: PacketRoom::new(alloc)?,
        players: Players::new(alloc),
    })
}

impl Replay {
    /// The version of the script so far, and whether its session line came.
    fn place(&self) -> (u8, bool)
        ensures version { result.0 ≡ version_of (state_of self.now) }
        ensures started { result.1 ≡ is_started (state_of self.now) }
    {
        match self {
            Replay::Opening { version } => (*version, false),
            Replay::Playing(session) => (session.version, true),
        }
    }

    /// `script 2`.
    fn begin_version_2(&mut self, answers: &mut Answers) -> Result<LineOutcome, AllocError>
        ensures { Did result (taken (answer_text AnswerLine.Script) (opening 2)) (state_of self.new) answers.old answers.new }
    {
        answers.add(&AnswerLine::Script)?;
        *self = Replay::Opening { version: 2 };
        Ok(LineOutcome::Taken)
    }

    /// `session SSRC EVENTS`, in a script of this version.
    fn begin(
        &mut self,
        version: u8,
        ssrc: u32,
        events: u32,
        alloc: Global,
        answers: &mut Answers,
    ) -> Result<LineOutcome, AllocError>
        requires { (1 ≤ events) × (events ≤ 4194304) }
        ensures { Did result (taken (answer_text AnswerLine.Session) (within (started version ssrc events))) (state_of self.new) answers.old answers.new }
    {
        let session = start(version, ssrc, events, alloc)?;
        answers.add(&AnswerLine::Session)?;
        *self = Replay::Playing(session);
        Ok(LineOutcome::Taken)
    }

    /// A line before the session line, in a script that is of this version so far.
    fn open(
        &mut self,
        version: u8,
        line: Line,
        alloc: Global,
        answers: &mut Answers,
    ) -> Result<LineOutcome, AllocError>
        requires before { state_of self.old ≡ opening version }
        requires range { IsInRange line }
        ensures { Did result (opened version line) (state_of self.new) answers.old answers.new }
    {
        match line {
            Line::Blank => Ok(LineOutcome::Taken),
            Line::Script => self.begin_version_2(answers),
            Line::Session { ssrc, events } => self.begin(version, ssrc, events, alloc, answers),
            _ => Ok(LineOutcome::Bad(Cause::Word)),
        }
    }

    /// A line that is in the grammar.
    fn take(
        &mut self,
        line: Line,
        alloc: Global,
        answers: &mut Answers,
    ) -> Result<LineOutcome, AllocError>
        requires { IsInRange line }
        ensures { Did result (scripted (state_of self.old) line) (state_of self.new) answers.old answers.new }
    {
        match self {
            Replay::Playing(session) => session.line(line, alloc, answers),
            Replay::Opening { version } => {
                let version = *version;
                self.open(version, line, alloc, answers)
            }
        }
    }
}

impl Conversation for Replay {
    ghost use Rattle.midi_host.specs.declared.conversation.TheConstants.{MOST_OCTETS};
    ghost use Rattle.midi_host.specs.Told.{told_by};
    ghost use Rattle.midi_host.specs.Replay.{replayed, state_of};
    ghost use Rattle.std.proofs.Common.{lit≤};
    ghost use Rattle.midi_host.specs.ToldBy.{told_by_nothing, told_by_lines, told_by_too_long};

    const LONGEST: usize = MOST_OCTETS;

    ghost LONGEST = { MOST_OCTETS };

    ghost told = { λ replay before lines. told_by MOST_OCTETS replayed before (state_of replay) lines };

    ghost bounded = { lit≤ tt };

    ghost told_nothing = { λ replay before. told_by_nothing MOST_OCTETS replayed before (state_of replay) };

    ghost told_lines = { λ replay before line lines many. told_by_lines MOST_OCTETS replayed before (state_of replay) line lines many };

    ghost told_too_long = { λ replay before line lines few long. told_by_too_long MOST_OCTETS replayed before (state_of replay) line lines few long };

    fn line(
        &mut self,
        alloc: Global,
        before: u32,
        line: &[u8],
        answers: &mut Answers,
    ) -> Result<LineOutcome, AllocError> {
        let (version, started) = self.place();
        match read_line(LineKind::Session, line, started, version, alloc) {
            Ok(line) => self.take(line, alloc, answers),
            Err(error) => refuse(error),
        }
    }
}
