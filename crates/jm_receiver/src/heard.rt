//! What is heard of a packet: the commands of its section, and those that repair hands on.

ghost use Rattle.std.specs.Prelude.{◌≡◌, ◌++◌, ◌∷◌, [], None, length, option_map, IfOk};
ghost use Rattle.jm_cmds.specs.declared.commands.Command.TheVariants.{Sysex as Message};
ghost use Rattle.jm_section.specs.declared.item.What.TheVariants.{Whole, Part};
ghost use Rattle.jm_receiver.specs.Heard.{heard_also, heard_if, is_message, joined_to, what_heard, sent_also, sent_all};

use jm_cmds::{Command, Sysex};
use jm_section::{Item, PartKind, What};
use jm_state::State;
use std::alloc::{AllocError, Global};
use std::marker::Model;

/// Where a command that was heard comes from.
#[derive(Clone, Copy, PartialEq, Eq, Debug)]
pub enum HeardKind {
    /// It stands in the packet's command section.
    Sent,
    /// Repair handed it on: it stands in the journal.
    Repaired,
    /// Repair handed on a struck note that is no longer worth playing (the Y bit of RFC 6295, A.6.2).
    Late,
}

/// One command that was heard.
#[derive(Debug, Drop)]
pub struct Heard {
    pub command: Command,
    /// Its time in units of 100 microseconds, modulo 2^32: of a command in the section the packet's timestamp plus the deltas
    /// up to it, of another the packet's timestamp.
    pub tick: u32,
    pub kind: HeardKind,
}

/// The commands that were heard, in order. Contracts see it as their list.
#[derive(Debug, Drop)]
pub struct HeardList {
    heard: Vec<Heard>,
}

impl Model for HeardList {
    ghost use Rattle.std.specs.Prelude.{List};
    ghost use Rattle.jm_receiver.specs.declared.heard.Heard.{Heard};

    ghost Value = { List Heard };

    ghost view = { λ list. list.heard.items };
}

impl HeardList {
    /// Nothing.
    pub(crate) fn none(alloc: Global) -> HeardList
        ensures { result ≡ [] }
    {
        HeardList {
            heard: Vec::new(alloc),
        }
    }

    /// Adds one at the end.
    pub(crate) fn push(&mut self, heard: Heard) -> Result<(), AllocError>
        ensures { IfOk result (λ _. self.new ≡ self.old ++ heard ∷ []) }
    {
        self.heard.push(heard)?;
        Ok(())
    }

    /// The commands.
    pub fn as_slice(&self) -> &[Heard]
        ensures { result.now ≡ self.now }
    {
        self.heard.as_slice()
    }

    /// How many there are.
    pub fn len(&self) -> usize
        ensures { result ≡ length self.now }
    {
        self.heard.len()
    }
}

/// A state, the time, what was heard so far, and the data octets of an unfinished message, if there is one. While repair hands
/// on, the state is the listener's, and nothing is unfinished.
#[derive(Debug, Drop)]
pub(crate) struct Hearing {
    pub(crate) state: State,
    pub(crate) tick: u32,
    pub(crate) heard: HeardList,
    pub(crate) unfinished: Option<Sysex>,
}

/// Whether it is a System Exclusive message.
fn is_message(command: &Command) -> bool
    ensures { result ≡ is_message command.now }
{
    matches!(command, Command::Sysex(_))
}

impl Hearing {
    /// A command is heard, and applied to the state.
    pub(crate) fn hear(
        &mut self,
        command: &Command,
        kind: HeardKind,
        alloc: Global,
    ) -> Result<(), AllocError>
        ensures { IfOk result (λ _. self.new ≡ heard_also self.old command.now kind) }
    {
        self.heard.push(Heard {
            command: command.copy(alloc)?,
            tick: self.tick,
            kind,
        })?;
        self.state.apply(command);
        Ok(())
    }

    /// The data octets of a segment are joined to the unfinished message, which is dropped where it has too many then.
    fn join(&mut self, octets: &Sysex) -> Result<(), AllocError>
        ensures { IfOk result (λ _. self.new ≡ record self.old { unfinished = joined_to self.old.unfinished octets.now }) }
    {
        let Some(mut message) = self.unfinished.take() else {
            return Ok(());
        };
        if message.len() + octets.len() > Sysex::MOST {
            return Ok(());
        }
        message.append(octets)?;
        self.unfinished = Some(message);
        Ok(())
    }

    /// The last segment of a message: where one is unfinished, it is heard with these data octets behind its own.
    fn finish(&mut self, octets: &Sysex, alloc: Global) -> Result<(), AllocError>
        ensures { IfOk result (λ _. self.new ≡ record (heard_if self.old (option_map Message (joined_to self.old.unfinished octets.now))) { unfinished = None }) }
    {
        self.join(octets)?;
        match self.unfinished.take() {
            Some(message) => self.hear(&Command::Sysex(message), HeardKind::Sent, alloc),
            None => Ok(()),
        }
    }

    /// A segment: a first one begins a message, a middle one goes on with it, a last one finishes it, and one that calls it off drops it.
    fn hear_part(&mut self, kind: PartKind, octets: &Sysex, alloc: Global) -> Result<(), AllocError>
        ensures { IfOk result (λ _. self.new ≡ what_heard self.old (Part kind octets.now)) }
    {
        match kind {
            PartKind::First => {
                self.unfinished = Some(octets.copy(alloc)?);
                Ok(())
            }
            PartKind::Middle => self.join(octets),
            PartKind::Last => self.finish(octets, alloc),
            PartKind::Cancel => {
                self.unfinished = None;
                Ok(())
            }
        }
    }

    /// A whole command is heard. Where it is a message, the unfinished one is dropped.
    fn hear_whole(&mut self, command: &Command, alloc: Global) -> Result<(), AllocError>
        ensures { IfOk result (λ _. self.new ≡ what_heard self.old (Whole command.now)) }
    {
        if is_message(command) {
            self.unfinished = None;
        }
        self.hear(command, HeardKind::Sent, alloc)
    }

    /// An entry of the section: a command that it says is heard, and what is passed over is skipped.
    fn hear_what(&mut self, what: &What, alloc: Global) -> Result<(), AllocError>
        ensures { IfOk result (λ _. self.new ≡ what_heard self.old what.now) }
    {
        match what {
            What::Whole(command) => self.hear_whole(command, alloc),
            What::Part { kind, octets } => self.hear_part(*kind, octets, alloc),
            What::Passed(_) => Ok(()),
        }
    }

    /// An entry of the section. Its delta counts also where it is skipped.
    fn hear_item(&mut self, item: &Item, alloc: Global) -> Result<(), AllocError>
        ensures { IfOk result (λ _. self.new ≡ sent_also self.old item.now) }
    {
        self.tick = self.tick.wrapping_add(item.delta);
        self.hear_what(&item.what, alloc)
    }

    /// The entries of the section, in order.
    #[tactic(auto, unfolding(crate::specs::Heard::sent_all))]
    pub(crate) fn hear_items(&mut self, items: &[Item], alloc: Global) -> Result<(), AllocError>
        ensures { IfOk result (λ _. self.new ≡ sent_all self.old items.now) }
    {
        for item in items {
            self.hear_item(item, alloc)?;
        }
        Ok(())
    }
}
