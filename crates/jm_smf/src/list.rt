//! Commands in order.

ghost use Rattle.std.specs.Prelude.{◌≡◌, [], ◌∷◌, ◌++◌, OnOk, IfOk, IfErr};
ghost use Rattle.jm_cmds.specs.declared.outcome.ReadError.TheVariants as errors;

use jm_cmds::Command;
use std::alloc::{AllocError, Global};
use std::marker::Model;

/// Commands in order.
#[derive(Debug, Drop)]
pub(crate) struct Commands {
    pub items: Vec<Command>,
}

impl Model for Commands {
    ghost use Rattle.std.specs.Prelude.{List};
    ghost use Rattle.jm_cmds.specs.declared.commands.Command.{Command};

    ghost Value = { List Command };

    ghost view = { λ c. c.items.items };
}

impl Commands {
    /// No command.
    pub fn new(alloc: Global) -> Commands
        ensures { result ≡ [] }
    {
        Commands {
            items: Vec::new(alloc),
        }
    }

    /// One command.
    pub fn one(command: Command, alloc: Global) -> Result<Commands, AllocError>
        ensures { IfOk result (λ commands. commands ≡ command ∷ []) }
    {
        let mut commands = Commands::new(alloc);
        commands.push(command)?;
        Ok(commands)
    }

    /// One more command at the end.
    pub fn push(&mut self, command: Command) -> Result<(), AllocError>
        ensures { OnOk result (self.new ≡ self.old ++ command ∷ []) }
    {
        self.items.push(command)?;
        Ok(())
    }
}
