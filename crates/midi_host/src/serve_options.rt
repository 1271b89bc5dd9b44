//! What the words of `serve` give for its options.

ghost use Rattle.std.specs.Prelude.{◌≡◌, true, false, codes, IfOk, OnErr, OnOk};
ghost use Rattle.clap.specs.Words.{rule_of, app_of, kind_of};
ghost use Rattle.midi_host.specs.ServeOptions.{option_rule, needed, with_value, serve_app};
ghost use Rattle.midi_host.specs.ServeParsed.{Parses, Matches, fault_for};

use super::word::Word;
use clap::error::ErrorKind;
use clap::{Arg, ArgAction, ArgMatches, Command, Error};
use std::alloc::{AllocError, Global};

const ABOUT: &str =
    "Serves one session as a host on the network, and tells of it in one line at the end";

const PORT_HELP: &str = "the control port, from 1024 to 65534; packets go through the next one";

const TURNS_HELP: &str =
    "how many rounds each worker makes, from 1 to 4294967295; one without a datagram takes some 10 ms";

const SSRC_HELP: &str = "the source of the stream, eight hexadecimal digits";

const EVENTS_HELP: &str = "how many steps the tape takes, from 1 to 4194304";

/// What the options of `serve` are given.
#[derive(Clone, Copy, Debug)]
pub struct OptionTexts<'a> {
    pub port: Option<&'a str>,
    pub turns: Option<&'a str>,
    pub ssrc: Option<&'a str>,
    pub events: Option<&'a str>,
}

/// Why there are none.
#[derive(Clone, Copy, Debug, PartialEq, Eq)]
pub enum WordsFault {
    /// There was no memory.
    Memory,
    /// The words aren't such.
    Refused,
}

impl From<AllocError> for WordsFault {
    ghost use Rattle.std.specs.Prelude.{◌≡◌};
    ghost use Rattle.midi_host.specs.declared.serve_options.WordsFault.TheVariants.{Memory};

    ghost from_gives = { λ _ e. e ≡ Memory };

    fn from(_error: AllocError) -> WordsFault {
        WordsFault::Memory
    }
}

// An option with one value, and what is told of it.
fn option<'a>(name: &'a str, help: &'a str, alloc: Global) -> Arg<'a>
    ensures rule { rule_of result ≡ option_rule name.entry.now }
    ensures own { result.global ≡ false }
{
    Arg::new(alloc, name)
        .long(name)
        .action(ArgAction::Set)
        .help(help)
}

// One that has to be there.
fn needed<'a>(name: &'a str, help: &'a str, alloc: Global) -> Arg<'a>
    ensures rule { rule_of result ≡ needed name.entry.now }
    ensures own { result.global ≡ false }
{
    option(name, help, alloc).required(true)
}

// One with a value where it isn't there.
fn with_value<'a>(name: &'a str, value: &'a str, help: &'a str, alloc: Global) -> Arg<'a>
    ensures rule { rule_of result ≡ with_value name.entry.now value.entry.now }
    ensures own { result.global ≡ false }
{
    option(name, help, alloc).default_value(value)
}

// The command with its four options.
fn serve_command<'a>(alloc: Global) -> Result<Command<'a>, AllocError>
    ensures { IfOk result (λ command. app_of command ≡ serve_app) }
{
    let command = Command::new(alloc, "serve")
        .arg(needed("port", PORT_HELP, alloc))?
        .arg(needed("turns", TURNS_HELP, alloc))?
        .arg(with_value("ssrc", "4d494449", SSRC_HELP, alloc))?
        .arg(with_value("events", "4194304", EVENTS_HELP, alloc))?;
    Ok(command)
}

// What an error of clap's comes to.
fn fault_for(error: &Error) -> WordsFault
    ensures { result ≡ fault_for (kind_of error.now) }
{
    match error.kind() {
        ErrorKind::OutOfMemory => WordsFault::Memory,
        _ => WordsFault::Refused,
    }
}

// What clap makes of the words.
fn matches_given<'a>(words: &'a [Word], alloc: Global) -> Result<ArgMatches<'a>, WordsFault>
    ensures { Matches words.entry.now result }
{
    let command = serve_command(alloc)?;
    match command.try_get_matches_from(words) {
        Ok(matches) => Ok(matches),
        Err(error) => Err(fault_for(&error)),
    }
}

/// What the words give for the options.
pub fn option_texts<'a>(words: &'a [Word], alloc: Global) -> Result<OptionTexts<'a>, WordsFault>
    ensures { Parses words.entry.now result }
{
    match matches_given(words, alloc) {
        Ok(matches) => Ok(OptionTexts {
            port: matches.get_str("port"),
            turns: matches.get_str("turns"),
            ssrc: matches.get_str("ssrc"),
            events: matches.get_str("events"),
        }),
        Err(fault) => Err(fault),
    }
}

/// The text that tells of the options.
pub fn serve_help(alloc: Global) -> Result<String, AllocError> {
    let mut command = serve_command(alloc)?.about(ABOUT);
    command.render_help()
}
