//! What repair hands on. The state of a `Hearing` is here the listener's: each command that is handed on is applied to it.

ghost use Rattle.std.specs.Prelude.{◌≡◌, IfOk};
ghost use Rattle.jm_receiver.specs.Group.{command_of};
ghost use Rattle.jm_receiver.specs.HandedOn.{handed_on_if_new, handed_on, control_handed_on, half_handed_on, reset_handed_on, resets_handed_on, message_handed_on, message_handed_on_if_counting, messages_handed_on, song_handed_on, songs_handed_on, bank_is, program_is, value_or_zero, low_bank_handed_on_if_new, bank_handed_on, program_handed_on_if_new, half_is, halves_are, param_handed_on, param_handed_on_if_new, rpn_handed_on, nrpn_handed_on, selection_handed_on, selection_handed_on_after_params, kind_of, command_handed_on_if_new, log_handed_on, log_handed_on_of, group_handed_on, controls_handed_on, channel_handed_on, repair_handed_on};

use crate::group::{Group, all_channels, command_of, is_of};
use crate::heard::{HeardKind, Hearing};
use crate::repair::{counts, has_reset};
use jm_cmds::{Channel, Command, D7, Param, Selection, is_reset_message};
use jm_reader::{Log, LogKind};
use jm_state::{Halves, ProgramPart, State};
use std::alloc::{AllocError, Global};

/// Whether both are absent, or are the same bank.
fn bank_is(a: &Option<(D7, D7)>, b: &Option<(D7, D7)>) -> bool
    ensures { result ≡ bank_is a.now b.now }
{
    match (a, b) {
        (None, None) => true,
        (Some(a), Some(b)) => a.0.get() == b.0.get() && a.1.get() == b.1.get(),
        _ => false,
    }
}

/// Whether a channel has this program with this bank.
fn program_is(part: &Option<ProgramPart>, program: D7, bank: &Option<(D7, D7)>) -> bool
    ensures { result ≡ program_is part.now program bank.now }
{
    match part {
        None => false,
        Some(part) => part.program.get() == program.get() && bank_is(&part.bank, bank),
    }
}

/// The value of a control, which is 0 where it is absent.
fn value_or_zero(value: Option<D7>) -> D7
    ensures { result ≡ value_or_zero value }
{
    match value {
        None => D7::low(0),
        Some(value) => value,
    }
}

/// Whether a half of a parameter's value is there as it is coded, if it is coded.
fn half_is(held: Option<D7>, coded: &Option<D7>) -> bool
    ensures { result ≡ half_is held coded.now }
{
    match coded {
        None => true,
        Some(value) => held == Some(*value),
    }
}

/// Whether the halves that are coded are there.
fn halves_are(halves: &Halves, entry_high: &Option<D7>, entry_low: &Option<D7>) -> bool
    ensures { result ≡ halves_are halves.now entry_high.now entry_low.now }
{
    half_is(halves.entry_high, entry_high) && half_is(halves.entry_low, entry_low)
}

/// A struck note that is no longer worth playing is late.
fn kind_of(log: &LogKind) -> HeardKind
    ensures { result ≡ kind_of log.now }
{
    match log {
        LogKind::NoteOn { soon: false, .. } => HeardKind::Late,
        _ => HeardKind::Repaired,
    }
}

impl Hearing {
    /// Hands on a command, unless it leaves the listener's state as it is.
    #[tactic(auto, unfolding(crate::specs::HandedOn::handed_on_if_new))]
    fn hand_on_if_new(
        &mut self,
        command: &Command,
        kind: HeardKind,
        alloc: Global,
    ) -> Result<(), AllocError>
        ensures { IfOk result (λ _. self.new ≡ handed_on_if_new self.old command.now kind) }
    {
        let mut after = self.state.copy();
        after.apply(command);
        if after.same(&self.state) {
            return Ok(());
        }
        self.hear(command, kind, alloc)
    }

    /// Hands on a command, whether or not it changes the listener's state.
    #[tactic(auto, unfolding(crate::specs::HandedOn::handed_on))]
    fn hand_on(&mut self, command: &Command, alloc: Global) -> Result<(), AllocError>
        ensures { IfOk result (λ _. self.new ≡ handed_on self.old command.now) }
    {
        self.hear(command, HeardKind::Repaired, alloc)
    }

    /// Hands on a controller.
    fn hand_on_control(
        &mut self,
        channel: Channel,
        number: D7,
        value: D7,
        alloc: Global,
    ) -> Result<(), AllocError>
        ensures { IfOk result (λ _. self.new ≡ control_handed_on self.old channel number value) }
    {
        self.hand_on(
            &Command::Control {
                channel,
                number,
                value,
            },
            alloc,
        )
    }

    /// Hands on a controller, if there is a value.
    fn hand_on_half(
        &mut self,
        channel: Channel,
        number: D7,
        value: &Option<D7>,
        alloc: Global,
    ) -> Result<(), AllocError>
        ensures { IfOk result (λ _. self.new ≡ half_handed_on self.old channel number value.now) }
    {
        match value {
            None => Ok(()),
            Some(value) => self.hand_on_control(channel, number, *value, alloc),
        }
    }

    /// Hands on the command of a log that makes all parts absent.
    fn hand_on_reset(&mut self, log: &LogKind, alloc: Global) -> Result<(), AllocError>
        ensures { IfOk result (λ _. self.new ≡ reset_handed_on self.old log.now) }
    {
        match log {
            LogKind::Reset { .. } => {
                self.hand_on_if_new(&Command::SystemReset, HeardKind::Repaired, alloc)
            }
            LogKind::Sysex { octets, .. } => {
                if !is_reset_message(octets.as_slice()) {
                    return Ok(());
                }
                let command = Command::Sysex(octets.copy(alloc)?);
                self.hand_on_if_new(&command, HeardKind::Repaired, alloc)
            }
            _ => Ok(()),
        }
    }

    /// Hands on the commands of the logs that make all parts absent.
    #[tactic(auto, unfolding(crate::specs::HandedOn::resets_handed_on))]
    fn hand_on_resets(&mut self, logs: &[Log], alloc: Global) -> Result<(), AllocError>
        ensures { IfOk result (λ _. self.new ≡ resets_handed_on logs.now self.old) }
    {
        for log in logs {
            self.hand_on_reset(&log.what, alloc)?;
        }
        Ok(())
    }

    /// Hands on the message of a log, whether or not it changes the listener's state.
    fn hand_on_message(&mut self, log: &LogKind, alloc: Global) -> Result<(), AllocError>
        ensures { IfOk result (λ _. self.new ≡ message_handed_on self.old log.now) }
    {
        match log {
            LogKind::Sysex { octets, .. } => {
                let command = Command::Sysex(octets.copy(alloc)?);
                self.hand_on(&command, alloc)
            }
            _ => Ok(()),
        }
    }

    /// Hands on the message of a log, where it counts.
    fn hand_on_message_if_counting(
        &mut self,
        reset: bool,
        before: u8,
        log: &Log,
        alloc: Global,
    ) -> Result<(), AllocError>
        ensures { IfOk result (λ _. self.new ≡ message_handed_on_if_counting reset before self.old log.now) }
    {
        if counts(reset, before, &log.what) {
            return self.hand_on_message(&log.what, alloc);
        }
        Ok(())
    }

    /// Hands on the messages that count.
    #[tactic(auto, unfolding(crate::specs::HandedOn::messages_handed_on))]
    fn hand_on_messages(&mut self, logs: &[Log], alloc: Global) -> Result<(), AllocError>
        ensures { IfOk result (λ _. self.new ≡ messages_handed_on logs.now self.old) }
    {
        let reset = has_reset(logs);
        let before = self.state.sysex_count();
        for log in logs {
            self.hand_on_message_if_counting(reset, before, log, alloc)?;
        }
        Ok(())
    }

    /// Hands on the song of a log.
    fn hand_on_song(&mut self, log: &LogKind, alloc: Global) -> Result<(), AllocError>
        ensures { IfOk result (λ _. self.new ≡ song_handed_on self.old log.now) }
    {
        match log {
            LogKind::Song { song } => {
                self.hand_on_if_new(
                    &Command::SongSelect { song: *song },
                    HeardKind::Repaired,
                    alloc,
                )
            }
            _ => Ok(()),
        }
    }

    /// Hands on the songs of the logs.
    #[tactic(auto, unfolding(crate::specs::HandedOn::songs_handed_on))]
    fn hand_on_songs(&mut self, logs: &[Log], alloc: Global) -> Result<(), AllocError>
        ensures { IfOk result (λ _. self.new ≡ songs_handed_on logs.now self.old) }
    {
        for log in logs {
            self.hand_on_song(&log.what, alloc)?;
        }
        Ok(())
    }

    /// Hands on Control 32, where the state has another value of it.
    fn hand_on_low_bank_if_new(
        &mut self,
        channel: Channel,
        low: D7,
        alloc: Global,
    ) -> Result<(), AllocError>
        ensures { IfOk result (λ _. self.new ≡ low_bank_handed_on_if_new self.old channel low) }
    {
        if value_or_zero(self.state.control(channel, D7::low(32))).get() == low.get() {
            return Ok(());
        }
        self.hand_on_control(channel, D7::low(32), low, alloc)
    }

    /// Hands on Control 0, and Control 32 where the state has another value of it.
    fn hand_on_bank(
        &mut self,
        channel: Channel,
        bank: &Option<(D7, D7)>,
        alloc: Global,
    ) -> Result<(), AllocError>
        ensures { IfOk result (λ _. self.new ≡ bank_handed_on self.old channel bank.now) }
    {
        match bank {
            None => Ok(()),
            Some((high, low)) => {
                self.hand_on_control(channel, D7::low(0), *high, alloc)?;
                self.hand_on_low_bank_if_new(channel, *low, alloc)
            }
        }
    }

    /// Hands on a program with its bank, where the state has another.
    #[tactic(auto, unfolding(crate::specs::HandedOn::program_handed_on_if_new))]
    fn hand_on_program_if_new(
        &mut self,
        channel: Channel,
        program: D7,
        bank: &Option<(D7, D7)>,
        alloc: Global,
    ) -> Result<(), AllocError>
        ensures { IfOk result (λ _. self.new ≡ program_handed_on_if_new self.old channel program bank.now) }
    {
        let part = self.state.program(channel);
        if program_is(&part, program, bank) {
            return Ok(());
        }
        self.hand_on_bank(channel, bank, alloc)?;
        self.hand_on(&Command::Program { channel, program }, alloc)
    }
}

impl Hearing {
    /// Hands on the two controllers that select a parameter, high half first, and then the halves of its value.
    fn hand_on_param(
        &mut self,
        channel: Channel,
        param: &Param,
        entry_high: &Option<D7>,
        entry_low: &Option<D7>,
        alloc: Global,
    ) -> Result<(), AllocError>
        ensures { IfOk result (λ _. self.new ≡ param_handed_on self.old channel param.now.nrpn param.now.high param.now.low entry_high.now entry_low.now) }
    {
        let high = D7::low(if param.nrpn { 99 } else { 101 });
        let low = D7::low(if param.nrpn { 98 } else { 100 });
        self.hand_on_control(channel, high, param.high, alloc)?;
        self.hand_on_control(channel, low, param.low, alloc)?;
        self.hand_on_half(channel, D7::low(6), entry_high, alloc)?;
        self.hand_on_half(channel, D7::low(38), entry_low, alloc)
    }

    /// Hands on a parameter, where the state has other halves of its value.
    #[tactic(auto, unfolding(crate::specs::HandedOn::param_handed_on_if_new))]
    fn hand_on_param_if_new(
        &mut self,
        channel: Channel,
        param: &Param,
        entry_high: &Option<D7>,
        entry_low: &Option<D7>,
        alloc: Global,
    ) -> Result<(), AllocError>
        ensures { IfOk result (λ _. self.new ≡ param_handed_on_if_new self.old channel param.now.nrpn param.now.high param.now.low entry_high.now entry_low.now) }
    {
        let halves = self.state.param(channel, param.nrpn, param.high, param.low);
        if halves_are(&halves, entry_high, entry_low) {
            return Ok(());
        }
        self.hand_on_param(channel, param, entry_high, entry_low, alloc)
    }

    /// Hands on the halves of a registered parameter's number.
    fn hand_on_rpn(
        &mut self,
        channel: Channel,
        s: &Selection,
        alloc: Global,
    ) -> Result<(), AllocError>
        ensures { IfOk result (λ _. self.new ≡ rpn_handed_on self.old channel s.now) }
    {
        self.hand_on_half(channel, D7::low(101), &s.rpn_high, alloc)?;
        self.hand_on_half(channel, D7::low(100), &s.rpn_low, alloc)
    }

    /// Hands on the halves of a non-registered parameter's number.
    fn hand_on_nrpn(
        &mut self,
        channel: Channel,
        s: &Selection,
        alloc: Global,
    ) -> Result<(), AllocError>
        ensures { IfOk result (λ _. self.new ≡ nrpn_handed_on self.old channel s.now) }
    {
        self.hand_on_half(channel, D7::low(99), &s.nrpn_high, alloc)?;
        self.hand_on_half(channel, D7::low(98), &s.nrpn_low, alloc)
    }

    /// Hands on the halves that are there. Those of the kind that is selected come last.
    #[tactic(auto, unfolding(crate::specs::HandedOn::selection_handed_on))]
    fn hand_on_selection(
        &mut self,
        channel: Channel,
        selection: Option<Selection>,
        alloc: Global,
    ) -> Result<(), AllocError>
        ensures { IfOk result (λ _. self.new ≡ selection_handed_on self.old channel selection) }
    {
        let Some(selection) = selection else {
            return Ok(());
        };
        if selection.nrpn {
            self.hand_on_rpn(channel, &selection, alloc)?;
            return self.hand_on_nrpn(channel, &selection, alloc);
        }
        self.hand_on_nrpn(channel, &selection, alloc)?;
        self.hand_on_rpn(channel, &selection, alloc)
    }

    /// Hands on the selection, where parameters were handed on: more is heard after them than before.
    fn hand_on_selection_after_params(
        &mut self,
        before: usize,
        after: usize,
        channel: Channel,
        selection: Option<Selection>,
        alloc: Global,
    ) -> Result<(), AllocError>
        ensures { IfOk result (λ _. self.new ≡ selection_handed_on_after_params before after self.old channel selection) }
    {
        if before == after {
            return Ok(());
        }
        self.hand_on_selection(channel, selection, alloc)
    }

    /// Hands on the command that a log stands for, if it is one of a command.
    fn hand_on_command(&mut self, log: &LogKind, alloc: Global) -> Result<(), AllocError>
        ensures { IfOk result (λ _. self.new ≡ command_handed_on_if_new self.old (command_of log.now) (kind_of log.now)) }
    {
        match command_of(log) {
            None => Ok(()),
            Some(command) => self.hand_on_if_new(&command, kind_of(log), alloc),
        }
    }

    /// Hands on the commands of a log of a channel. Toggles, of which no command can tell, hand on nothing.
    fn hand_on_log(&mut self, log: &LogKind, alloc: Global) -> Result<(), AllocError>
        ensures { IfOk result (λ _. self.new ≡ log_handed_on self.old log.now) }
    {
        match log {
            LogKind::Program {
                channel,
                program,
                bank,
            } => self.hand_on_program_if_new(*channel, *program, bank, alloc),
            LogKind::Param {
                channel,
                nrpn,
                high,
                low,
                entry_high,
                entry_low,
            } => {
                let param = Param {
                    nrpn: *nrpn,
                    high: *high,
                    low: *low,
                };
                self.hand_on_param_if_new(*channel, &param, entry_high, entry_low, alloc)
            }
            LogKind::Toggle { .. } => Ok(()),
            _ => self.hand_on_command(log, alloc),
        }
    }

    /// Hands on the commands of a log, where it is of this group and channel.
    fn hand_on_log_of(
        &mut self,
        group: &Group,
        channel: Channel,
        log: &Log,
        alloc: Global,
    ) -> Result<(), AllocError>
        ensures { IfOk result (λ _. self.new ≡ log_handed_on_of group.now channel self.old log.now) }
    {
        if is_of(group, channel, &log.what) {
            return self.hand_on_log(&log.what, alloc);
        }
        Ok(())
    }

    /// Hands on the commands of the logs of this group and channel.
    #[tactic(auto, unfolding(crate::specs::HandedOn::group_handed_on))]
    fn hand_on_group(
        &mut self,
        logs: &[Log],
        channel: Channel,
        group: &Group,
        alloc: Global,
    ) -> Result<(), AllocError>
        ensures { IfOk result (λ _. self.new ≡ group_handed_on logs.now channel self.old group.now) }
    {
        for log in logs {
            self.hand_on_log_of(group, channel, log, alloc)?;
        }
        Ok(())
    }

    /// Hands on the parameters and controllers of a channel, and the selection of the repaired state after parameters.
    #[tactic(auto, unfolding(crate::specs::HandedOn::controls_handed_on))]
    fn hand_on_controls(
        &mut self,
        logs: &[Log],
        repaired: &State,
        channel: Channel,
        alloc: Global,
    ) -> Result<(), AllocError>
        ensures { IfOk result (λ _. self.new ≡ controls_handed_on logs.now repaired.now channel self.old) }
    {
        let before = self.heard.len();
        self.hand_on_group(logs, channel, &Group::Params, alloc)?;
        let after = self.heard.len();
        self.hand_on_group(logs, channel, &Group::Controls, alloc)?;
        self.hand_on_selection_after_params(
            before,
            after,
            channel,
            repaired.selection(channel),
            alloc,
        )
    }

    /// Hands on the commands of the logs of a channel.
    #[tactic(auto, unfolding(crate::specs::HandedOn::channel_handed_on))]
    fn hand_on_channel(
        &mut self,
        logs: &[Log],
        repaired: &State,
        channel: Channel,
        alloc: Global,
    ) -> Result<(), AllocError>
        ensures { IfOk result (λ _. self.new ≡ channel_handed_on logs.now repaired.now self.old channel) }
    {
        self.hand_on_group(logs, channel, &Group::Programs, alloc)?;
        self.hand_on_controls(logs, repaired, channel, alloc)?;
        self.hand_on_group(logs, channel, &Group::Wheels, alloc)?;
        self.hand_on_group(logs, channel, &Group::Released, alloc)?;
        self.hand_on_group(logs, channel, &Group::Struck, alloc)?;
        self.hand_on_group(logs, channel, &Group::Pressures, alloc)?;
        self.hand_on_group(logs, channel, &Group::Polys, alloc)
    }

    /// Hands on the commands of these logs, of which this is the repaired state.
    #[tactic(auto, unfolding(crate::specs::HandedOn::repair_handed_on))]
    pub(crate) fn hand_on_repair(
        &mut self,
        logs: &[Log],
        repaired: &State,
        alloc: Global,
    ) -> Result<(), AllocError>
        ensures { IfOk result (λ _. self.new ≡ repair_handed_on logs.now repaired.now self.old) }
    {
        self.hand_on_resets(logs, alloc)?;
        self.hand_on_messages(logs, alloc)?;
        self.hand_on_songs(logs, alloc)?;
        let channels = all_channels();
        for channel in &channels {
            self.hand_on_channel(logs, repaired, *channel, alloc)?;
        }
        Ok(())
    }
}
