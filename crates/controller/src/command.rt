// The held command and a new one (01, 'One step', rules 2 and 5; 02, g).
ghost use Rattle.basics.specs.First.{first_of};
ghost use Rattle.basics.specs.Refusal.{refusal_told};
ghost use Rattle.controller.specs.Command.{command_number, command_channel};
ghost use Rattle.controller.specs.Refusals.{command_faults};
ghost use Rattle.controller.specs.Rules.{FitsK1, is_command, held, held_by, kept, given, replaces_held, in_force, held_after, counts};
ghost use Rattle.std.specs.Prelude.{IfOk, ◌≡◌};

use crate::Controller;
use crate::asked::{asked, k1_of};
use crate::codes::{FORCED_SWITCH, LOCKOUT, MANUAL_SWITCH, NO_REQUEST};
use crate::ranked::RankedRequest;
use basics::refusal::Refusal;
use request::{Request, replaces};
use std::fmt;

// A command that a step may be given, FS and MS with their section.
#[derive(Clone, Copy, Debug, PartialEq, Eq)]
pub enum Command {
    Clear,
    Lockout,
    Forced(u8),
    Manual(u8),
}

// The command that a number and a channel stand for, with n sections.
pub fn read(n: u8, number: u8, channel: u8) -> Result<Option<Command>, Refusal>
    ensures refused { refusal_told result ≡ first_of (command_faults n number channel) }
    ensures read { IfOk result (λ command. (command_number command ≡ number) × (command_channel command ≡ channel)) }
{
    let command = match number {
        0 => None,
        1 => Some(Command::Clear),
        2 => Some(Command::Lockout),
        3 => Some(Command::Forced(channel)),
        4 => Some(Command::Manual(channel)),
        _ => return Err(Refusal::Command),
    };
    let fits = match command {
        Some(Command::Forced(c) | Command::Manual(c)) => 1 <= c && c <= n,
        _ => channel == 0,
    };
    if fits {
        Ok(command)
    } else {
        Err(Refusal::CommandChannel)
    }
}

// Its number, by which its fate and the wait go (`fate` of `request`, and `wait_of`, which the judge hands 0).
pub fn number(command: Option<Command>) -> u8
    ensures { result ≡ command_number command }
{
    match command {
        None => 0,
        Some(Command::Clear) => 1,
        Some(Command::Lockout) => 2,
        Some(Command::Forced(_)) => 3,
        Some(Command::Manual(_)) => 4,
    }
}

// The section that it names, 0 where it names none.
pub fn channel(command: Option<Command>) -> u8
    ensures { result ≡ command_channel command }
{
    match command {
        Some(Command::Forced(c) | Command::Manual(c)) => c,
        _ => 0,
    }
}

// As the lines of a cause have it (02, a).
impl fmt::Display for Command {
    fn fmt<W: fmt::Write>(&self, f: &mut fmt::Formatter<W>) -> fmt::Result {
        match self {
            Command::Clear => write!(f, "clear"),
            Command::Lockout => write!(f, "LO"),
            Command::Forced(channel) => write!(f, "FS {channel}"),
            Command::Manual(channel) => write!(f, "MS {channel}"),
        }
    }
}

pub(crate) fn is_command(code: u8) -> bool
    ensures { result ≡ is_command code }
{
    matches!(code, LOCKOUT | FORCED_SWITCH | MANUAL_SWITCH)
}

pub fn held(last: Request) -> Request
    ensures { result ≡ held last }
{
    if is_command(last.code) {
        last
    } else {
        NO_REQUEST
    }
}

fn held_by(hold: bool, k1: u8, last: Request) -> Request
    ensures { result ≡ held_by hold k1 last }
{
    if hold { asked(k1) } else { held(last) }
}

fn kept(command: Option<Command>, prior: Request) -> Request
    ensures { result ≡ kept (command_number command) prior }
{
    match command {
        Some(Command::Clear) => NO_REQUEST,
        _ => prior,
    }
}

fn given(command: Option<Command>) -> Request
    ensures { result ≡ given (command_number command) (command_channel command) }
{
    match command {
        Some(Command::Lockout) => Request {
            code: LOCKOUT,
            channel: 0,
        },
        Some(Command::Forced(channel)) => Request {
            code: FORCED_SWITCH,
            channel,
        },
        Some(Command::Manual(channel)) => Request {
            code: MANUAL_SWITCH,
            channel,
        },
        _ => NO_REQUEST,
    }
}

// The new command, whether it replaced the held one, and the one of the two that stands.
#[derive(Clone, Copy)]
pub(crate) struct Commands {
    pub new: Request,
    pub replaced: bool,
    pub stands: RankedRequest,
}

impl Commands {
    // `last` is what was last sent.
    pub(crate) fn of(s: Controller, last: Request, command: Option<Command>) -> Commands
        ensures new { result.new ≡ given (command_number command) (command_channel command) }
        ensures replaced { result.replaced ≡ replaces_held (kept (command_number command) (held_by s.hold s.held last)) result.new }
        ensures stands { result.stands.request ≡ in_force result.replaced (kept (command_number command) (held_by s.hold s.held last)) result.new }
    {
        let prior = RankedRequest::of(kept(command, held_by(s.hold, s.held, last)));
        let new = RankedRequest::of(given(command));
        let replaced = replaces(prior.rank, new.rank);
        let stands = if replaced { new } else { prior };
        Commands {
            new: new.request,
            replaced,
            stands,
        }
    }
}

pub(crate) fn held_after(hold: bool, command: Request) -> u8
    requires { FitsK1 command }
    ensures { result ≡ held_after hold command }
{
    if hold {
        k1_of(command)
    } else {
        Controller::NONE_HELD
    }
}

pub(crate) fn counts(hold: bool, sent: Request, new: Request) -> bool
    ensures { result ≡ counts hold sent new }
{
    hold | (sent == new)
}

#[cfg(test)]
mod tests {
    use super::*;
    use std::test::Fail;

    #[test]
    fn printed(rt: HostRuntime) -> Result<(), Fail> {
        for (command, text) in [
            (Command::Clear, "clear"),
            (Command::Lockout, "LO"),
            (Command::Forced(1), "FS 1"),
            (Command::Manual(14), "MS 14"),
        ] {
            assert_eq!(rt; format!(in rt.alloc(); "{command}")?.as_str(), text);
        }
        Ok(())
    }
}
