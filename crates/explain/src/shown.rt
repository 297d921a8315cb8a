// The cause that is shown of a step (02, a), read from what was sent.
ghost use Rattle.std.specs.Prelude.{◌+◌, ◌*◌, ◌^◌, ◌≤◌, ◌≡◌};
ghost use Rattle.explain.specs.Cause.{bad_for, louder, deciding, command_number, command_for, channel_for};

use crate::Ranked;
use controller::codes::{FORCED_SWITCH, LOCKOUT, NOTHING, REVERSE, WAIT_TO_RESTORE};
use controller::command::held;
use controller::section::condition;
use request::Request;

// Conditions and commands are numbers here, as they stand in the tables that are lent.
fn bad_for(mask: u16, x: Request) -> u8
    ensures { result ≡ bad_for mask x }
{
    if x.code == condition(mask, x.channel, 1).code {
        1
    } else if x.code == condition(mask, x.channel, 2).code {
        2
    } else {
        0
    }
}

// Two bits per section, section 0 lowest.
pub(crate) fn conditions_word(mask: u16, x: Request) -> u32
    requires { x.channel ≤ 14 }
    ensures { result ≡ bad_for mask x * 4 ^ x.channel }
{
    u32::from(bad_for(mask, x)) << (2 * x.channel)
}

pub(crate) fn louder(hold: bool, rank: u8, prior: u8, now: u16) -> bool
    ensures { result ≡ louder hold rank prior now }
{
    ((0 < prior) & (hold | (rank <= prior))) | ((0 < now) & (rank <= 2))
}

pub(crate) fn deciding(theirs: u8, x: Ranked) -> u8
    ensures { result ≡ deciding theirs x.request x.rank }
{
    if x.request.code == REVERSE {
        theirs
    } else {
        x.rank
    }
}

// As the paper numbers the commands: 2 LO, 3 FS, 4 MS.
fn command_number(code: u8) -> u8
    ensures { result ≡ command_number code }
{
    match code {
        LOCKOUT => 2,
        FORCED_SWITCH => 3,
        _ => 4,
    }
}

// The command in the upper byte, its channel in the lower.
pub(crate) fn command_word(last: Request, x: Request, loud: bool) -> u16
    ensures { result ≡ 256 * command_for last x loud + channel_for last x }
{
    let commands = held(x).code != NOTHING;
    let goes_on = commands | (x.code == WAIT_TO_RESTORE);
    if commands & (x != last) {
        u16::from_be_bytes([command_number(x.code), x.channel])
    } else if !goes_on & loud {
        256
    } else {
        0
    }
}
