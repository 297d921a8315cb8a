// The decision of one step, on ranks and channels alone (01, 'One step', rules 2 to 7).
#![tactic(auto)]

pub mod command;

ghost use Rattle.request.specs.Bridge.{bridge, selector};
ghost use Rattle.request.specs.Command.{replaces, fate, fate_number};
ghost use Rattle.request.specs.Order.{better, turn};
ghost use Rattle.request.specs.Wait.{wait_now};
ghost use Rattle.std.specs.Prelude.{◌≡◌};

use crate::command::Fate;

// What is asked for, by its code in a table of requests, and for which channel.
#[derive(Clone, Copy, Debug, PartialEq, Eq)]
pub struct Request {
    pub code: u8,
    pub channel: u8,
}

// Rank and channel come from tables of their own, so there is no pair of them to hand in.
pub fn better(rank: u8, channel: u8, rank2: u8, channel2: u8) -> bool
    ensures { result ≡ better rank channel rank2 channel2 }
{
    (0 < rank) & ((rank2 < rank) | ((rank == rank2) & (channel < channel2)))
}

// Among local conditions of equal rank what was last sent stays, but section 0 wins its tie (02, d; G.873.1, 8.10).
pub fn turn(last: Request, x: Request) -> usize
    ensures { result ≡ turn last x }
{
    if x.channel == 0 {
        return 0;
    }
    if x == last {
        1
    } else {
        usize::from(x.channel) + 1
    }
}

pub fn replaces(held: u8, given: u8) -> bool
    ensures { result ≡ replaces held given }
{
    (held == 0) | (held < given)
}

// By the command's number, of which each has a fate, be it of a command or not (`fate_right`).
pub fn fate(command: u8, replaced: bool, sent: bool) -> Fate
    ensures { fate_number result ≡ fate command replaced sent }
{
    match command {
        0 => Fate::NoCommand,
        1 => Fate::Taken,
        _ if replaced & sent => Fate::Taken,
        _ => Fate::Denied,
    }
}

pub fn wait_now(clear: bool, entering: bool, waiting: bool, w: u16, left: u16) -> u16
    ensures { result ≡ wait_now clear entering waiting w left }
{
    if clear {
        return 0;
    }
    if entering {
        return w;
    }
    if waiting { left.saturating_sub(1) } else { 0 }
}

pub fn bridge(accepted: u8, sent: u8, kept: bool) -> u8
    ensures { result ≡ bridge accepted sent kept }
{
    let bridged = (accepted == sent) | kept;
    if bridged { accepted } else { 0 }
}

pub fn selector(sent: u8, bridged: u8) -> u8
    ensures { result ≡ selector sent bridged }
{
    if bridged == sent { sent } else { 0 }
}
