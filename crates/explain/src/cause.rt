// What some cause makes the controller send (01, 'One step', rules 2 to 4, read from what was sent).
ghost use Rattle.controller.specs.Rules.{rank_of_request, held};
ghost use Rattle.explain.specs.Cause.{rank_held, follows, commanded_at, conditioned, waited, arises, unseen, answers_with, is_local, may_hide};
ghost use Rattle.std.specs.Prelude.{◌≡◌};

use crate::Ranked;
use controller::codes::{FAIL_HIGH, LOCKOUT, NOTHING, REVERSE, WAIT_TO_RESTORE};
use controller::command::held;
use controller::section::condition;
use request::{Request, better, replaces};

// The rank of the command that is held behind what was last sent, if one is.
pub(crate) fn rank_held(last: Ranked) -> u8
    ensures { result ≡ rank_held (held last.request) last.rank }
{
    if held(last.request).code == NOTHING {
        0
    } else {
        last.rank
    }
}

fn follows(goes: bool, prior: u8, rank: u8) -> bool
    ensures { result ≡ follows goes prior rank }
{
    goes | replaces(prior, rank)
}

// One command a step: a clear that drops the held one leaves no room for a new one. A command that goes on was last sent.
pub(crate) fn commanded(last: Ranked, x: Ranked) -> bool
    requires { last.rank ≡ rank_of_request last.request }
    ensures { result ≡ commanded_at x.rank (held last.request) (held x.request) }
{
    let goes_on = x.request == last.request;
    (held(x.request).code != NOTHING) & follows(goes_on, rank_held(last), x.rank)
}

fn conditioned(mask: u16, x: Request) -> bool
    ensures { result ≡ conditioned mask x }
{
    let degraded = condition(mask, x.channel, 1);
    let failed = condition(mask, x.channel, 2);
    (x.code == degraded.code) | ((1 <= x.channel) & (x.code == failed.code))
}

fn waited(now: u16, last: Request, x: Request) -> bool
    ensures { result ≡ waited now last x }
{
    (x.code == WAIT_TO_RESTORE) & (x.channel == last.channel) & (1 <= now)
}

#[tactic(auto, unfolding(crate::specs::Cause::arises))]
pub(crate) fn arises(mask: u16, command: bool, now: u16, last: Request, x: Request) -> bool
    ensures { result ≡ arises mask command now last x }
{
    let by_condition = conditioned(mask, x);
    let by_wait = waited(now, last, x);
    (x.code == NOTHING) | command | by_condition | by_wait
}

// Section 0 has failed, unseen under LO.
#[tactic(auto, unfolding(crate::specs::Cause::unseen))]
pub(crate) fn unseen(command: bool, x: Request) -> bool
    ensures { result ≡ unseen command x }
{
    (x.channel == 0) & ((x.code == FAIL_HIGH) | ((x.code == LOCKOUT) & command))
}

pub(crate) fn answers(far: Ranked, x: Ranked, local: bool) -> bool
    ensures { result ≡ answers_with far x local }
{
    let theirs = far.request;
    let ours = x.request;
    let beaten = better(far.rank, theirs.channel, x.rank, ours.channel);
    let reversed = (ours.code == REVERSE) & (0 < far.rank) & (theirs.channel == ours.channel);
    reversed | (local & !beaten)
}

pub(crate) fn is_local(x: Request) -> bool
    ensures { result ≡ is_local x }
{
    x.code != REVERSE && (x.channel != 0 || x.code != FAIL_HIGH)
}

pub(crate) fn may_hide(x: Request) -> bool
    ensures { result ≡ may_hide x }
{
    x.channel == 0 && matches!(x.code, FAIL_HIGH | LOCKOUT)
}
