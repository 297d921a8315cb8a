// The local request and the decision (01, 'One step', rules 3 and 4).
ghost use Rattle.std.specs.Prelude.{◌+◌, ◌≤◌, ◌<◌, length, drop, replicate, ◌∷◌, ◌≡◌};
ghost use Rattle.controller.specs.Asking.{OfKind, asks, section_at, Laid, Ranked};
ghost use Rattle.controller.specs.Rules.{is_command, is_wait, local_request, decided};
ghost use Rattle.pair.specs.Request.{rank_of};
ghost use Rattle.request.specs.Order.{turn, by_rank};

use crate::asked::rank_of;
use crate::codes::{NO_REQUEST, REVERSE};
use crate::ranked::RankedRequest;
use crate::section::condition;
use pair::request::rank;
use request::{Request, better, turn};

// What section c asks for; the condition of section 0 is handed in apart.
fn section_asks(mask: u16, protection: u8, conditions: &[u8], c: u8) -> Request
    requires { c < length conditions.now }
    ensures { result ≡ asks mask (protection ∷ drop 1 conditions.now) c }
{
    if c == 0 {
        condition(mask, 0, protection)
    } else {
        condition(mask, c, conditions[usize::from(c)])
    }
}

// The rank of a request, where it has one, at its turn; and the place behind the last one that has a rank.
fn lay(x: Request, last: Request, ranks: &mut [u8; 16], past_last: usize) -> usize
    requires { turn last x + 1 ≤ 16 }
    ensures { Laid last x ranks.old past_last ranks.new result }
{
    let rank = rank_of(x);
    if rank == 0 {
        return past_last;
    }
    let at = turn(last, x);
    ranks[at] = rank;
    past_last.max(at + 1)
}

// The rank of what each section asks for, worked out once a step, at its turn; and the place behind the last of them. A struct
// of the two is no plainer: it goes through the same three functions, and (tried) it is copied where it is handed on.
fn section_ranks(
    mask: u16,
    protection: u8,
    conditions: &[u8],
    last: Request,
    ranks: &mut [u8; 16],
) -> usize
    requires { (1 ≤ length conditions.now) × (length conditions.now ≤ 15) × (ranks.old ≡ replicate 16 0) }
    ensures { Ranked mask (protection ∷ drop 1 conditions.now) last ranks.new (length conditions.now) result }
{
    // Section 0 by itself: its condition is handed in apart, and the loop need not ask at each section which it is.
    let mut past_last = lay(condition(mask, 0, protection), last, ranks, 0);
    for c in 1..conditions.len() {
        // It is 14 at most, and so below in `section_at`: `u8::try_from` would be a Result that never fails.
        let asked = condition(mask, c as u8, conditions[c]);
        past_last = lay(asked, last, ranks, past_last);
    }
    past_last
}

// The section whose turn it is.
fn section_at(last: Request, at: usize) -> u8
    requires { at ≤ 16 }
    ensures { result ≡ section_at last at }
{
    if at == 1 {
        last.channel
    } else {
        at.saturating_sub(1) as u8
    }
}

// The higher rank, then the turn (01, rule 3; 02, d): section 0, the section whose request was last sent, the others from
// 1 up. So the first hit is the answer. Command and wait may come before the sections: no two of the three kinds share a
// rank, since each rank above 0 is one code's alone. The nested labelled loop is the project's form for this place. Mask, section 0's
// condition and the others come together here alone and from one call, so a struct of them is no plainer.
pub(crate) fn local_request(
    mask: u16,
    last: Request,
    protection: u8,
    conditions: &[u8],
    command: RankedRequest,
    wait: Request,
) -> Request
    requires { (1 ≤ length conditions.now) × (length conditions.now ≤ 15) × OfKind is_command command.request × OfKind is_wait wait }
    ensures { result ≡ local_request mask last protection (drop 1 conditions.now) command.request wait }
{
    let mut ranks = [0; 16];
    let past_last = section_ranks(mask, protection, conditions, last, &mut ranks);
    let wait = RankedRequest::of(wait);
    let mut found = NO_REQUEST;
    'ranks: for rank in (1..=10).rev() {
        if command.rank == rank {
            found = command.request;
            break;
        }
        if wait.rank == rank {
            found = wait.request;
            break;
        }
        // Turn by turn; from `past_last` on nobody asks for anything.
        for at in 0..past_last {
            if ranks[at] == rank {
                found = section_asks(mask, protection, conditions, section_at(last, at));
                break 'ranks;
            }
        }
    }
    found
}

fn beats(a: Request, b: Request) -> bool
    ensures { result ≡ by_rank rank_of a b }
{
    // Of what has no rank the other's need not be known.
    let first = rank(a.code, a.channel);
    (0 < first) && better(first, a.channel, rank_of(b), b.channel)
}

// RR answers a better request of the far end.
pub(crate) fn decided(far: Request, near: Request) -> Request
    ensures { result ≡ decided far near }
{
    if beats(far, near) {
        Request {
            code: REVERSE,
            channel: far.channel,
        }
    } else {
        near
    }
}
