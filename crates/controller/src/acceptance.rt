// The accepted pair (01, 'One step', rule 1).
ghost use Rattle.basics.specs.Settings.{sections_fit};
ghost use Rattle.controller.specs.Rules.{accepted_told, accepted, accepting};
ghost use Rattle.pair.specs.Coder.{decoded_told};
ghost use Rattle.pair.specs.Marks.{mark_told};
ghost use Rattle.std.specs.Prelude.{true, ◌≡◌};

use crate::asked::asked;
use crate::numbered::Received;
use crate::{Accepted, Controller};
use pair::mark::Mark;
use pair::{Decoded, found};
use request::Request;

// The mark of a pair that was decoded.
fn mark_in(d: Decoded) -> Option<Mark>
    ensures { mark_told result ≡ (decoded_told d).mark }
{
    match d {
        Decoded::Marked(m) => Some(m),
        _ => None,
    }
}

fn accepted(k1: u8, k2: u8, mark: Option<Mark>) -> Accepted
    ensures { accepted_told result ≡ accepted k1 k2 (mark_told mark) }
{
    Accepted {
        k1,
        k2,
        request: asked(k1),
        bridged: k2 / 16,
        mark,
    }
}

// That n fits is a clause, as in `held_fits` and `acceptable`: a `Controller` may hold any n, so a type that says it would be a
// copy of the record.
pub(crate) fn accepting(s: Controller, failed: bool, received: Received) -> Accepted
    requires { sections_fit s.n ≡ true }
    ensures { accepted_told result ≡ accepting s failed received.k1 received.k2 }
{
    if failed {
        return accepted(Controller::IDLE_K1, Controller::IDLE_K2, None);
    }
    let d = found(received.number, s.n, received.k1, received.k2);
    let Decoded::Usable(p) = d else {
        return accepted(s.k1, s.k2, mark_in(d));
    };
    Accepted {
        k1: received.k1,
        k2: received.k2,
        request: Request {
            code: p.code,
            channel: p.channel,
        },
        bridged: p.bridged,
        mark: None,
    }
}
