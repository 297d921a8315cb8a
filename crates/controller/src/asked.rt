// What is asked for: requests, as a K1 has them.
ghost use Rattle.controller.specs.Rules.{asked, FitsK1, k1_of, rank_of_request};
ghost use Rattle.std.specs.Prelude.{◌≡◌};

use crate::codes::NOTHING;
use pair::request::rank;
use request::Request;

pub fn asked(k1: u8) -> Request
    ensures { result ≡ asked k1 }
{
    Request {
        code: k1 / 16,
        channel: k1 % 16,
    }
}

// That a request fits a K1 is a clause, here and where one is answered: the laws of requests speak of every code and channel.
pub(crate) fn k1_of(r: Request) -> u8
    requires { FitsK1 r }
    ensures { result ≡ k1_of r }
{
    r.code * 16 + r.channel
}

pub(crate) fn rank_of(r: Request) -> u8
    ensures { result ≡ rank_of_request r }
{
    // NR, which most of what is asked for is on a quiet line, need not be looked up.
    if r.code == NOTHING {
        0
    } else {
        rank(r.code, r.channel)
    }
}
