// A request beside its rank, which is looked up once.
ghost use Rattle.controller.specs.Rules.{rank_of_request};
ghost use Rattle.std.specs.Prelude.{◌≡◌};

use crate::asked::rank_of;
use request::Request;

#[derive(Clone, Copy)]
pub(crate) struct RankedRequest {
    pub request: Request,
    pub rank: u8,
    ghost is_its_rank: { rank ≡ rank_of_request request },
}

impl RankedRequest {
    pub(crate) fn of(request: Request) -> RankedRequest
        ensures { result.request ≡ request }
    {
        let rank = rank_of(request);
        RankedRequest { request, rank }
    }
}
