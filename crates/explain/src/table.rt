// The table of K1 values, which says of each what it asks for and who may send it.
ghost use Rattle.std.specs.Prelude.{◌≤◌, ◌≡◌};
ghost use Rattle.controller.specs.Rules.{rank_of_request, asked};
ghost use Rattle.explain.specs.Cause.{ranked};
ghost use Rattle.pair.specs.Marks.{channel_of};
ghost use Rattle.pair.specs.Request.{requests};
ghost use Rattle.pair.specs.Table.{table_of, number_for};

use crate::Ranked;
use controller::asked::asked;
use pair::table::{numbers, rank_in};

// The compiler lays a constant out anew wherever one is used, so it is taken once.
#[derive(Drop)]
pub(crate) struct Table {
    numbers: [u16; 256],
    ghost whole: { numbers ≡ table_of requests },
}

impl Table {
    pub(crate) fn new() -> Table {
        Table { numbers: numbers() }
    }

    #[tactic(auto, using(pair::proofs::Looking::number_at))]
    pub(crate) fn number(&self, k1: u8) -> u16
        ensures { result ≡ number_for requests k1 }
    {
        self.numbers[usize::from(k1)]
    }

    // The rank of a K1 whose channel some group has.
    pub(crate) fn rank_of(&self, k1: u8) -> u8
        requires { channel_of k1 ≤ 14 }
        ensures { result ≡ rank_of_request (asked k1) }
    {
        rank_in(self.number(k1))
    }

    // What it asks for, with that rank.
    pub(crate) fn asked(&self, k1: u8) -> Ranked
        requires { channel_of k1 ≤ 14 }
        ensures { result ≡ ranked (asked k1) }
    {
        Ranked {
            request: asked(k1),
            rank: self.rank_of(k1),
        }
    }
}
