// The ranks of the table of requests, as constant tables by request code and channel class (channel 0, or a section).
ghost use Rattle.std.specs.Prelude.{◌≡◌};
ghost use Rattle.pair.specs.Request.{rank_of};

// SF0 outranks FS: 1101 is above 1110 in the first table, and below it in the second (01; G.873.1, 8.9).
const RANKS_OF_CHANNEL_0: [u8; 16] = [0, 0, 0, 0, 0, 0, 0, 0, 0, 0, 0, 5, 0, 9, 0, 10];

const RANKS_OF_SECTIONS: [u8; 16] = [0, 0, 0, 0, 0, 0, 2, 0, 3, 0, 4, 5, 6, 7, 8, 0];

#[tactic(auto, using(crate::proofs::Rows::rank_beyond))]
pub fn rank(code: u8, channel: u8) -> u8
    ensures { result ≡ rank_of code channel }
{
    if code >= 16 {
        return 0;
    }
    let at = usize::from(code);
    if channel == 0 {
        RANKS_OF_CHANNEL_0[at]
    } else {
        RANKS_OF_SECTIONS[at]
    }
}
