// The marks of a pair that is not usable; and whether a K2 is usable, and whether it is an alarm, for callers that ask no
// more than that.
ghost use Rattle.pair.specs.Marks.{mark_number, mark_told, second_usable, alarm_in};
ghost use Rattle.std.specs.Prelude.{◌≡◌};

// What is wrong with a pair, in the order of checking (02, c).
#[derive(Clone, Copy, Debug, PartialEq, Eq)]
pub enum Mark {
    /// Bit 5 of the K2 is 0.
    Architecture = 1,
    /// The line bits of the K2 are neither 000 nor 110, nor 111, an alarm.
    LineBits = 2,
    /// The code of the K1 is in no row.
    Code = 3,
    /// The code does not carry the channel of the K1.
    Channel = 4,
    /// The bridged channel of the K2 is above n.
    Bridged = 5,
}

impl Mark {
    /// The paper's number of it.
    pub fn number(self) -> u8
        ensures { result ≡ mark_number self }
    {
        self as u8
    }

    /// The number of what may be a mark, 0 where there is none.
    pub fn number_or_0(mark: Option<Mark>) -> u8
        ensures { result ≡ mark_told mark }
    {
        mark.map_or(0, |m| m.number())
    }
}

// The lower halves of a usable K2, a bit for each: bit 5 and line bits 000, bit 5 and line bits 110.
const LOWER_HALVES: u16 = 1 << 0b1000 | 1 << 0b1110;

// Whether no check of the K2 applies.
#[tactic(auto, using(crate::proofs::Coding::second_test))]
pub fn second_usable(n: u8, k2: u8) -> bool
    ensures { result ≡ second_usable n k2 }
{
    ((LOWER_HALVES >> (k2 % 16)) % 2 == 1) & (k2 / 16 <= n)
}

// Whether it is an alarm: bit 5, and line bits 111. Neither n nor K1 matters.
pub fn alarm(k2: u8) -> bool
    ensures { result ≡ alarm_in k2 }
{
    k2 % 16 == 0b1111
}
