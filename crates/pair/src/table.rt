// The table of K1 values (02, j): what the coder's rules say of a K1, in one look.
ghost use Rattle.std.specs.Prelude.{◌/◌, true, ◌≡◌, ◌⊎◌};
ghost use Rattle.basics.specs.Settings.{sections_fit};
ghost use Rattle.pair.specs.Marks.{mark_told};
ghost use Rattle.pair.specs.Request.{requests, carries};
ghost use Rattle.pair.specs.Table.{value_of, value_told, number_for, value_in, listed_in, usable_in, table_of};

use crate::Value;
use crate::mark::Mark;

// A number has four hexadecimal digits: rank, least n, greatest n, mark. Sixteen of them are a request code, one for each
// channel from 0 up; the first names the request.
const NUMBERS: [u16; 256] = [
    0x01E0, // 0000: no request, NR
    0x0004, 0x0004, 0x0004, 0x0004, 0x0004, 0x0004, 0x0004, 0x0004, 0x0004, 0x0004, 0x0004, 0x0004,
    0x0004, 0x0004, 0x0004, 0x0003, // 0001: in no row
    0x0003, 0x0003, 0x0003, 0x0003, 0x0003, 0x0003, 0x0003, 0x0003, 0x0003, 0x0003, 0x0003, 0x0003,
    0x0003, 0x0003, 0x0003, 0x01E0, // 0010: reverse request, RR
    0x01E0, 0x02E0, 0x03E0, 0x04E0, 0x05E0, 0x06E0, 0x07E0, 0x08E0, 0x09E0, 0x0AE0, 0x0BE0, 0x0CE0,
    0x0DE0, 0x0EE0, 0x0004, 0x0003, // 0011: in no row
    0x0003, 0x0003, 0x0003, 0x0003, 0x0003, 0x0003, 0x0003, 0x0003, 0x0003, 0x0003, 0x0003, 0x0003,
    0x0003, 0x0003, 0x0003, 0x0003, // 0100: in no row
    0x0003, 0x0003, 0x0003, 0x0003, 0x0003, 0x0003, 0x0003, 0x0003, 0x0003, 0x0003, 0x0003, 0x0003,
    0x0003, 0x0003, 0x0003, 0x0003, // 0101: in no row
    0x0003, 0x0003, 0x0003, 0x0003, 0x0003, 0x0003, 0x0003, 0x0003, 0x0003, 0x0003, 0x0003, 0x0003,
    0x0003, 0x0003, 0x0003, 0x0004, // 0110: wait to restore, WTR
    0x21E0, 0x22E0, 0x23E0, 0x24E0, 0x25E0, 0x26E0, 0x27E0, 0x28E0, 0x29E0, 0x2AE0, 0x2BE0, 0x2CE0,
    0x2DE0, 0x2EE0, 0x0004, 0x0003, // 0111: in no row
    0x0003, 0x0003, 0x0003, 0x0003, 0x0003, 0x0003, 0x0003, 0x0003, 0x0003, 0x0003, 0x0003, 0x0003,
    0x0003, 0x0003, 0x0003, 0x0004, // 1000: manual switch, MS
    0x31E0, 0x32E0, 0x33E0, 0x34E0, 0x35E0, 0x36E0, 0x37E0, 0x38E0, 0x39E0, 0x3AE0, 0x3BE0, 0x3CE0,
    0x3DE0, 0x3EE0, 0x0004, 0x0003, // 1001: in no row
    0x0003, 0x0003, 0x0003, 0x0003, 0x0003, 0x0003, 0x0003, 0x0003, 0x0003, 0x0003, 0x0003, 0x0003,
    0x0003, 0x0003, 0x0003, 0x0004, // 1010: signal degrade, low
    0x41E0, 0x42E0, 0x43E0, 0x44E0, 0x45E0, 0x46E0, 0x47E0, 0x48E0, 0x49E0, 0x4AE0, 0x4BE0, 0x4CE0,
    0x4DE0, 0x4EE0, 0x0004, 0x51E0, // 1011: signal degrade, high
    0x51E0, 0x52E0, 0x53E0, 0x54E0, 0x55E0, 0x56E0, 0x57E0, 0x58E0, 0x59E0, 0x5AE0, 0x5BE0, 0x5CE0,
    0x5DE0, 0x5EE0, 0x0004, 0x0004, // 1100: signal fail, low
    0x61E0, 0x62E0, 0x63E0, 0x64E0, 0x65E0, 0x66E0, 0x67E0, 0x68E0, 0x69E0, 0x6AE0, 0x6BE0, 0x6CE0,
    0x6DE0, 0x6EE0, 0x0004, 0x91E0, // 1101: signal fail on protection, SF0; signal fail, high
    0x71E0, 0x72E0, 0x73E0, 0x74E0, 0x75E0, 0x76E0, 0x77E0, 0x78E0, 0x79E0, 0x7AE0, 0x7BE0, 0x7CE0,
    0x7DE0, 0x7EE0, 0x0004, 0x0004, // 1110: forced switch, FS
    0x81E0, 0x82E0, 0x83E0, 0x84E0, 0x85E0, 0x86E0, 0x87E0, 0x88E0, 0x89E0, 0x8AE0, 0x8BE0, 0x8CE0,
    0x8DE0, 0x8EE0, 0x0004, 0xA1E0, // 1111: lockout of protection, LO
    0x0004, 0x0004, 0x0004, 0x0004, 0x0004, 0x0004, 0x0004, 0x0004, 0x0004, 0x0004, 0x0004, 0x0004,
    0x0004, 0x0004, 0x0004,
];

// The whole table. The compiler lays a constant out anew wherever one is used, so whoever looks at several K1 values takes
// it once.
#[tactic(auto, unfolding(crate::specs::Table::table_of, crate::specs::Table::number_for, crate::specs::Request::listed, crate::specs::Request::carries, crate::specs::Request::rank_in))]
pub fn numbers() -> [u16; 256]
    ensures { result ≡ table_of requests }
{
    NUMBERS
}

#[tactic(auto, using(crate::proofs::Looking::number_at))]
pub(crate) fn number_for(k1: u8) -> u16
    ensures { result ≡ number_for requests k1 }
{
    let table = numbers();
    table[usize::from(k1)]
}

pub fn rank_in(number: u16) -> u8
    ensures { result ≡ (value_in number).rank }
{
    (number / 4096) as u8
}

// Whether some row has the code: mark 3 is for no other value.
pub(crate) fn listed_in(number: u16) -> bool
    ensures { result ≡ listed_in number }
{
    number % 16 != 3
}

// Whether n is in least..greatest. Both are compared where they stand in the number, which spares a shift each.
pub fn usable_in(number: u16, n: u8) -> bool
    ensures { result ≡ usable_in number n }
{
    let sections = u16::from(n);
    (number % 4096 <= sections * 256 + 255) & (sections * 16 <= number % 256)
}

// Whether the code carries the channel. Neither need fit into its half of a K1.
#[tactic(auto, using(crate::proofs::Looking::code_beyond, crate::proofs::Looking::channel_beyond, crate::proofs::Looking::carried_looked))]
pub(crate) fn carried(n: u8, code: u8, channel: u8) -> bool
    requires { sections_fit n ≡ true }
    ensures { result ≡ carries requests n code channel }
{
    if code >= 16 || channel >= 16 {
        return false;
    }
    usable_in(number_for(code * 16 + channel), n)
}

// In a number a mark is its last digit, 3, 4 or 0 for none: the table is one of numbers (`numbers_right`).
fn marked_in(number: u16) -> Option<Mark>
    requires { ((value_in number).mark ≡ 3) ⊎ ((value_in number).mark ≡ 4) ⊎ ((value_in number).mark ≡ 0) }
    ensures { mark_told result ≡ (value_in number).mark }
{
    match number % 16 {
        3 => Some(Mark::Code),
        4 => Some(Mark::Channel),
        _ => None,
    }
}

// The digits are cast, since each fits: a conversion that may fail would be no plainer.
#[tactic(auto, using(crate::proofs::Looking::number_kinds, crate::proofs::Looking::value_back))]
pub fn value_of(k1: u8) -> Value
    ensures { value_told result ≡ value_of requests k1 }
{
    let number = number_for(k1);
    Value {
        rank: rank_in(number),
        least: (number / 256 % 16) as u8,
        greatest: (number / 16 % 16) as u8,
        mark: marked_in(number),
    }
}
