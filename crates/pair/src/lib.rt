// The coder of the K1/K2 bytes (01, 'The byte pair'; G.841, Tables 7-1 and 7-2).
#![tactic(auto)]

pub mod mark;
pub mod request;
pub mod table;

ghost use Rattle.basics.specs.Answer.{Answers};
ghost use Rattle.pair.specs.Coder.{decoded_told, decoded_case, decoding_told, decoding_case};
ghost use Rattle.pair.specs.Coder.{decoding, decoding_of, decoding_looked, found_in};
ghost use Rattle.pair.specs.Coder.{line_of, encoding_told, encoding_case, encoding};
ghost use Rattle.std.specs.Prelude.{◌≡◌};

use crate::mark::Mark;
use crate::table::{carried, listed_in, number_for, usable_in};
use basics::refusal::Refusal;
use basics::settings::sections_fit;

// What a usable pair holds.
#[derive(Clone, Copy, Debug, PartialEq, Eq)]
pub struct Pair {
    pub code: u8,
    pub channel: u8,
    pub bridged: u8,
    pub remote: bool,
}

// What a pair decodes to: the record of a usable pair, the mark of an unusable one, or the alarm of line bits 111 (02, c).
#[derive(Clone, Copy, Debug, PartialEq, Eq)]
pub enum Decoded {
    Usable(Pair),
    Marked(Mark),
    Alarm,
}

// What the table of K1 values holds of one (02, j): its rank and the least and the greatest n for which it is usable, or the
// mark 3 or 4 where no n makes it so, with zeros beside it (`value_of`, and what `chainplater_k1` answers).
#[derive(Clone, Copy, Debug, PartialEq, Eq)]
pub struct Value {
    pub rank: u8,
    pub least: u8,
    pub greatest: u8,
    pub mark: Option<Mark>,
}

#[tactic(auto, using(crate::proofs::Coding::decoding_looked_lem))]
pub fn decode(n: u8, k1: u8, k2: u8) -> Result<Decoded, Refusal>
    ensures { Answers decoding_told decoding_case (decoding n k1 k2) result }
{
    decode_looked(number_for(k1), n, k1, k2)
}

// As `decode`; K1 has been looked up.
#[tactic(auto, using(crate::proofs::Coding::looked_by, crate::proofs::Coding::found_case), unfolding(crate::specs::Coder::decoding_looked))]
pub fn decode_looked(number: u16, n: u8, k1: u8, k2: u8) -> Result<Decoded, Refusal>
    ensures { Answers decoding_told decoding_case (decoding_looked number n k1 k2) result }
{
    if !sections_fit(n) {
        return Err(Refusal::Sections);
    }
    Ok(found(number, n, k1, k2))
}

// What is found in a pair, in the paper's order of checking, for a caller that knows n to be 1 to 14.
#[tactic(auto, using(crate::proofs::Coding::found_by))]
pub fn found(number: u16, n: u8, k1: u8, k2: u8) -> Decoded
    ensures { Answers decoded_told decoded_case (decoding_of k1 k2 (found_in number n k2)) result }
{
    let line = k2 % 8;
    if k2 / 8 % 2 == 0 {
        return Decoded::Marked(Mark::Architecture);
    }
    if line == 0b111 {
        return Decoded::Alarm;
    }
    if line != 0b000 && line != 0b110 {
        return Decoded::Marked(Mark::LineBits);
    }
    if !listed_in(number) {
        return Decoded::Marked(Mark::Code);
    }
    if !usable_in(number, n) {
        return Decoded::Marked(Mark::Channel);
    }
    if n < k2 / 16 {
        return Decoded::Marked(Mark::Bridged);
    }
    Decoded::Usable(Pair {
        code: k1 / 16,
        channel: k1 % 16,
        bridged: k2 / 16,
        remote: line == 0b110,
    })
}

fn line_bits(remote: bool) -> u8
    ensures { result ≡ line_of remote }
{
    if remote { 0b110 } else { 0b000 }
}

#[tactic(auto, using(crate::proofs::Coding::encoded_by, crate::proofs::Coding::four_bits), unfolding(crate::specs::Coder::encoding))]
pub fn encode(n: u8, p: Pair) -> Result<[u8; 2], Refusal>
    ensures { Answers encoding_told encoding_case (encoding n p) result }
{
    if !sections_fit(n) {
        return Err(Refusal::Sections);
    }
    if !carried(n, p.code, p.channel) || n < p.bridged {
        return Err(Refusal::NotDecoded);
    }
    Ok([
        p.code * 16 + p.channel,
        p.bridged * 16 + 0b1000 + line_bits(p.remote),
    ])
}
