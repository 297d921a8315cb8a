// The bytes of what the crates below answer; a refusal is handed on. Settings come as C hands them in, with the options byte, by
// which the definitions go (`fresh_for`, `RightFor`, `CausesFor`).
ghost use Rattle.basics.specs.Bytes.{two_bytes, four_bytes};
ghost use Rattle.basics.specs.Refusal.{refusal_told};
ghost use Rattle.book.specs.Format.{contents_in};
ghost use Rattle.book.specs.Writer.{writing, output};
ghost use Rattle.chainplater.specs.Caller.{bytes_told};
ghost use Rattle.chainplater.specs.Coder.{value_bytes, decoded_bytes, encoded_bytes, encoding_bytes};
ghost use Rattle.chainplater.specs.Record.{record_bytes, fresh_for};
ghost use Rattle.chainplater.specs.Switches.{looked_bytes};
ghost use Rattle.chainplater.specs.Verdict.{judging_bytes, Judged, CausesTold};
ghost use Rattle.explain.specs.Verdict.{told};
ghost use Rattle.pair.specs.Coder.{decoding};
ghost use Rattle.pair.specs.Table.{value_told};
ghost use Rattle.switches.specs.Extend.{extending, extended};
ghost use Rattle.switches.specs.LastChange.{looking};
ghost use Rattle.std.specs.Prelude.{length, ◌≡◌};

use crate::caller::settings;
use crate::record::record_bytes;
use basics::refusal::Refusal;
use basics::settings::sections_fit;
use controller::Controller;
use explain::Verdict;
use pair::mark::Mark;
use pair::{Decoded, Pair, Value};

#[tactic(auto, unfolding(crate::specs::Record::fresh_for, crate::specs::Record::record_bytes))]
pub(crate) fn fresh(n: u8, options: u8, mask: u16, w: u16) -> Result<[u8; 12], Refusal>
    ensures value { refusal_told result ≡ (fresh_for n options mask w).refusal }
    ensures bytes { bytes_told 12 result ≡ record_bytes (fresh_for n options mask w).controller }
{
    let controller = Controller::fresh(settings(n, options, mask, w)?)?;
    Ok(record_bytes(controller))
}

pub(crate) fn value_bytes(v: Value) -> [u8; 4]
    ensures { result ≡ value_bytes (value_told v) }
{
    [v.rank, v.least, v.greatest, Mark::number_or_0(v.mark)]
}

pub(crate) fn decoded(n: u8, k1: u8, k2: u8) -> Result<[u8; 6], Refusal>
    ensures value { refusal_told result ≡ (decoding n k1 k2).refusal }
    ensures bytes { bytes_told 6 result ≡ decoded_bytes (decoding n k1 k2) }
{
    Ok(match pair::decode(n, k1, k2)? {
        Decoded::Usable(p) => [0, p.code, p.channel, p.bridged, u8::from(p.remote), 0],
        Decoded::Marked(mark) => [mark.number(), 0, 0, 0, 0, 0],
        Decoded::Alarm => [0, 0, 0, 0, 0, 1],
    })
}

// No usable pair decodes to a flag above 1 (01, refusal 10); refusal 1 comes before it.
#[tactic(auto, unfolding(crate::specs::Coder::encoding_bytes))]
pub(crate) fn encoded(
    n: u8,
    code: u8,
    channel: u8,
    bridged: u8,
    remote: u8,
) -> Result<[u8; 2], Refusal>
    ensures value { refusal_told result ≡ (encoding_bytes n code channel bridged remote).refusal }
    ensures bytes { bytes_told 2 result ≡ encoded_bytes (encoding_bytes n code channel bridged remote) }
{
    if sections_fit(n) & (1 < remote) {
        return Err(Refusal::NotDecoded);
    }
    let p = Pair {
        code,
        channel,
        bridged,
        remote: remote == 1,
    };
    pair::encode(n, p)
}

fn verdict_bytes(verdict: Verdict) -> [u8; 3]
    ensures { result ≡ judging_bytes (told (Ok verdict)) }
{
    let (number, at) = match verdict {
        Verdict::Explained(steps) => (1, steps),
        Verdict::Unexplained(first) => (2, first),
    };
    let [high, low] = at.to_be_bytes();
    [number, high, low]
}

#[tactic(auto, unfolding(crate::specs::Verdict::RightFor))]
pub(crate) fn judged(
    n: u8,
    options: u8,
    mask: u16,
    w: u16,
    capture: &[u8],
) -> Result<[u8; 3], Refusal>
    ensures { Judged n options mask w capture.now (refusal_told result) (bytes_told 3 result) }
{
    let verdict = explain::judge(settings(n, options, mask, w)?, capture)?;
    Ok(verdict_bytes(verdict))
}

#[tactic(auto, unfolding(crate::specs::Verdict::CausesFor))]
pub(crate) fn caused(
    n: u8,
    options: u8,
    mask: u16,
    w: u16,
    capture: &[u8],
    conditions: &mut [u32],
    commands: &mut [u16],
) -> Result<[u8; 3], Refusal>
    ensures { CausesTold n options mask w capture.now conditions.old commands.old (refusal_told result) conditions.new commands.new (bytes_told 3 result) }
{
    let settings = settings(n, options, mask, w)?;
    let verdict = explain::judge_causes(settings, capture, conditions, commands)?;
    Ok(verdict_bytes(verdict))
}

pub(crate) fn extended(
    capture: &[u8],
    listed: u16,
    count: u16,
    table: &mut [u16],
) -> Result<[u8; 2], Refusal>
    ensures value { refusal_told result ≡ (extending capture.now listed count table.old).refusal }
    ensures table_after { table.new ≡ extended capture.now listed count table.old }
    ensures bytes { bytes_told 2 result ≡ two_bytes (extending capture.now listed count table.old).number }
{
    let number = switches::extend(capture, listed, count, table)?;
    Ok(number.to_be_bytes())
}

pub(crate) fn looked_up(capture: &[u8], list: &[u16], step: u16) -> Result<[u8; 3], Refusal>
    ensures value { refusal_told result ≡ (looking capture.now list.now step).refusal }
    ensures bytes { bytes_told 3 result ≡ looked_bytes (looking capture.now list.now step) }
{
    let Some(last) = switches::last_change(capture, list, step)? else {
        return Ok([0, 0, 0]);
    };
    let [high, low] = last.to_be_bytes();
    Ok([1, high, low])
}

// A book has at most 65,536 bytes.
pub(crate) fn written(
    contents: &[u8; 769],
    bodies: &[u8],
    out: &mut [u8],
) -> Result<[u8; 4], Refusal>
    ensures value { refusal_told result ≡ (writing (contents_in contents.now) (length bodies.now) (length out.old)).refusal }
    ensures out_after { out.new ≡ output (contents_in contents.now) bodies.now out.old }
    ensures bytes { bytes_told 4 result ≡ four_bytes (writing (contents_in contents.now) (length bodies.now) (length out.old)).bytes }
{
    let size = book::write(contents, bodies, out)?;
    Ok((size as u32).to_be_bytes())
}
