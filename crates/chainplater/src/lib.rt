// The door for C and Rust: numbers and bytes alone. `include/chainplater.h` says the same to a C programmer.
#![tactic(auto)]

mod answers;
mod caller;
mod record;

ghost use Rattle.basics.specs.Bytes.{two_bytes, four_bytes};
ghost use Rattle.book.specs.Format.{contents_in, bytes_of};
ghost use Rattle.book.specs.Reader.{reading};
ghost use Rattle.book.specs.Writer.{writing, output};
ghost use Rattle.chainplater.specs.Coder.{value_bytes, decoded_bytes, encoded_bytes, encoding_bytes};
ghost use Rattle.chainplater.specs.Record.{record_bytes, fresh_for, step_bytes};
ghost use Rattle.chainplater.specs.Switches.{looked_bytes};
ghost use Rattle.chainplater.specs.Verdict.{Judged, CausesTold};
ghost use Rattle.pair.specs.Coder.{decoding};
ghost use Rattle.pair.specs.Request.{requests};
ghost use Rattle.pair.specs.Table.{value_of};
ghost use Rattle.switches.specs.Extend.{extending, extended};
ghost use Rattle.switches.specs.LastChange.{looking};
ghost use Rattle.report.specs.Table.{Printed};
ghost use Rattle.std.specs.Prelude.{length, get_or, ◌≡◌};

use crate::answers::{
    caused, decoded, encoded, extended, fresh, judged, looked_up, value_bytes, written,
};
use crate::caller::put;
use crate::record::step_bytes;
use basics::refusal::number_or_0;
use pair::table::value_of;

#[unsafe(no_mangle)]
pub extern "C" fn chainplater_fresh(
    n: u8,
    options: u8,
    mask: u16,
    wait: u16,
    out: &mut [u8; 12],
) -> u8
    ensures value { result ≡ (fresh_for n options mask wait).refusal }
    ensures out_after { out.new ≡ record_bytes (fresh_for n options mask wait).controller }
{
    put(fresh(n, options, mask, wait), out)
}

#[unsafe(no_mangle)]
pub extern "C" fn chainplater_k1(k1: u8, out: &mut [u8; 4])
    ensures { out.new ≡ value_bytes (value_of requests k1) }
{
    *out = value_bytes(value_of(k1));
}

#[unsafe(no_mangle)]
pub extern "C" fn chainplater_decode(n: u8, k1: u8, k2: u8, out: &mut [u8; 6]) -> u8
    ensures value { result ≡ (decoding n k1 k2).refusal }
    ensures out_after { out.new ≡ decoded_bytes (decoding n k1 k2) }
{
    put(decoded(n, k1, k2), out)
}

#[unsafe(no_mangle)]
pub extern "C" fn chainplater_encode(
    n: u8,
    code: u8,
    channel: u8,
    bridged: u8,
    remote: u8,
    out: &mut [u8; 2],
) -> u8
    ensures value { result ≡ (encoding_bytes n code channel bridged remote).refusal }
    ensures out_after { out.new ≡ encoded_bytes (encoding_bytes n code channel bridged remote) }
{
    put(encoded(n, code, channel, bridged, remote), out)
}

#[unsafe(no_mangle)]
pub extern "C" fn chainplater_step(
    given: &[u8; 12],
    k1: u8,
    k2: u8,
    conditions: &[u8],
    command: u8,
    channel: u8,
    out: &mut [u8; 19],
) -> u8
    ensures value { result ≡ get_or (step_bytes given.now k1 k2 conditions.now command channel) 0 0 }
    ensures out_after { out.new ≡ step_bytes given.now k1 k2 conditions.now command channel }
{
    *out = step_bytes(given, k1, k2, conditions, command, channel);
    out[0]
}

#[unsafe(no_mangle)]
pub extern "C" fn chainplater_judge(
    n: u8,
    options: u8,
    mask: u16,
    wait: u16,
    capture: &[u8],
    out: &mut [u8; 3],
) -> u8
    ensures { Judged n options mask wait capture.now result out.new }
{
    put(judged(n, options, mask, wait, capture), out)
}

#[unsafe(no_mangle)]
pub extern "C" fn chainplater_causes(
    n: u8,
    options: u8,
    mask: u16,
    wait: u16,
    capture: &[u8],
    conditions: &mut [u32],
    commands: &mut [u16],
    out: &mut [u8; 3],
) -> u8
    ensures { CausesTold n options mask wait capture.now conditions.old commands.old result conditions.new commands.new out.new }
{
    put(
        caused(n, options, mask, wait, capture, conditions, commands),
        out,
    )
}

#[unsafe(no_mangle)]
pub extern "C" fn chainplater_switches(
    capture: &[u8],
    listed: u16,
    count: u16,
    table: &mut [u16],
    out: &mut [u8; 2],
) -> u8
    ensures value { result ≡ (extending capture.now listed count table.old).refusal }
    ensures table_after { table.new ≡ extended capture.now listed count table.old }
    ensures out_after { out.new ≡ two_bytes (extending capture.now listed count table.old).number }
{
    put(extended(capture, listed, count, table), out)
}

#[unsafe(no_mangle)]
pub extern "C" fn chainplater_last_change(
    capture: &[u8],
    list: &[u16],
    step: u16,
    out: &mut [u8; 3],
) -> u8
    ensures value { result ≡ (looking capture.now list.now step).refusal }
    ensures out_after { out.new ≡ looked_bytes (looking capture.now list.now step) }
{
    put(looked_up(capture, list, step), out)
}

#[unsafe(no_mangle)]
pub extern "C" fn chainplater_read(book: &[u8], out: &mut [u8; 769]) -> u8
    ensures value { result ≡ (reading book.now).refusal }
    ensures out_after { out.new ≡ bytes_of (reading book.now).contents }
{
    number_or_0(&book::read_into(book, out))
}

#[unsafe(no_mangle)]
pub extern "C" fn chainplater_write(
    contents: &[u8; 769],
    bodies: &[u8],
    out: &mut [u8],
    size: &mut [u8; 4],
) -> u8
    ensures value { result ≡ (writing (contents_in contents.now) (length bodies.now) (length out.old)).refusal }
    ensures out_after { out.new ≡ output (contents_in contents.now) bodies.now out.old }
    ensures size_after { size.new ≡ four_bytes (writing (contents_in contents.now) (length bodies.now) (length out.old)).bytes }
{
    put(written(contents, bodies, out), size)
}

#[unsafe(no_mangle)]
pub extern "C" fn chainplater_table(book: &[u8], out: &mut [u8; 2048]) -> usize
    ensures { Printed book.now out.old out.new result }
{
    report::put_table(book, out)
}
