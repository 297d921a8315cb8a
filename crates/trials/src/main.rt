// Reader and writer of capture books on drawn-up cases, their answers printed: round trips, each refusal alone and two at
// once, every value of each byte of the contents, every length, settings, and the body of any entry.
#![tactic(auto)]

mod answers;
mod digest;
mod drafts;
mod listing;
mod parts;
mod reader;
mod rounds;
mod settings;
mod writer;

use page::Output;
use std::fmt;
use std::fmt::Write;

fn print_all<W: Write>(to: &mut W) -> fmt::Result {
    let bodies = drafts::bodies_by_rule();
    let mut out = [0; drafts::ROOM];
    rounds::print_rounds(to, &bodies, &mut out)?;
    reader::print_faults(to)?;
    reader::print_bytes(to)?;
    reader::print_lengths(to)?;
    settings::print_reader(to)?;
    writer::print_calls(to, &bodies, &mut out)?;
    settings::print_writer(to, &bodies, &mut out)?;
    parts::print_parts(to)
}

// Nothing fails: a piece whose write fails goes unseen (`output_right` of `page`).
fn main() {
    let _ = print_all(&mut Output);
}
