// Prints what the paper's tables and sequences come to, for comparison with the stored output and with the peer.
#![tactic(auto)]

mod answer;
mod coder;
mod hold;
mod refusals;
mod sequence;
mod steps;
mod table;
mod walks;

use page::Output;
use std::fmt;
use std::fmt::Write;

fn print_all(out: &mut impl Write) -> fmt::Result {
    coder::print_tables(out)?;
    steps::print_sequences(out)?;
    hold::print_sequences(out)?;
    table::print_table(out)?;
    refusals::print_refusals(out)?;
    walks::print_walks(out)
}

// Nothing fails: a piece whose write fails goes unseen (`output_right` of `page`).
fn main() {
    let _ = print_all(&mut Output);
}
