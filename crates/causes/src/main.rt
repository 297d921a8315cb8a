// Reads one capture book from standard input, and prints for each step of its explained captures what explains it (02, a).
#![tactic(auto)]

mod line;
mod table;

use crate::table::put_capture;
use book::STEPS;
use listing::list;

fn main() {
    // So no table is too short (refusal 11).
    let mut conditions = [0u32; STEPS];
    let mut commands = [0u16; STEPS];
    list(
        "capture step received sent conditions command",
        |page, book, number, e| {
            put_capture(page, book, number, e, &mut conditions, &mut commands);
        },
    );
}
