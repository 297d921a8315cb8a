// Reads one capture book from standard input, and prints the steps of its captures at which the sent K1 changes (02, e).
#![tactic(auto)]

mod line;

use crate::line::put_capture;
use book::{STEPS, body};
use listing::list;

fn main() {
    // The sent K1 may change at each step.
    let mut changes = [0u16; STEPS];
    list("capture step k1 request channel", |page, book, number, e| {
        put_capture(page, number, body(book, e), &mut changes);
    });
}
