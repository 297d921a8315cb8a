// The body of any entry, also of one that was not read.
use crate::answers::Part;
use crate::drafts::{PAPER, PLACE};
use book::{Entry, body};
use std::fmt;
use std::fmt::Write;

// Offsets and steps: four of bodies that lie in the book, then those that leave it.
const PLACES: [(u32, u16); 12] = [
    (26, 3),
    (38, 2),
    (0, 0),
    (46, 0),
    (46, 1),
    (45, 1),
    (44, 1),
    (47, 1),
    (4294967295, 65535),
    (2, 65535),
    (0, 11),
    (0, 12),
];

pub(crate) fn print_parts<W: Write>(to: &mut W) -> fmt::Result {
    writeln!(to, "bodies")?;
    for (offset, steps) in PLACES {
        let e = Entry {
            offset,
            steps,
            ..PLACE
        };
        writeln!(to, "{offset} {steps} {}", Part(body(PAPER, e)))?;
    }
    Ok(())
}
