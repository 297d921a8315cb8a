// Table 7-4 as corrected in document 003: both ends, a row a step, W = 1 so that the wait takes one row.
use crate::answer::Answer;
use crate::sequence::{TWO, start};
use basics::settings::Settings;
use controller::Controller;
use std::fmt;
use std::fmt::Write;

// The K1 and K2 that an end sent last, printed as their bits in groups of four.
#[derive(Clone, Copy)]
struct Sent {
    k1: u8,
    k2: u8,
}

impl fmt::Display for Sent {
    fn fmt<W: fmt::Write>(&self, f: &mut fmt::Formatter<W>) -> fmt::Result {
        let Sent { k1, k2 } = *self;
        write!(f, "{:04b} {:04b} ", k1 / 16, k1 % 16)?;
        write!(f, "{:04b} {:04b}", k2 / 16, k2 % 16)
    }
}

#[derive(Clone, Copy)]
struct End {
    controller: Controller,
    sent: Sent,
    selector: u8,
}

impl End {
    fn new() -> End {
        End {
            controller: start(Settings { w: 1, ..TWO }),
            sent: Sent { k1: 0x00, k2: 0x08 },
            selector: 0,
        }
    }

    // A step on what the other end sent.
    fn step(self, received: Sent, conditions: &[u8]) -> End {
        let Sent { k1, k2 } = received;
        let answer = Answer(self.controller.step(k1, k2, conditions, 0, 0));
        let [_, k1, k2, _, selector, _, _] = answer.numbers();
        End {
            controller: answer.controller(),
            sent: Sent { k1, k2 },
            selector,
        }
    }
}

// Who takes a step in a row, on which conditions. Both take it on what the other had sent before this row.
#[derive(Clone, Copy)]
enum Row {
    C([u8; 3]),
    A([u8; 3]),
    Both,
}

use Row::{A, Both, C};

impl fmt::Display for Row {
    fn fmt<W: fmt::Write>(&self, f: &mut fmt::Formatter<W>) -> fmt::Result {
        match self {
            C(_) => write!(f, "C "),
            A(_) => write!(f, "A "),
            Both => write!(f, "CA"),
        }
    }
}

const ROWS: [Row; 18] = [
    Both,
    // Section 2 is degraded, as C sees it.
    C([0, 0, 1]),
    A([0, 0, 0]),
    C([0, 0, 1]),
    A([0, 0, 0]),
    // Section 1 fails, as A sees it, with section 2 still degraded at C.
    A([0, 2, 0]),
    C([0, 0, 1]),
    A([0, 2, 0]),
    C([0, 0, 1]),
    // Section 1 is repaired, with section 2 still degraded at C.
    A([0, 0, 0]),
    C([0, 0, 1]),
    A([0, 0, 0]),
    C([0, 0, 1]),
    A([0, 0, 0]),
    // Section 2 is repaired, and the wait ends.
    C([0, 0, 0]),
    C([0, 0, 0]),
    A([0, 0, 0]),
    Both,
];

#[derive(Clone, Copy)]
struct Ends {
    c: End,
    a: End,
}

impl Ends {
    fn step(self, row: Row) -> Ends {
        let Ends { c, a } = self;
        match row {
            C(conditions) => Ends {
                c: c.step(a.sent, &conditions),
                a,
            },
            A(conditions) => Ends {
                c,
                a: a.step(c.sent, &conditions),
            },
            Both => Ends {
                c: c.step(a.sent, &[0, 0, 0]),
                a: a.step(c.sent, &[0, 0, 0]),
            },
        }
    }
}

impl fmt::Display for Ends {
    fn fmt<W: fmt::Write>(&self, f: &mut fmt::Formatter<W>) -> fmt::Result {
        let Ends { c, a } = *self;
        write!(f, "{} {} {} {}", c.sent, a.sent, c.selector, a.selector)
    }
}

pub(crate) fn print_table(out: &mut impl Write) -> fmt::Result {
    writeln!(
        out,
        "\nTable 7-4 as corrected in document 003, n 2 mask 0 W 1: row, who steps, C to A, A to C, selectors of C and A"
    )?;
    let mut ends = Ends {
        c: End::new(),
        a: End::new(),
    };
    for (i, row) in ROWS.iter().enumerate() {
        ends = ends.step(*row);
        writeln!(out, "{:>2} {row} {ends}", i + 1)?;
    }
    Ok(())
}
