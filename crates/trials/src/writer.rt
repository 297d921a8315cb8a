// Refusals of the writer, alone and two at once.
use crate::answers::Written;
use crate::drafts::{PAPER_ENTRIES, contents_of};
use Change::{Bodies, Count, First, Room, Second};
use Setting::{Mask, N, Spare, Steps};
use basics::refusal::Refusal;
use book::{Contents, Entry};
use page::front;
use std::fmt;
use std::fmt::Write;

#[derive(Clone, Copy, Debug, PartialEq, Eq)]
enum Setting {
    N(u8),
    Spare(u8),
    Mask(u16),
    Steps(u16),
}

// The count, a setting of place 0 or 1, the bytes of the bodies, or the room of the output.
#[derive(Clone, Copy, Debug, PartialEq, Eq)]
enum Change {
    Count(u8),
    First(Setting),
    Second(Setting),
    Bodies(usize),
    Room(usize),
}

// The changes of each fault, of which the first changes nothing.
const FAULTS: [&[Change]; 23] = [
    &[],
    &[Count(65)],
    &[Count(255)],
    &[Bodies(19)],
    &[Bodies(24)],
    &[First(Steps(4))],
    &[Count(1)],
    &[First(Steps(65535)), Second(Steps(6))],
    &[First(Steps(16376)), Second(Steps(2)), Bodies(65512)],
    &[Room(45)],
    &[Room(0)],
    &[Room(65600)],
    &[
        First(Steps(16375)),
        Second(Steps(2)),
        Bodies(65508),
        Room(65534),
    ],
    &[Count(0), Bodies(0)],
    &[First(N(0))],
    &[Second(N(15))],
    &[First(Mask(4))],
    &[Second(Mask(32768))],
    &[Second(N(1))],
    &[Second(Mask(3))],
    &[First(Spare(2))],
    &[Second(Spare(255))],
    &[First(Spare(1))],
];

fn with_setting(e: Entry, setting: Setting) -> Entry {
    match setting {
        N(n) => Entry { n, ..e },
        Spare(spare) => Entry { spare, ..e },
        Mask(mask) => Entry { mask, ..e },
        Steps(steps) => Entry { steps, ..e },
    }
}

// What the writer is handed: the count, places 0 and 1, the bytes of the bodies, the room of the output.
#[derive(Clone, Copy)]
struct Call {
    count: u8,
    first: Entry,
    second: Entry,
    bodies: usize,
    room: usize,
}

impl Call {
    // The call that writes the example book.
    fn paper() -> Call {
        let [first, second] = PAPER_ENTRIES;
        Call {
            count: 2,
            first,
            second,
            bodies: 20,
            room: 46,
        }
    }

    fn changed(self, change: &Change) -> Call {
        match *change {
            Count(count) => Call { count, ..self },
            First(setting) => Call {
                first: with_setting(self.first, setting),
                ..self
            },
            Second(setting) => Call {
                second: with_setting(self.second, setting),
                ..self
            },
            Bodies(bodies) => Call { bodies, ..self },
            Room(room) => Call { room, ..self },
        }
    }

    fn with(self, fault: &[Change]) -> Call {
        fault.iter().fold(self, Call::changed)
    }

    fn written<'a>(self, bodies: &[u8], out: &'a mut [u8]) -> Written<'a> {
        let contents = Contents {
            count: self.count,
            ..contents_of(&[self.first, self.second])
        };
        Written::new(&contents, front(bodies, self.bodies), self.room, out)
    }
}

// The refusal of the paper's call with other settings in its last place.
pub(crate) fn refusal_with(n: u8, mask: u16, bodies: &[u8], out: &mut [u8]) -> Option<Refusal> {
    let call = Call::paper().with(&[Second(N(n)), Second(Mask(mask))]);
    call.written(bodies, out).refusal()
}

pub(crate) fn print_calls<W: Write>(to: &mut W, bodies: &[u8], out: &mut [u8]) -> fmt::Result {
    writeln!(to, "writer")?;
    for (f, fault) in FAULTS.iter().enumerate() {
        for (g, other) in FAULTS.iter().enumerate() {
            let written = Call::paper().with(fault).with(other).written(bodies, out);
            writeln!(to, "{f} {g} {written}")?;
        }
    }
    Ok(())
}
