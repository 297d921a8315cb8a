// Contents and bodies for the writer, and the example book.
use book::{Contents, Entry};
use page::front;
use std::{array, fmt};

// How many bytes of bodies are made, and of output are lent to the writer.
pub(crate) const ROOM: usize = 65600;

// The example book: the contents entry by entry, then the bodies step by step.
pub(crate) const PAPER: &[u8; 46] = b"\x01\x02\
    \x02\x00\x00\x00\x00\x03\x00\x00\x00\x1A\x00\x03\
    \x02\x00\x00\x00\x00\x03\x00\x00\x00\x26\x00\x02\
    \x00\x08\xA2\x08\x22\x28\xA2\x28\x22\x28\x62\x28\
    \x00\x08\xA2\x08\x22\x28\xA2\x08";

// Where its bodies start.
const BODIES: usize = 26;

// The writer does not look at the offset.
pub(crate) const PLACE: Entry = Entry {
    n: 1,
    spare: 0,
    mask: 0,
    w: 0,
    offset: 12345678,
    steps: 0,
};

// A place past the count, which the writer does not look at: it would be refused.
const UNSEEN: Entry = Entry {
    n: 0,
    spare: 9,
    mask: 9,
    w: 9,
    offset: 12345678,
    steps: 9,
};

// Contents of these entries.
pub(crate) fn contents_of(listed: &[Entry]) -> Contents {
    let count = listed.len().min(64);
    let mut entries = [UNSEEN; 64];
    entries[..count].copy_from_slice(&listed[..count]);
    Contents {
        count: count as u8,
        entries,
    }
}

// Byte j is 7 j + 3.
pub(crate) fn bodies_by_rule() -> [u8; ROOM] {
    array::from_fn(|j| ((j % 256 * 7 + 3) % 256) as u8)
}

// The entries of the example book.
pub(crate) const PAPER_ENTRIES: [Entry; 2] = [
    Entry {
        n: 2,
        w: 3,
        steps: 3,
        ..PLACE
    },
    Entry {
        n: 2,
        w: 3,
        steps: 2,
        ..PLACE
    },
];

const STILL: [Entry; 3] = [
    PLACE,
    Entry {
        n: 14,
        mask: 16383,
        w: 1,
        steps: 1,
        ..PLACE
    },
    Entry {
        mask: 1,
        w: 65535,
        ..PLACE
    },
];

const LARGEST: Entry = Entry {
    n: 14,
    mask: 10922,
    w: 300,
    steps: 16380,
    ..PLACE
};

// Every n, with masks that fit it, and every other one with hold.
fn many(i: usize) -> Entry {
    let j = (i % 64) as u16;
    let k = j % 14;
    Entry {
        n: (k + 1) as u8,
        spare: (j % 2) as u8,
        mask: (1000 * j + 7) >> (15 - k),
        w: 65535 - j,
        steps: j % 5,
        ..PLACE
    }
}

// Every n, with all sections of high priority, and with hold.
fn quiet(i: usize) -> Entry {
    let k = (i % 14) as u8;
    Entry {
        n: 14 - k,
        spare: 1,
        mask: 65535 >> (2 + k),
        w: 300,
        ..PLACE
    }
}

#[derive(Clone, Copy, Debug, PartialEq, Eq)]
pub(crate) enum Draft {
    Empty,
    Paper,
    Still,
    Many,
    Quiet,
    Largest,
}

impl Draft {
    pub(crate) const ALL: [Draft; 6] = [
        Draft::Empty,
        Draft::Paper,
        Draft::Still,
        Draft::Many,
        Draft::Quiet,
        Draft::Largest,
    ];

    pub(crate) fn contents(self) -> Contents {
        match self {
            Draft::Empty => contents_of(&[]),
            Draft::Paper => contents_of(&PAPER_ENTRIES),
            Draft::Still => contents_of(&STILL),
            Draft::Many => contents_of(&array::from_fn::<Entry, 64, _>(many)),
            Draft::Quiet => contents_of(&array::from_fn::<Entry, 64, _>(quiet)),
            Draft::Largest => contents_of(&[LARGEST]),
        }
    }

    // As many bytes as the steps call for: the example's bodies are its own, all others by the rule.
    pub(crate) fn bodies(self, by_rule: &[u8]) -> &[u8] {
        match self {
            Draft::Empty | Draft::Quiet => &[],
            Draft::Paper => PAPER.split_at(BODIES).1,
            Draft::Still => front(by_rule, 4),
            Draft::Many => front(by_rule, 504),
            Draft::Largest => front(by_rule, 65520),
        }
    }
}

impl fmt::Display for Draft {
    fn fmt<W: fmt::Write>(&self, f: &mut fmt::Formatter<W>) -> fmt::Result {
        f.write_str(match self {
            Draft::Empty => "empty",
            Draft::Paper => "paper",
            Draft::Still => "still",
            Draft::Many => "many",
            Draft::Quiet => "quiet",
            Draft::Largest => "largest",
        })
    }
}
