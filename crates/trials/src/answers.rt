// What reader and writer answered, and how it is printed.
use crate::digest::{of_bytes, of_contents};
use crate::listing::contents_bytes;
use basics::refusal::Refusal;
use book::{Contents, Entry, write};
use page::front;
use std::fmt;

// The contents of a book that is refused.
pub(crate) const NOTHING_READ: Contents = Contents {
    count: 0,
    entries: [Entry {
        n: 0,
        spare: 0,
        mask: 0,
        w: 0,
        offset: 0,
        steps: 0,
    }; 64],
};

// The number of a refusal, or 0.
pub(crate) fn number(refusal: Option<Refusal>) -> u8 {
    refusal.map_or(0, Refusal::number)
}

// Refusal, count and digest of what was read.
#[derive(Clone, Copy)]
pub(crate) struct Reading<'a>(pub(crate) &'a Result<Contents, Refusal>);

impl fmt::Display for Reading<'_> {
    fn fmt<W: fmt::Write>(&self, f: &mut fmt::Formatter<W>) -> fmt::Result {
        let contents = self.0.as_ref().unwrap_or(&NOTHING_READ);
        let refusal = number(self.0.err());
        let digest = of_contents(contents);
        write!(f, "{refusal} {} {digest}", contents.count)
    }
}

// The length and the digest of a body.
#[derive(Clone, Copy)]
pub(crate) struct Part<'a>(pub(crate) &'a [u8]);

impl fmt::Display for Part<'_> {
    fn fmt<W: fmt::Write>(&self, f: &mut fmt::Formatter<W>) -> fmt::Result {
        write!(f, "{} {}", self.0.len(), of_bytes(self.0))
    }
}

// What the writer answered, and all of the output, which is lent: by value it would be copied at each return.
#[derive(Drop)]
pub(crate) struct Written<'a> {
    out: &'a [u8],
    answer: Result<usize, Refusal>,
}

impl<'a> Written<'a> {
    pub(crate) fn new(
        contents: &Contents,
        bodies: &[u8],
        room: usize,
        out: &'a mut [u8],
    ) -> Written<'a> {
        out.fill(238);
        let room = room.min(out.len());
        let answer = write(&contents_bytes(contents), bodies, &mut out[..room]);
        Written { out, answer }
    }

    fn size(&self) -> usize {
        self.answer.unwrap_or(0)
    }

    pub(crate) fn refusal(&self) -> Option<Refusal> {
        self.answer.err()
    }

    pub(crate) fn book(&self) -> &[u8] {
        front(self.out, self.size())
    }
}

// Refusal, size and digest of the output.
impl fmt::Display for Written<'_> {
    fn fmt<W: fmt::Write>(&self, f: &mut fmt::Formatter<W>) -> fmt::Result {
        write!(
            f,
            "{} {} {}",
            number(self.refusal()),
            self.size(),
            of_bytes(self.out)
        )
    }
}
