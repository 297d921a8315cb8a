// Reader and writer of capture books (01, 'Capture book' and refusals 20 to 30; 02, f: 31 and 32, g: hold).
#![tactic(auto)]

mod format;
mod reader;
mod settings;
mod writer;

ghost use Rattle.basics.specs.Answer.{Answers};
ghost use Rattle.basics.specs.Refusal.{refusal_told};
ghost use Rattle.book.specs.Format.{hold_in, body_of, contents_in, bytes_of};
ghost use Rattle.book.specs.Reader.{reading_told, reading_case, reading};
ghost use Rattle.book.specs.Writer.{writing_told, writing_case, writing, output};
ghost use Rattle.std.specs.Prelude.{length, take, ◌≡◌};

use crate::format::{Entries, MOST, body_size, entry_in, first_body};
use crate::writer::put_book;
use basics::refusal::Refusal;
use basics::settings::Settings;

// One byte more than a book may have, so that a longer input reads as too long (refusal 20).
pub const INPUT: usize = MOST + 1;

// No capture of a book has more steps, of four bytes each.
pub const STEPS: usize = MOST / 4;

// One capture: its settings n, mask and W with a spare byte, which is 1 for hold and else 0; the offset of its body and the
// number of its steps. (The spare byte is no bool: refusal 25 is about its other values.)
#[derive(Clone, Copy, Debug, Default, PartialEq, Eq)]
pub struct Entry {
    pub n: u8,
    pub spare: u8,
    pub mask: u16,
    pub w: u16,
    pub offset: u32,
    pub steps: u16,
}

impl Entry {
    // The setting hold of a capture: spare byte 1 (02, g).
    pub fn hold(self) -> bool
        ensures { result ≡ hold_in self }
    {
        self.spare == 1
    }

    // What a controller, or the judge, is given of a capture.
    pub fn settings(self) -> Settings
        ensures { result ≡ record { n = self.n; hold = hold_in self; mask = self.mask; w = self.w } }
    {
        Settings {
            n: self.n,
            hold: hold_in(self),
            mask: self.mask,
            w: self.w,
        }
    }
}

// (The paper's own form is a count and 64 places: those past the count read as zeros.)
#[derive(Clone, Copy, Debug, PartialEq, Eq)]
pub struct Contents {
    pub count: u8,
    pub entries: [Entry; 64],
}

impl Contents {
    // The entries that count.
    pub fn captures(&self) -> &[Entry]
        ensures { result.now ≡ take self.now.count self.now.entries }
    {
        let end = usize::from(self.count).min(64);
        &self.entries[..end]
    }
}

pub fn read(book: &[u8]) -> Result<Contents, Refusal>
    ensures { Answers reading_told reading_case (reading book.now) result }
{
    reader::check(book)?;
    let count = book[1];
    let end = first_body(count);
    let listed = Entries {
        left: &book[2..end],
    };
    let mut entries = [Entry::default(); 64];
    // (By places: of what is written through `iter_mut` nothing is known afterwards.)
    for (i, part) in listed.enumerate() {
        entries[i] = entry_in(part);
    }
    Ok(Contents { count, entries })
}

// The same, under the name that README and PROMISES have.
pub fn hold_in(e: Entry) -> bool
    ensures { result ≡ hold_in e }
{
    e.hold()
}

// The body of a capture, a part of the book: what the book has of it, where the entry is not one that was read there.
pub fn body(book: &[u8], e: Entry) -> &[u8]
    ensures { result.now ≡ body_of book.now e }
{
    // (The library has no `From` between u32 and usize.)
    let at = e.offset as usize;
    if book.len() < at {
        return &book[..0];
    }
    let rest = &book[at..];
    let size = body_size(e);
    if rest.len() < size {
        return rest;
    }
    &rest[..size]
}

// Contents in 769 bytes by themselves: the count, then 64 places. They are the book's own bytes, with zeros behind them.
pub fn read_into(book: &[u8], out: &mut [u8; 769]) -> Result<(), Refusal>
    ensures value { refusal_told result ≡ (reading book.now).refusal }
    ensures out_after { out.new ≡ bytes_of (reading book.now).contents }
{
    *out = [0; 769];
    reader::check(book)?;
    let end = first_body(book[1]);
    let listed = &book[1..end];
    let size = listed.len();
    out[..size].copy_from_slice(listed);
    Ok(())
}

pub fn write(contents: &[u8; 769], bodies: &[u8], out: &mut [u8]) -> Result<usize, Refusal>
    ensures answers { Answers writing_told writing_case (writing (contents_in contents.now) (length bodies.now) (length out.old)) result }
    ensures out_after { out.new ≡ output (contents_in contents.now) bodies.now out.old }
{
    let size = writer::check(contents, bodies.len(), out.len())?;
    put_book(contents, bodies, out);
    Ok(size)
}
