// Refusals of the reader on the example book with something changed in it.
use crate::answers::{Reading, number};
use crate::drafts::PAPER;
use Change::{Byte, Length};
use basics::refusal::Refusal;
use book::read;
use page::front;
use std::fmt;
use std::fmt::Write;

// The byte at a place, or the length of the book.
#[derive(Clone, Copy, Debug, PartialEq, Eq)]
enum Change {
    Byte(usize, u8),
    Length(usize),
}

// The changes of each fault, of which the first changes nothing.
const FAULTS: [&[Change]; 34] = [
    &[],
    &[Length(65537)],
    &[Length(1)],
    &[Length(0)],
    &[Byte(0, 2)],
    &[Byte(0, 0)],
    &[Byte(1, 65)],
    &[Byte(1, 255)],
    &[Length(25)],
    &[Byte(1, 4)],
    &[Byte(3, 2)],
    &[Byte(15, 255)],
    &[Byte(11, 27)],
    &[Byte(11, 25)],
    &[Byte(8, 1)],
    &[Byte(23, 39)],
    &[Byte(13, 6)],
    &[Byte(25, 3)],
    &[Byte(24, 255)],
    &[Length(45)],
    &[Length(47)],
    &[Byte(25, 1)],
    &[Length(65536)],
    &[Byte(13, 4)],
    &[Byte(1, 1)],
    &[Length(26)],
    &[Byte(2, 0)],
    &[Byte(14, 15)],
    &[Byte(2, 255)],
    &[Byte(5, 4)],
    &[Byte(16, 128)],
    &[Byte(2, 1)],
    &[Byte(5, 3)],
    &[Byte(3, 1)],
];

// How long a book may be made.
const LONGEST: usize = 65537;

// No fault names a place past the end; what is asked here stands in the place of a proof of that.
fn set_byte(book: &mut [u8], at: usize, to: u8) {
    if let Some(b) = book.get_mut(at) {
        *b = to;
    }
}

// The example book with the changes of two faults, one on top of the other. What is lent has zeros past the bytes of that book, and
// keeps them.
fn changed<'a>(room: &'a mut [u8; LONGEST], fault: &[Change], other: &[Change]) -> &'a [u8] {
    let mut book = *PAPER;
    let mut length = book.len();
    for change in fault.iter().chain(other) {
        match *change {
            Byte(at, to) => set_byte(&mut book, at, to),
            Length(to) => length = to,
        }
    }
    room[..book.len()].copy_from_slice(&book);
    front(room, length)
}

fn print_alone<W: Write>(to: &mut W, room: &mut [u8; LONGEST]) -> fmt::Result {
    writeln!(to, "reader alone")?;
    for (f, fault) in FAULTS.iter().enumerate() {
        let answer = read(changed(room, fault, &[]));
        writeln!(to, "{f} {}", Reading(&answer))?;
    }
    Ok(())
}

fn print_pairs<W: Write>(to: &mut W, room: &mut [u8; LONGEST]) -> fmt::Result {
    writeln!(to, "reader pairs")?;
    for (f, fault) in FAULTS.iter().enumerate() {
        write!(to, "{f}")?;
        for other in &FAULTS {
            let refusal = read(changed(room, fault, other)).err();
            write!(to, " {}", number(refusal))?;
        }
        writeln!(to)?;
    }
    Ok(())
}

pub(crate) fn print_faults<W: Write>(to: &mut W) -> fmt::Result {
    let mut room = [0; LONGEST];
    print_alone(to, &mut room)?;
    print_pairs(to, &mut room)
}

// What a book may be answered by, in the order in which it is counted.
const ANSWERS: [Option<Refusal>; 12] = [
    None,
    Some(Refusal::BookLength),
    Some(Refusal::BookShort),
    Some(Refusal::BookVersion),
    Some(Refusal::BookCount),
    Some(Refusal::ContentsCut),
    Some(Refusal::Options),
    Some(Refusal::Offset),
    Some(Refusal::BodyCut),
    Some(Refusal::BytesLeft),
    Some(Refusal::EntrySections),
    Some(Refusal::EntryMask),
];

// The refusals of the example book with each value of one byte.
fn refusals_at(place: usize) -> [Option<Refusal>; 256] {
    let mut refusals = [None; 256];
    for (value, refusal) in (0..=255).zip(&mut refusals) {
        let mut book = *PAPER;
        set_byte(&mut book, place, value);
        *refusal = read(&book).err();
    }
    refusals
}

pub(crate) fn print_bytes<W: Write>(to: &mut W) -> fmt::Result {
    writeln!(to, "reader bytes")?;
    for place in 0..26 {
        let refusals = refusals_at(place);
        write!(to, "{place}")?;
        for answer in &ANSWERS {
            let count = refusals.iter().filter(|r| *r == answer).count();
            write!(to, " {count}")?;
        }
        writeln!(to)?;
    }
    Ok(())
}

pub(crate) fn print_lengths<W: Write>(to: &mut W) -> fmt::Result {
    write!(to, "reader lengths\n{}", number(read(&[]).err()))?;
    for length in 1..=PAPER.len() {
        write!(to, " {}", number(read(&PAPER[..length]).err()))?;
    }
    writeln!(to)
}
