// Refusals 23, 25, 31, 32, 30, 20 and 29, and the bytes of a book that has none of them (01, 'Capture book'; 02, f and g).
// What is handed in are contents in 769 bytes by themselves.
ghost use Rattle.std.specs.Prelude.{◌+◌, ◌*◌, ◌≤◌, length, drop, ◌++◌, ◌≡◌};
ghost use Rattle.basics.specs.Answer.{Answers};
ghost use Rattle.basics.specs.First.{first_of};
ghost use Rattle.basics.specs.Refusal.{refusal_told};
ghost use Rattle.book.specs.Format.{contents_in, entries_left, first_body, placed, contents_bytes, book_of};
ghost use Rattle.book.specs.Writer.{counted, steps_of, size, entries_faults, write_refusal, writing_told, writing_case, writing};
ghost use Rattle.std.proofs.lemmas.List.Edits.{sets};

use crate::format::{ENTRY, Entries, MOST, body_size, entry_in, first_body, placed_at};
use crate::settings::check_settings;
use basics::refusal::Refusal;

// The entries that count.
fn counted(contents: &[u8; 769]) -> Entries<'_>
    requires { (contents_in contents.now).count ≤ 64 }
    ensures { entries_left result ≡ counted (contents_in contents.now) }
{
    let end = 1 + ENTRY * usize::from(contents[0]);
    Entries {
        left: &contents[1..end],
    }
}

// Entry by entry, their settings.
fn check_entries(captures: Entries) -> Result<(), Refusal>
    ensures { refusal_told result ≡ first_of (entries_faults (entries_left captures.entry)) }
{
    for part in captures {
        check_settings(entry_in(part))?;
    }
    Ok(())
}

// A loop: `sum` over an iterator of one's own leaves its bound to be proved all the same.
fn steps_in(listed: Entries) -> usize
    requires { length (entries_left listed) ≤ 64 }
    ensures { (result ≡ steps_of (entries_left listed.entry)) × (result ≤ 64 * 65535) }
{
    let mut total = 0;
    for part in listed {
        total += usize::from(entry_in(part).steps);
    }
    total
}

// The size of the book, or what refuses it.
pub(crate) fn check(contents: &[u8; 769], bodies: usize, room: usize) -> Result<usize, Refusal>
    ensures { Answers writing_told writing_case (writing (contents_in contents.now) bodies room) result }
{
    let count = contents[0];
    if 64 < count {
        return Err(Refusal::BookCount);
    }
    check_entries(counted(contents))?;
    if bodies != 4 * steps_in(counted(contents)) {
        return Err(Refusal::BodiesLength);
    }
    let size = first_body(count) + bodies;
    if MOST < size {
        return Err(Refusal::BookLength);
    }
    if room < size {
        return Err(Refusal::OutputShort);
    }
    Ok(size)
}

// Capture by capture: its entry, and its body in the part of the output that starts at its offset.
fn put_captures(contents: &[u8; 769], bodies: &[u8], out: &mut [u8])
    requires { write_refusal (contents_in contents.now) (length bodies.now) (length out.old) ≡ 0 }
    ensures { out.new ≡ sets (sets out.old 2 (contents_bytes (placed (first_body (contents_in contents.now).count) (counted (contents_in contents.now))))) (first_body (contents_in contents.now).count) bodies.now }
{
    let mut at = first_body(contents[0]);
    let mut left = bodies;
    // Each body goes into a part of the output that starts at its offset: the project's form for this place.
    for (i, part) in counted(contents).enumerate() {
        let place = 2 + ENTRY * i;
        out[place..place + ENTRY].copy_from_slice(&placed_at(part, at as u32));
        let (body, rest) = left.split_at(body_size(entry_in(part)));
        let end = at + body.len();
        out[at..end].copy_from_slice(body);
        at = end;
        left = rest;
    }
}

pub(crate) fn put_book(contents: &[u8; 769], bodies: &[u8], out: &mut [u8])
    requires { write_refusal (contents_in contents.now) (length bodies.now) (length out.old) ≡ 0 }
    ensures { out.new ≡ book_of (counted (contents_in contents.now)) bodies.now ++ drop (size (contents_in contents.now) (length bodies.now)) out.old }
{
    out[0] = 1;
    out[1] = contents[0];
    put_captures(contents, bodies, out);
}
