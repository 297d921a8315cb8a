// Round trips: contents are written, the book is read, and what was read is written again.
use crate::answers::{NOTHING_READ, Part, Reading, Written};
use crate::drafts::{Draft, ROOM};
use book::{Contents, Entry, body, read};
use page::Page;
use std::fmt;
use std::fmt::Write;

fn print_entry<W: Write>(to: &mut W, book: &[u8], e: &Entry) -> fmt::Result {
    let Entry {
        n,
        spare,
        mask,
        w,
        offset,
        steps,
    } = *e;
    let part = Part(body(book, *e));
    writeln!(to, "{n} {spare} {mask} {w} {offset} {steps} {part}")
}

// The bodies of all entries, one behind the other. (All of them have room, since they lay in one book.)
fn put_joined(joined: &mut Page<'_>, book: &[u8], contents: &Contents) {
    for e in contents.captures() {
        joined.put(body(book, *e));
    }
}

fn print_round<W: Write>(to: &mut W, draft: Draft, bodies: &[u8], out: &mut [u8]) -> fmt::Result {
    let written = Written::new(&draft.contents(), draft.bodies(bodies), ROOM, out);
    let answer = read(written.book());
    writeln!(
        to,
        "round {draft}\nwrite {written}\nread {}",
        Reading(&answer)
    )?;
    let contents = answer.unwrap_or(NOTHING_READ);
    for e in contents.captures() {
        print_entry(to, written.book(), e)?;
    }
    let mut bytes = [0; ROOM];
    let mut joined = Page::new(&mut bytes);
    put_joined(&mut joined, written.book(), &contents);
    let again = Written::new(&contents, joined.text(), ROOM, out);
    writeln!(to, "again {again}")
}

pub(crate) fn print_rounds<W: Write>(to: &mut W, bodies: &[u8], out: &mut [u8]) -> fmt::Result {
    for draft in Draft::ALL {
        print_round(to, draft, bodies, out)?;
    }
    Ok(())
}
