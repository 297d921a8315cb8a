// The table of a book as `judge` prints it (01, 'Sequences on both sides').
#![tactic(auto)]

mod line;

ghost use Rattle.report.specs.Put.{Opened, PutTable};
ghost use Rattle.report.specs.Table.{Printed};

use crate::line::put_capture;
use book::{Contents, read};
use page::Page;

// (It walks as `listing::list` does, but it promises what is put, and a contract knows nothing of what a closure has put.)
//
// The header, and a line for each capture of a book that was read.
fn put_captures(page: &mut Page<'_>, book: &[u8], contents: &Contents)
    requires { Opened page.old book.now contents.now }
    ensures { PutTable page.old book.now page.new }
{
    page.put(b"capture sections steps verdict at\n");
    for (i, e) in contents.captures().iter().enumerate() {
        put_capture(page, book, i, *e);
    }
}

// Every table has room: the longest has 1,708 characters (`table_longest`). C lends the page and takes the length, so these are
// no struct here.
pub fn put_table(book: &[u8], page: &mut [u8; 2048]) -> usize
    ensures { Printed book.now page.old page.new result }
{
    let mut table = Page::new(page);
    match read(book) {
        Ok(contents) => put_captures(&mut table, book, &contents),
        Err(refusal) => table.put_last(b"refused ", u64::from(refusal.number())),
    }
    table.at
}
