// What the programs that list a book's captures have in common: one reads a capture book from standard input, and prints a header
// and what it has to say of each capture, or the book's refusal (01, 'Sequences on both sides').
#![tactic(auto)]

use book::{Entry, INPUT, read};
use page::{BLOCK, Page};

// (As in the other programs: a crate for a file descriptor would be no plainer.)
const STDIN: i32 = 0;

// The header, and what is put for each capture of the book by its number and its entry; or the one line of a refused book.
fn put_table<P>(page: &mut Page<'_>, book: &[u8], header: &str, mut put_capture: P)
where
    P: FnMut(&mut Page<'_>, &[u8], usize, Entry),
    requires { P.IsAlwaysCallable put_capture }
{
    let contents = match read(book) {
        Ok(contents) => contents,
        Err(refusal) => {
            page.put_last(b"refused ", u64::from(refusal.number()));
            return;
        }
    };
    page.put(header.as_bytes());
    page.put(b"\n");
    for (i, e) in contents.captures().iter().enumerate() {
        put_capture(page, book, i, *e);
    }
}

// The page is written whenever it is full, by what is put on it, and the last of it here.
pub fn list<P>(header: &str, put_capture: P)
where
    P: FnMut(&mut Page<'_>, &[u8], usize, Entry),
    requires { P.IsAlwaysCallable put_capture }
{
    let mut input = [0u8; INPUT];
    let size = io::read_full(STDIN, &mut input);
    let mut bytes = [0u8; BLOCK];
    let mut page = Page::new(&mut bytes);
    put_table(&mut page, &input[..size], header, put_capture);
    page.write_out();
}
