// Text on a page, for the programs and for the table of a book. A page is filled from its start; a text that it has no room for is
// dropped whole.
#![tactic(auto)]

ghost use Rattle.std.specs.Prelude.{IsOk, ◌+◌, ◌<◌, leb, length, take, ◌≡◌};
ghost use Rattle.page.specs.Digits.{digit_of, decimal, hexadecimal};
ghost use Rattle.page.specs.Page.{Puts, PutsEach};
ghost use Rattle.page.specs.Text.{field, last, line_start};

use std::fmt;

const STDOUT: i32 = 1;

// The page of a program that prints a line for each step. A write for each line would take most of the time, and a page for
// all of them more than 600,000 bytes.
pub const BLOCK: usize = 4096;

// Lent bytes, and where the next text begins. Any two will do: what is put behind the bytes' end is dropped.
#[derive(Drop)]
pub struct Page<'a> {
    pub bytes: &'a mut [u8],
    pub at: usize,
}

fn digit(d: u8) -> u8
    requires { d < 16 }
    ensures { result ≡ digit_of d }
{
    if d < 10 { b'0' + d } else { b'A' + (d - 10) }
}

// The first n bytes, or all where there are fewer.
pub fn front(bytes: &[u8], n: usize) -> &[u8]
    ensures { result.now ≡ take n bytes.now }
{
    &bytes[..n.min(bytes.len())]
}

// Whether so many bytes have room at a place. (The sum of the two may be too large for a usize.)
fn has_room(size: usize, at: usize, more: usize) -> bool
    ensures { result ≡ leb (at + more) size }
{
    at <= size && more <= size - at
}

// Where a line of at most so many bytes begins: behind the last one, or, once the page is written, at its start. (No contract can
// say what is written.) A page that is only read will do.
pub fn next_line(page: &[u8], at: usize, longest: usize) -> usize
    ensures { result ≡ line_start (length page.now) at longest }
{
    if has_room(page.len(), at, longest) {
        return at;
    }
    io::write_all(STDOUT, front(page, at));
    0
}

impl<'a> Page<'a> {
    pub fn new(bytes: &'a mut [u8]) -> Page<'a>
        ensures bytes { result.bytes.now ≡ bytes.old }
        ensures start { result.at ≡ 0 }
        ensures same_reference { result.bytes.ghost_name ≡ bytes.entry.ghost_name }
    {
        Page { bytes, at: 0 }
    }

    pub fn put(&mut self, text: &[u8])
        ensures { Puts self.old text.now self.new }
    {
        if has_room(self.bytes.len(), self.at, text.len()) {
            let end = self.at + text.len();
            self.bytes[self.at..end].copy_from_slice(text);
            self.at = end;
        }
    }

    // The digits stand whole or not at all (`put_number_unique`). Of a text that is printed by `write!` the library promises its
    // pieces alone, so the digits of this and of the next function are made by hand.
    pub fn put_number(&mut self, v: u64)
        ensures { Puts self.old (decimal v) self.new }
    {
        let mut digits = [0u8; 20];
        let k = io::decimal(v, &mut digits);
        self.put(&digits[..k]);
    }

    pub fn put_hex(&mut self, b: u8)
        ensures { Puts self.old (hexadecimal b) self.new }
    {
        let digits = [digit(b / 16), digit(b % 16)];
        self.put(&digits);
    }

    // A number and the space behind it.
    pub fn put_field(&mut self, v: u64)
        ensures { PutsEach self.old (field v) self.new }
    {
        self.put_number(v);
        self.put(b" ");
    }

    // The end of a line: a word, and the number that goes with it.
    pub fn put_last(&mut self, word: &[u8], v: u64)
        ensures { PutsEach self.old (last word.now v) self.new }
    {
        self.put(word);
        self.put_number(v);
        self.put(b"\n");
    }

    fn line_place(&self, longest: usize) -> usize
        ensures { result ≡ line_start (length self.now.bytes.now) self.now.at longest }
    {
        let at = self.at;
        next_line(self.bytes, at, longest)
    }

    // The page's place is where a line of at most so many bytes begins (`next_line`).
    pub fn next_line(&mut self, longest: usize)
        ensures place { self.new.at ≡ line_start (length self.old.bytes.now) self.old.at longest }
        ensures page_kept { self.new.bytes.now ≡ self.old.bytes.now }
        ensures same_reference { self.new.bytes.ghost_name ≡ self.old.bytes.ghost_name }
    {
        self.at = self.line_place(longest);
    }

    // What is put on the page.
    pub fn text(&self) -> &[u8]
        ensures { result.now ≡ take self.now.at self.now.bytes.now }
    {
        let end = self.at;
        front(self.bytes, end)
    }

    // Writes what is on the page, and begins it again.
    pub fn write_out(&mut self)
        ensures place { self.new.at ≡ 0 }
        ensures page_kept { self.new.bytes.now ≡ self.old.bytes.now }
        ensures same_reference { self.new.bytes.ghost_name ≡ self.old.bytes.ghost_name }
    {
        io::write_all(STDOUT, self.text());
        self.at = 0;
    }
}

// Each piece of a formatted text is put, and none fails.
impl fmt::Write for Page<'_> {
    ghost write_str_gives = { Puts };

    fn write_str(&mut self, s: &str) -> fmt::Result
        ensures none_fails { IsOk result }
        ensures put { Puts self.old s.now self.new }
    {
        self.put(s.as_bytes());
        Ok(())
    }
}

// Standard output by itself, for the programs that print piece by piece. A piece whose write fails goes unseen, and the next one is
// tried. (No contract can say what is written.)
#[derive(Clone, Copy)]
pub struct Output;

impl fmt::Write for Output {
    fn write_str(&mut self, s: &str) -> fmt::Result
        ensures none_fails { IsOk result }
    {
        io::write_all(STDOUT, s.as_bytes());
        Ok(())
    }
}

#[cfg(test)]
mod tests {
    use super::*;
    use std::fmt::Write;

    // A formatted text stands on the page as it is printed, and one without room is left out.
    #[test]
    fn lines_are_written(rt: HostRuntime) -> fmt::Result {
        let mut bytes = [b'.'; 10];
        let mut page = Page::new(&mut bytes);
        let (step, k1) = (7, 0xA2u8);
        writeln!(page, "{step} {k1:02X}")?;
        page.put(b"too long");
        page.put_last(b"", 15);
        assert_eq!(rt; page.text(), b"7 A2\n15\n".as_slice());
        assert_eq!(rt; bytes, *b"7 A2\n15\n..");
        Ok(())
    }
}
