// Where a book has what (01, 'Capture book').
ghost use Rattle.std.specs.Prelude.{◌+◌, ◌*◌, ◌≡◌};
ghost use Rattle.std.specs.Iterator.{YieldsFirstBy, item_count};
ghost use Rattle.book.specs.Format.{entry_in, entry_bytes, entries_left, first_body, placed_at};

use crate::Entry;

// The most bytes that a book may have.
pub(crate) const MOST: usize = 65536;

// The bytes of an entry.
pub(crate) const ENTRY: usize = 12;

pub(crate) fn first_body(k: u8) -> usize
    ensures { result ≡ first_body k }
{
    2 + ENTRY * usize::from(k)
}

pub(crate) fn body_size(e: Entry) -> usize
    ensures { result ≡ 4 * e.steps }
{
    4 * usize::from(e.steps)
}

#[tactic(auto, unfolding(crate::specs::Format::entry_in, basics::specs::Bytes::two_at, basics::specs::Bytes::four_at))]
pub(crate) fn entry_in(part: &[u8; ENTRY]) -> Entry
    ensures { result ≡ entry_in part.now }
{
    Entry {
        n: part[0],
        spare: part[1],
        mask: u16::from_be_bytes([part[2], part[3]]),
        w: u16::from_be_bytes([part[4], part[5]]),
        offset: u32::from_be_bytes([part[6], part[7], part[8], part[9]]),
        steps: u16::from_be_bytes([part[10], part[11]]),
    }
}

// An entry as it was handed in, but for the offset, at which its body belongs.
pub(crate) fn placed_at(part: &[u8; ENTRY], at: u32) -> [u8; ENTRY]
    ensures { result ≡ entry_bytes (placed_at at (entry_in part.now)) }
{
    let mut entry = *part;
    entry[6..10].copy_from_slice(&at.to_be_bytes());
    entry
}

// The entries that stand in bytes, one behind the other; each comes as its own 12 bytes.
#[derive(Drop)]
pub(crate) struct Entries<'a> {
    pub(crate) left: &'a [u8],
}

impl<'a> Iterator for Entries<'a> {
    type Item = &'a [u8; ENTRY];

    ghost next_gives = { YieldsFirstBy (λ part. entry_in part.now) entries_left };

    ghost remaining = { item_count entries_left };

    fn next(&mut self) -> Option<&'a [u8; ENTRY]> {
        let (part, left) = self.left.split_first_chunk()?;
        self.left = left;
        Some(part)
    }
}
