// A number for many bytes, or for contents.
use book::{Contents, Entry};

fn with(digest: u32, x: u32) -> u32 {
    ((u64::from(digest) * 31 + u64::from(x) + 1) % 65521) as u32
}

pub(crate) fn of_bytes(bytes: &[u8]) -> u32 {
    bytes
        .iter()
        .fold(0, |digest, b| with(digest, u32::from(*b)))
}

fn with_entry(digest: u32, e: &Entry) -> u32 {
    let numbers = [
        u32::from(e.n),
        u32::from(e.spare),
        u32::from(e.mask),
        u32::from(e.w),
        e.offset,
        u32::from(e.steps),
    ];
    numbers.iter().fold(digest, |digest, x| with(digest, *x))
}

pub(crate) fn of_contents(contents: &Contents) -> u32 {
    let count = with(0, u32::from(contents.count));
    contents.entries.iter().fold(count, with_entry)
}
