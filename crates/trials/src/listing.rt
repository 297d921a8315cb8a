// Contents in bytes by themselves, as the writer takes them: the count, then 64 places.
use basics::{put_four, put_two};
use book::{Contents, Entry};

// An entry's bytes by the paper: `book` takes them up from contents in bytes, and has no function that makes them of an entry.
fn entry_bytes(e: &Entry) -> [u8; 12] {
    let mut bytes = [0; 12];
    bytes[0] = e.n;
    bytes[1] = e.spare;
    put_two(&mut bytes, 2, e.mask);
    put_two(&mut bytes, 4, e.w);
    put_four(&mut bytes, 6, e.offset);
    put_two(&mut bytes, 10, e.steps);
    bytes
}

pub(crate) fn contents_bytes(contents: &Contents) -> [u8; 769] {
    let mut list = [0; 769];
    list[0] = contents.count;
    for (place, e) in list[1..].chunks_exact_mut(12).zip(&contents.entries) {
        place.copy_from_slice(&entry_bytes(e));
    }
    list
}
