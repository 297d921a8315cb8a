// Prints the table of K1 values as data, a line for each K1 (02, j).
#![tactic(auto)]

use page::Page;
use pair::mark::Mark;
use pair::table::value_of;

// Lines as '2B 0 11 14 0': the K1, its rank, the least and the greatest n, the number of its mark.
fn put_value(page: &mut Page<'_>, k1: u8) {
    let v = value_of(k1);
    page.put_hex(k1);
    page.put(b" ");
    page.put_field(u64::from(v.rank));
    page.put_field(u64::from(v.least));
    page.put_field(u64::from(v.greatest));
    page.put_last(b"", u64::from(Mark::number_or_0(v.mark)));
}

// The bytes of the longest line, the header.
const LONGEST: usize = 28;

fn main() {
    let mut bytes = [0u8; LONGEST];
    let mut page = Page::new(&mut bytes);
    page.put(b"k1 rank least greatest mark\n");
    page.write_out();
    for k1 in 0..=255 {
        put_value(&mut page, k1);
        page.write_out();
    }
}
