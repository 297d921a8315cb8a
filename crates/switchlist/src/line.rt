// The lines of a capture: the steps at which the sent K1 changes, and what is requested from there on (02, e).
use page::Page;
use switches::extend;

// The bytes of the longest line, '63 16383 FF SF-H 15' with its end.
const LONGEST: usize = 20;

// The requests by their codes, the upper four bits of K1 (01, 'The byte pair'). A captured K1 may have any code.
const REQUESTS: [&str; 16] = [
    "NR", "?", "RR", "?", "?", "?", "WTR", "?", "MS", "?", "SD-L", "SD-H", "SF-L", "SF-H", "FS",
    "LO",
];

// The sent K1, byte 2 of a step's four. A listed step is one that the capture has (`listed_right` of `switches`); the 0 stands
// in the place of a proof of that here.
fn sent_at(body: &[u8], step: u16) -> u8 {
    let place = 4 * usize::from(step) + 2;
    body.get(place).copied().unwrap_or(0)
}

// Lines as '0 0 A2 SD-L 2': the number of the capture, the step, the K1 sent there, its request, and its channel, the lower four
// bits. Neither `else` is taken: of a book that was read no capture is refused here (`captures_listed` of `chainplater`), and the
// changes that are counted stand in the table (`whole_right` of `switches`). They stand in the place of a proof of that.
pub(crate) fn put_capture(page: &mut Page<'_>, number: usize, body: &[u8], table: &mut [u16]) {
    let Ok(count) = extend(body, 0, 0, table) else {
        return;
    };
    let Some(steps) = table.get(..usize::from(count)) else {
        return;
    };
    for step in steps {
        let k1 = sent_at(body, *step);
        let request = REQUESTS[usize::from(k1 / 16)];
        page.next_line(LONGEST);
        page.put_field(number as u64);
        page.put_field(u64::from(*step));
        page.put_hex(k1);
        page.put(b" ");
        page.put(request.as_bytes());
        page.put_last(b" ", u64::from(k1 % 16));
    }
}
