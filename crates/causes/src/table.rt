// The lines of a capture: one for each step with its cause, or one where there is none (02, a).
ghost use Rattle.book.specs.Format.{hold_in, body_of};
ghost use Rattle.explain.specs.Causes.{Causes};
ghost use Rattle.explain.specs.Verdict.{told};

use crate::line::{Conditions, Given};
use basics::four_at;
use basics::refusal::Refusal;
use book::{Entry, body};
use explain::{Verdict, judge_causes};
use page::Page;

// The bytes of the longest line, '63 16383 2EE8 DEE8 000000000000002 FS 14' with its end.
const LONGEST: usize = 41;

// The causes of a capture, by its own settings, hold with them (02, g).
fn causes_of(
    book: &[u8],
    e: Entry,
    conditions: &mut [u32],
    commands: &mut [u16],
) -> Result<Verdict, Refusal>
    ensures { Causes e.n (hold_in e) e.mask e.w (body_of book.now e) conditions.old commands.old (told result) conditions.new commands.new }
{
    judge_causes(e.settings(), body(book, e), conditions, commands)
}

fn put_pair(page: &mut Page<'_>, k1: u8, k2: u8) {
    page.put_hex(k1);
    page.put_hex(k2);
    page.put(b" ");
}

// Lines as '0 1 2228 A228 001 none': the number of the capture, the step, the received and the sent pair, the conditions, the
// command. An explained capture is explained to its last step, and each step has a word in either table; the two are lent as
// `judge_causes` fills them.
fn put_steps(
    page: &mut Page<'_>,
    number: usize,
    n: u8,
    body: &[u8],
    conditions: &[u32],
    commands: &[u16],
) {
    let causes = conditions.iter().zip(commands.iter());
    for (i, (row, (word, command))) in body.chunks_exact(4).zip(causes).enumerate() {
        let [k1, k2, sent_k1, sent_k2] = four_at(row, 0).to_be_bytes();
        page.next_line(LONGEST);
        page.put_field(number as u64);
        page.put_field(i as u64);
        put_pair(page, k1, k2);
        put_pair(page, sent_k1, sent_k2);
        Conditions { n, word: *word }.put(page);
        page.put(b" ");
        Given { n, word: *command }.put(page);
        page.put(b"\n");
    }
}

fn put_verdict(page: &mut Page<'_>, number: usize, word: &[u8], v: u64) {
    page.next_line(LONGEST);
    page.put_field(number as u64);
    page.put_last(word, v);
}

// The last case does not come up: of a book that was read no capture is refused here (`captures_caused` of `chainplater`).
pub(crate) fn put_capture(
    page: &mut Page<'_>,
    book: &[u8],
    number: usize,
    e: Entry,
    conditions: &mut [u32],
    commands: &mut [u16],
) {
    match causes_of(book, e, conditions, commands) {
        Ok(Verdict::Explained(_)) => {
            put_steps(page, number, e.n, body(book, e), conditions, commands);
        }
        Ok(Verdict::Unexplained(first)) => {
            put_verdict(page, number, b"unexplained ", u64::from(first));
        }
        Err(refusal) => put_verdict(page, number, b"refused ", u64::from(refusal.number())),
    }
}
