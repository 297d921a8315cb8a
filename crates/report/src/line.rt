// The line of a capture. Each function asks for the room.
ghost use Rattle.report.specs.Put.{Room, Put, LineRoom, PutLine};
ghost use Rattle.report.specs.Table.{field, verdict_text};
ghost use Rattle.std.specs.Prelude.{◌++◌};

use basics::refusal::Refusal;
use book::{Entry, body};
use explain::{Verdict, judge};
use page::Page;

// The steps of a capture, and its verdict. The last case does not come up: no capture of a book that was read is refused by the
// judge (`captures_judged`). The judge has it for its other callers.
// (A refusal's words are put here and not by its Display: what stands on the page is promised byte by byte.)
fn put_verdict(page: &mut Page<'_>, steps: u16, verdict: Result<Verdict, Refusal>)
    requires { Room page.old (field steps ++ verdict_text verdict) }
    ensures { Put page.old (field steps ++ verdict_text verdict) page.new }
{
    page.put_field(u64::from(steps));
    match verdict {
        Ok(Verdict::Explained(all)) => page.put_last(b"explained ", u64::from(all)),
        Ok(Verdict::Unexplained(first)) => page.put_last(b"unexplained ", u64::from(first)),
        Err(refusal) => page.put_last(b"refused ", u64::from(refusal.number())),
    }
}

// The line of the capture with that number.
pub(crate) fn put_capture(page: &mut Page<'_>, book: &[u8], number: usize, e: Entry)
    requires { LineRoom page.old book.now number e }
    ensures { PutLine page.old book.now number e page.new }
{
    let verdict = judge(e.settings(), body(book, e));
    page.put_field(number as u64);
    page.put_field(u64::from(e.n));
    put_verdict(page, e.steps, verdict);
}
