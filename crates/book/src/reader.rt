// Refusals 20 to 28, 31 and 32 (01, 'Numbered refusals'; 02, f and g).
ghost use Rattle.std.specs.Prelude.{◌≤◌, ◌≡◌};
ghost use Rattle.basics.specs.First.{first_of};
ghost use Rattle.basics.specs.Refusal.{refusal_told};
ghost use Rattle.book.specs.Format.{most};
ghost use Rattle.book.specs.Reader.{head_faults, entry_faults, refusal};

use crate::Entry;
use crate::format::{Entries, MOST, body_size, entry_in, first_body};
use crate::settings::check_settings;
use basics::refusal::Refusal;

fn check_head(book: &[u8]) -> Result<(), Refusal>
    ensures { refusal_told result ≡ first_of (head_faults book.now) }
{
    let size = book.len();
    if MOST < size {
        return Err(Refusal::BookLength);
    }
    if size < 2 {
        return Err(Refusal::BookShort);
    }
    if book[0] != 1 {
        return Err(Refusal::BookVersion);
    }
    let count = book[1];
    if 64 < count {
        return Err(Refusal::BookCount);
    }
    if size < first_body(count) {
        return Err(Refusal::ContentsCut);
    }
    Ok(())
}

fn check_entry(size: usize, at: usize, e: Entry) -> Result<(), Refusal>
    requires { (at ≤ most) × (size ≤ most) }
    ensures { refusal_told result ≡ first_of (entry_faults size at e) }
{
    check_settings(e)?;
    if e.offset as usize != at {
        return Err(Refusal::Offset);
    }
    if size < at + body_size(e) {
        return Err(Refusal::BodyCut);
    }
    Ok(())
}

// Where the head has no refusal, that of the entries and of what is behind the last body.
fn check_entries(book: &[u8]) -> Result<(), Refusal>
    requires { first_of (head_faults book.now) ≡ 0 }
    ensures { refusal_told result ≡ refusal book.now }
{
    let size = book.len();
    let mut at = first_body(book[1]);
    let listed = Entries { left: &book[2..at] };
    for part in listed {
        let e = entry_in(part);
        check_entry(size, at, e)?;
        at += body_size(e);
    }
    if at < size {
        return Err(Refusal::BytesLeft);
    }
    Ok(())
}

#[tactic(auto, using(crate::proofs::Entries::head_refused))]
pub(crate) fn check(book: &[u8]) -> Result<(), Refusal>
    ensures { refusal_told result ≡ refusal book.now }
{
    check_head(book)?;
    check_entries(book)
}
