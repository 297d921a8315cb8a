// A list of changes that is handed in (02, e).
ghost use Rattle.std.specs.Prelude.{◌≡◌};
ghost use Rattle.switches.specs.Changes.{changes};
ghost use Rattle.switches.specs.Extend.{alike, lists};
ghost use Rattle.switches.specs.Walk.{sent_of};

use crate::capture::SENT;

// Whether a list is exactly the changes of some steps.
pub(crate) fn is_list_of(list: &[u16], rows: &[[u8; 4]]) -> bool
    ensures { result ≡ alike list.now (changes (sent_of rows.now)) }
{
    let mut entries = list.iter();
    let mut before = 0;
    for (step, row) in rows.iter().enumerate() {
        let sent = row[SENT];
        if sent != before {
            let Some(entry) = entries.next() else {
                return false;
            };
            if usize::from(*entry) != step {
                return false;
            }
        }
        before = sent;
    }
    entries.as_slice().is_empty()
}

// Whether the first `count` entries of the table are that. There may be fewer, so that they come as no slice (`lists` of
// `Extend.antt`).
pub(crate) fn lists(table: &[u16], count: usize, rows: &[[u8; 4]]) -> bool
    ensures { result ≡ lists table.now count (sent_of rows.now) }
{
    table
        .get(..count)
        .is_some_and(|list| is_list_of(list, rows))
}
