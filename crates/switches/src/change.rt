// The changes from a step on: how many there are, and into the table with them (02, e).
ghost use Rattle.std.specs.Prelude.{◌+◌, ◌<◌, ◌≤◌, ltb, length, get_or, ◌∷◌, ◌≡◌};
ghost use Rattle.switches.specs.Changes.{changes};
ghost use Rattle.switches.specs.Walk.{sent_of, first_changes, Fits, Put};

use crate::capture::SENT;

// What the last of some steps sent; before step 0 stands 00.
fn last_sent(rows: &[[u8; 4]]) -> u8
    ensures { result ≡ get_or (0 ∷ sent_of rows.now) (length rows.now) 0 }
{
    rows.last().map_or(0, |row| row[SENT])
}

// It walks as `put_changes` does, which writes the table: one walk that is handed what to do at a change is no plainer, and a
// contract knows nothing of what such a closure has written. The same holds of `is_list_of`, which goes along a list.
fn count_changes(rows: &[[u8; 4]], from: usize) -> usize
    requires { from ≤ length rows.now }
    ensures { length (changes (sent_of rows.now)) ≡ length (first_changes (sent_of rows.now) from) + result }
{
    let mut before = last_sent(&rows[..from]);
    let mut number = 0;
    for step in from..rows.len() {
        let sent = rows[step][SENT];
        number += usize::from(sent != before);
        before = sent;
    }
    number
}

// Whether the known entries and one for each change from a step on are more than there is room for. Where there is room for
// every step that is left, the changes need not be counted.
pub(crate) fn over_room(rows: &[[u8; 4]], from: usize, known: usize, room: usize) -> bool
    requires { (from ≤ length rows.now) × (length rows.now ≤ 16384) × (known < 65536) }
    ensures { result ≡ ltb (length (first_changes (sent_of rows.now) from) + room) (known + length (changes (sent_of rows.now))) }
{
    let left = rows.len() - from;
    room < known + left && room < known + count_changes(rows, from)
}

// (The steps are numbers of the whole capture, so the loop is over places.)
//
// Puts the changes from a step on behind the `known` entries, and answers how many entries there are then.
pub(crate) fn put_changes(rows: &[[u8; 4]], from: usize, known: usize, table: &mut [u16]) -> usize
    requires { Fits rows.now from known table.old }
    ensures { Put rows.now known result table.old table.new }
{
    let mut before = last_sent(&rows[..from]);
    let mut number = known;
    for step in from..rows.len() {
        let sent = rows[step][SENT];
        if sent != before {
            // (It fits: a conversion that may fail would have an error that never comes.)
            table[number] = step as u16;
            number += 1;
        }
        before = sent;
    }
    number
}
