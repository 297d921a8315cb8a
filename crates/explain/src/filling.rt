// The tables of causes (02, a): on the way forward the cause of each step but for one thing, whether section 0 had failed
// unseen, and two marks for it; on the way back that, since a later step alone can tell.
ghost use Rattle.std.specs.Prelude.{◌%◌, ◌/◌, ◌≤◌, ◌<◌, length, take, ◌≡◌};
ghost use Rattle.basics.specs.Capture.{rows_of, most};
ghost use Rattle.explain.specs.Filling.{heard_place, with_marks, conditions_kept, command_kept, followed, conditions_along, commands_along, ended, idle_back, settled_word, settled, Stored, Keeps, filled_steps, Fills};
ghost use Rattle.explain.specs.Trace.{row_in, start, Fit, scanned};
ghost use Rattle.explain.specs.Verdict.{told};
ghost use Rattle.pair.specs.Marks.{channel_of};

use crate::cause::{is_local, may_hide, rank_held};
use crate::shown::{command_word, conditions_word, deciding, louder};
use crate::table::Table;
use crate::trace::{heard, opens, record_after, scan, wait_behind};
use crate::{Records, Row, Verdict};
use controller::Controller;
use controller::asked::asked;
use pair::mark::alarm;

// The marks stand where no word of conditions has a bit: a group has no section 15. (No memory is lent but the tables.)
const HEARD: u32 = 0x4000_0000;

const FAILED: u32 = 0x8000_0000;

fn with_marks(word: u32, heard: bool, failed: bool) -> u32
    requires { word < heard_place }
    ensures { result ≡ with_marks word heard failed }
{
    word + u32::from(heard) * HEARD + u32::from(failed) * FAILED
}

// That a byte's channel is at most 14 is a clause here, and in five functions more: it holds of the bytes of a row that fits and of
// a record, and a type for such a byte would be made from that same fact at each call.
fn conditions_kept(s: Controller, heard: bool, sent: u8) -> u32
    requires { channel_of sent ≤ 14 }
    ensures { result ≡ conditions_kept s heard sent }
{
    let x = asked(sent);
    let word = conditions_word(s.mask, x);
    with_marks(word, heard, may_hide(x))
}

fn command_kept(table: &Table, hold: bool, s: Controller, k1: u8, sent: u8) -> u16
    requires { (channel_of s.sent ≤ 14) × (channel_of k1 ≤ 14) × (channel_of sent ≤ 14) }
    ensures { result ≡ command_kept hold s k1 sent }
{
    let last = table.asked(s.sent);
    let x = table.asked(sent);
    let rank = deciding(table.rank_of(k1), x);
    let loud = louder(hold, rank, rank_held(last), wait_behind(s));
    command_word(last.request, x.request, loud)
}

impl Records {
    // The next ones, in a capture that is known to be explained. `next` is not called from here too: it stands in its one
    // caller's loop, and asks more (tried: the judge took a quarter more time, and the causes 3.4 times what the judge takes
    // without it; their bar is 3).
    fn follow(self, table: &Table, row: Row) -> Records
        requires { Fit self × (channel_of row.sent_k1 ≤ 14) }
        ensures { result ≡ followed self (row_in row) }
    {
        let s = self.controller;
        let x = table.asked(row.sent_k1);
        let far = heard(table, s, row.k1, row.k2);
        let opened = opens(far.asked(), x, row.sent_k2, is_local(x.request));
        Records {
            controller: record_after(s, wait_behind(s), far.k1, far.k2, row.sent_k1),
            heard: !alarm(row.k2) & opened & (far.fits | self.heard),
            idle: false,
        }
    }
}

// The two tables are lent side by side, as the judge's caller lends them (`chainplater_causes`).
//
// Forward over as many steps as the tables have; answers whether the record with the last usable pair is open at the end.
fn keep(
    hold: bool,
    s: Controller,
    capture: &[u8],
    conditions: &mut [u32],
    commands: &mut [u16],
) -> bool
    requires { Keeps (start s) capture.now (length conditions.old) (length commands.old) }
    ensures value { result ≡ (ended (start s) (take (length conditions.old) (rows_of capture.now))).heard }
    ensures first_table { conditions.new ≡ conditions_along (start s) (take (length conditions.old) (rows_of capture.now)) }
    ensures second_table { commands.new ≡ commands_along hold (start s) (take (length conditions.old) (rows_of capture.now)) }
{
    let table = Table::new();
    let mut possible = Records::start(s);
    // By places, as `settle`: of what is written through two slices that are zipped nothing is known afterwards.
    for step in 0..conditions.len() {
        let before = possible;
        let row = Row::at(capture, 4 * step);
        possible = before.follow(&table, row);
        let s = before.controller;
        let accepted = possible.controller.k1;
        conditions[step] = conditions_kept(s, before.heard, row.sent_k1);
        commands[step] = command_kept(&table, hold, s, accepted, row.sent_k1);
    }
    possible.heard
}

fn settled_word(idle: bool, word: u32) -> u32
    ensures { result ≡ settled_word idle word }
{
    if idle & (word / FAILED == 1) {
        2
    } else {
        word % HEARD
    }
}

fn idle_back(idle: bool, word: u32) -> bool
    ensures { result ≡ idle_back idle word }
{
    (idle & (word / FAILED != 1)) | (word / HEARD % 2 != 1)
}

// Back from the last step, behind which the record has the idle pair accepted or not.
fn settle(idle: bool, words: &mut [u32])
    ensures { words.new ≡ settled idle words.old }
{
    let mut behind = idle;
    // By index: of what is written through a reversed `iter_mut` no proof knows anything afterwards.
    for at in (0..words.len()).rev() {
        let word = words[at];
        words[at] = settled_word(behind, word);
        behind = idle_back(behind, word);
    }
}

// Nothing is written unless all steps are explained.
fn filled_steps(verdict: Verdict, steps: usize) -> usize
    ensures { result ≡ filled_steps (told (Ok verdict)) steps }
{
    match verdict {
        Verdict::Explained(_) => steps,
        Verdict::Unexplained(_) => 0,
    }
}

// The verdict first, since nothing may be written before it is known; then forward, then back.
pub(crate) fn fill(
    hold: bool,
    s: Controller,
    capture: &[u8],
    conditions: &mut [u32],
    commands: &mut [u16],
) -> Verdict
    requires { (length capture.now % 4 ≡ 0) × (length capture.now ≤ most) × Fit (start s) × (length capture.now / 4 ≤ length conditions.old) × (length capture.now / 4 ≤ length commands.old) }
    ensures result_value { told (Ok result) ≡ scanned s capture.now }
    ensures fills { Fills hold (start s) (take (filled_steps (told (Ok result)) (length capture.now / 4)) (rows_of capture.now)) conditions.old commands.old conditions.new commands.new }
{
    let steps = capture.len() / 4;
    let verdict = scan(s, capture);
    let shown = filled_steps(verdict, steps);
    let words = &mut conditions[..shown];
    let heard = keep(hold, s, capture, words, &mut commands[..shown]);
    settle(!heard, words);
    verdict
}
