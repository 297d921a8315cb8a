// The scan: what the bytes so far leave open of the controller's record (01, 'The judge').
ghost use Rattle.std.specs.Prelude.{◌+◌, ◌≤◌, ◌<◌, ◌%◌, length, true, ◌≡◌};
ghost use Rattle.basics.specs.Capture.{row_at, most};
ghost use Rattle.basics.specs.Settings.{sections_fit};
ghost use Rattle.controller.specs.Rules.{asked};
ghost use Rattle.controller.specs.Step.{wait_of};
ghost use Rattle.explain.specs.Trace.{row_in, start, live, second_fits, opens_with, record_after, accepted_byte, heard_by, next, passes, passed, Fit, scanned};
ghost use Rattle.explain.specs.Verdict.{told};
ghost use Rattle.pair.specs.Marks.{channel_of};

use crate::cause::{answers, arises, commanded, unseen};
use crate::table::Table;
use crate::{Heard, Ranked, Records, Row, Verdict};
use controller::Controller;
use controller::asked::asked;
use controller::codes::{NOTHING, WAIT_TO_RESTORE};
use controller::wait::wait_of;
use pair::mark::{alarm, second_usable};
use pair::table::{rank_in, usable_in};
use repeats::repeated;
use request::bridge;

impl Row {
    // The row of the four bytes from a place on.
    pub(crate) fn at(capture: &[u8], at: usize) -> Row
        requires { at + 4 ≤ length capture.now }
        ensures { row_in result ≡ row_at capture.now at }
    {
        Row {
            k1: capture[at],
            k2: capture[at + 1],
            sent_k1: capture[at + 2],
            sent_k2: capture[at + 3],
        }
    }
}

// A sent K2 has bit 5 and the line bits 000.
fn second_fits(k2: u8, bridged: u8) -> bool
    ensures { result ≡ second_fits k2 bridged }
{
    u16::from(k2) == u16::from(bridged) * 16 + 0b1000
}

pub(crate) fn opens(far: Ranked, x: Ranked, k2: u8, local: bool) -> bool
    ensures { result ≡ opens_with far x k2 local }
{
    let theirs = far.request;
    let ours = x.request;
    let bridged = bridge(theirs.channel, ours.channel, ours.code == NOTHING);
    answers(far, x, local) & second_fits(k2, bridged)
}

// The wait of the step behind the record, where no clear is given.
pub(crate) fn wait_behind(s: Controller) -> u16
    ensures { result ≡ wait_of s (asked s.sent) 0 }
{
    wait_of(s, asked(s.sent), 0)
}

// The K1 last sent and the wait left follow from what was sent.
pub(crate) fn record_after(s: Controller, now: u16, k1: u8, k2: u8, sent: u8) -> Controller
    ensures { result ≡ record_after s now k1 k2 sent }
{
    let left = if sent / 16 == WAIT_TO_RESTORE { now } else { 0 };
    Controller {
        k1,
        k2,
        sent,
        left,
        held: Controller::NONE_HELD,
        ..s
    }
}

// Byte by byte: one `if` for all of them would be a branch, with which a step takes a twelfth more time.
fn accepted_byte(fits: bool, received: u8, before: u8) -> u8
    ensures { result ≡ accepted_byte fits received before }
{
    if fits { received } else { before }
}

impl Heard {
    pub(crate) fn asked(self) -> Ranked
        ensures { result ≡ record { request = asked self.k1; rank = self.rank } }
    {
        Ranked {
            request: asked(self.k1),
            rank: self.rank,
        }
    }
}

// One look for the received K1.
pub(crate) fn heard(table: &Table, s: Controller, k1: u8, k2: u8) -> Heard
    requires { (sections_fit s.n ≡ true) × (channel_of s.k1 ≤ 14) }
    ensures { result ≡ heard_by s k1 k2 }
{
    let received = table.number(k1);
    let fits = usable_in(received, s.n) & second_usable(s.n, k2);
    Heard {
        fits,
        k1: accepted_byte(fits, k1, s.k1),
        k2: accepted_byte(fits, k2, s.k2),
        rank: accepted_byte(fits, rank_in(received), table.rank_of(s.k1)),
    }
}

impl Records {
    // The record alone, as it is.
    pub(crate) fn start(s: Controller) -> Records
        ensures { result ≡ start s }
    {
        Records {
            controller: s,
            heard: true,
            idle: false,
        }
    }

    // The same few operations whatever the bytes are: a branch that is taken in one step and not in the next costs more than
    // what it would save.
    fn next(self, table: &Table, row: Row) -> Records
        requires { Fit self }
        ensures { result ≡ next self (row_in row) }
    {
        let s = self.controller;
        let last = table.asked(s.sent);
        let number = table.number(row.sent_k1);
        let carried = usable_in(number, s.n);
        let request = asked(row.sent_k1);
        let x = Ranked {
            request,
            rank: rank_in(number),
        };
        let now = wait_behind(s);
        let command = commanded(last, x);
        let local = arises(s.mask, command, now, last.request, request);
        let hidden = unseen(command, request) & second_fits(row.sent_k2, 0);
        let far = heard(table, s, row.k1, row.k2);
        let opened = opens(far.asked(), x, row.sent_k2, local);
        let idle = table.asked(Controller::IDLE_K1);
        let opened_idle = opens(idle, x, row.sent_k2, local);
        // A row with an alarm is one with section 0 failed (02, c).
        let quiet = !alarm(row.k2);
        // The flags of the step before come last, so that no step waits for another.
        Records {
            controller: record_after(s, now, far.k1, far.k2, row.sent_k1),
            heard: carried & (quiet & opened & (far.fits | self.heard)),
            idle: carried & ((quiet & !far.fits & opened_idle & self.idle) | hidden),
        }
    }

    fn live(self) -> bool
        ensures { result ≡ live self }
    {
        self.heard | self.idle
    }

    // Of as many rows that repeat the last one those that may be passed over: they leave the records as they are, but that WTR
    // takes a step of wait.
    fn passes(self, run: usize) -> u16
        requires { run < 65536 }
        ensures { result ≡ passes self run }
    {
        let s = self.controller;
        let run = run as u16;
        if asked(s.sent).code == WAIT_TO_RESTORE {
            run.min(wait_behind(s))
        } else {
            run
        }
    }

    fn passed(self, run: u16) -> Records
        ensures { result ≡ passed self run }
    {
        let s = self.controller;
        let left = s.left.saturating_sub(run);
        Records {
            controller: Controller { left, ..s },
            ..self
        }
    }
}

pub(crate) fn scan(s: Controller, capture: &[u8]) -> Verdict
    requires { (length capture.now % 4 ≡ 0) × (length capture.now ≤ most) × Fit (start s) }
    ensures { told (Ok result) ≡ scanned s capture.now }
{
    let table = Table::new();
    let mut possible = Records::start(s);
    let mut at: usize = 0;
    // It passes over whole runs of rows, so no range and no iterator has its places.
    while at < capture.len() {
        possible = possible.next(&table, Row::at(capture, at));
        if !possible.live() {
            return Verdict::Unexplained((at / 4) as u16);
        }
        at += 4;
        let run = repeated(capture, at);
        if 0 < run {
            let few = possible.passes(run);
            possible = possible.passed(few);
            at += 4 * usize::from(few);
        }
    }
    Verdict::Explained((at / 4) as u16)
}
