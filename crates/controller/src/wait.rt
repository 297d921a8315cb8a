// The wait to restore (01, 'One step', rules 3 and 5).
ghost use Rattle.controller.specs.Rules.{is_fail_or_degrade, is_wait, enters_wait, waiting, left_after};
ghost use Rattle.controller.specs.Step.{wait_of};
ghost use Rattle.std.specs.Prelude.{◌≡◌};

use crate::Controller;
use crate::codes::{DEGRADE_HIGH, DEGRADE_LOW, FAIL_HIGH, FAIL_LOW, NO_REQUEST, WAIT_TO_RESTORE};
use request::{Request, wait_now};

fn is_fail_or_degrade(code: u8) -> bool
    ensures { result ≡ is_fail_or_degrade code }
{
    matches!(code, FAIL_HIGH | FAIL_LOW | DEGRADE_HIGH | DEGRADE_LOW)
}

pub(crate) fn is_wait(code: u8) -> bool
    ensures { result ≡ is_wait code }
{
    code == WAIT_TO_RESTORE
}

fn enters_wait(last: Request) -> bool
    ensures { result ≡ enters_wait last }
{
    is_fail_or_degrade(last.code) & (1 <= last.channel)
}

// What is left of the wait in this step.
// The command is a number: the definition takes any, and so do the judge's calls.
pub fn wait_of(s: Controller, last: Request, command: u8) -> u16
    ensures { result ≡ wait_of s last command }
{
    let entering = enters_wait(last);
    let running = is_wait(last.code);
    wait_now(command == 1, entering, running, s.w, s.left)
}

// At 0 there is no candidate.
pub(crate) fn waiting(now: u16, last: Request) -> Request
    ensures { result ≡ waiting now last }
{
    if 0 < now {
        Request {
            code: WAIT_TO_RESTORE,
            channel: last.channel,
        }
    } else {
        NO_REQUEST
    }
}

pub(crate) fn left_after(sent: Request, now: u16) -> u16
    ensures { result ≡ left_after sent now }
{
    if is_wait(sent.code) { now } else { 0 }
}
