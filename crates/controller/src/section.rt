// What the condition of a section asks for (01, 'Settings' and rule 3).
ghost use Rattle.controller.specs.Rules.{condition};
ghost use Rattle.controller.specs.Settings.{high};
ghost use Rattle.controller.specs.Step.{protection, acts_on};
ghost use Rattle.std.specs.Prelude.{[], ◌∷◌, ◌≡◌};

use crate::codes::{DEGRADE_HIGH, DEGRADE_LOW, FAIL_HIGH, FAIL_LOW, NO_REQUEST};
use request::Request;

// Section 0's bit stands below the 16 of the mask, so no channel above 16 has a bit.
pub(crate) fn high(mask: u16, c: u8) -> bool
    ensures { result ≡ high mask c }
{
    c <= 16 && ((2 * u32::from(mask) + 1) >> c) % 2 == 1
}

// Whether it is of high priority is asked for a section that is bad, since most are good. The condition stays a number: it is
// handed in as one, and refusal 5 is about numbers above 2.
pub fn condition(mask: u16, c: u8, x: u8) -> Request
    ensures { result ≡ condition mask c x }
{
    let code = match x {
        2 if high(mask, c) => FAIL_HIGH,
        2 => FAIL_LOW,
        1 if high(mask, c) => DEGRADE_HIGH,
        1 => DEGRADE_LOW,
        _ => return NO_REQUEST,
    };
    Request { code, channel: c }
}

// The condition of section 0 that a step acts on: failed, where an alarm is received (02, c). (Conditions are
// numbers, as the lent tables have them.)
pub(crate) fn protection(alarmed: bool, handed: u8) -> u8
    ensures { result ≡ protection (acts_on alarmed (handed ∷ [])) }
{
    if alarmed { 2 } else { handed }
}
