// Refusals 1 to 7 (01, 'Numbered refusals'; 02, g).
ghost use Rattle.basics.specs.Refusal.{refusal_told};
ghost use Rattle.basics.specs.Settings.{sections_fit};
ghost use Rattle.controller.specs.Command.{command_number, command_channel};
ghost use Rattle.controller.specs.Refusals.{other_priority, against_mask, wait_fits, held_fits, acceptable};
ghost use Rattle.controller.specs.Refusals.{conditions_fit, refusal};
ghost use Rattle.std.specs.Prelude.{true, IfOk, ◌≡◌};

use crate::Controller;
use crate::asked::asked;
use crate::codes::{DEGRADE_HIGH, DEGRADE_LOW, FAIL_HIGH, FAIL_LOW};
use crate::command::{Command, is_command, read};
use crate::numbered::Numbered;
use crate::section::high;
use crate::wait::is_wait;
use basics::refusal::Refusal;
use basics::settings::settings_refusal;
use pair::mark::second_usable;
use pair::table::usable_in;

fn other_priority(high: bool, code: u8) -> bool
    ensures { result ≡ other_priority high code }
{
    if high {
        matches!(code, FAIL_LOW | DEGRADE_LOW)
    } else {
        matches!(code, FAIL_HIGH | DEGRADE_HIGH)
    }
}

fn against_mask(mask: u16, code: u8, c: u8) -> bool
    ensures { result ≡ against_mask mask code c }
{
    (1 <= c) & other_priority(high(mask, c), code)
}

fn wait_fits(code: u8, w: u16, left: u16) -> bool
    ensures { result ≡ wait_fits code w left }
{
    if is_wait(code) {
        (1 <= left) & (left <= w)
    } else {
        left == 0
    }
}

fn held_fits(numbered: Numbered) -> bool
    requires { sections_fit numbered.controller.n ≡ true }
    ensures { result ≡ held_fits numbered.controller.n numbered.controller.hold numbered.controller.held }
{
    let s = numbered.controller;
    s.held == Controller::NONE_HELD
        || s.hold & is_command(asked(s.held).code) & usable_in(numbered.held, s.n)
}

#[tactic(auto, using(pair::proofs::Looking::usable_looked, pair::proofs::Coding::usable_test), unfolding(crate::specs::Refusals::acceptable))]
fn acceptable(numbered: Numbered) -> bool
    requires { sections_fit numbered.controller.n ≡ true }
    ensures { result ≡ acceptable numbered.controller }
{
    let s = numbered.controller;
    let last = asked(s.sent);
    let pair_usable = usable_in(numbered.accepted, s.n) & second_usable(s.n, s.k2);
    let in_table = usable_in(numbered.sent, s.n);
    let against = against_mask(s.mask, last.code, last.channel);
    let wait_good = wait_fits(last.code, s.w, s.left);
    (pair_usable & in_table & !against & wait_good) && held_fits(numbered)
}

fn conditions_fit(conditions: &[u8]) -> bool
    ensures { result ≡ conditions_fit conditions.now }
{
    conditions.iter().all(|c| *c <= 2)
}

// Where the step is not refused, the command that its number and channel stand for.
#[tactic(auto, unfolding(crate::specs::Refusals::refusal))]
pub(crate) fn refusal_of(
    numbered: Numbered,
    conditions: &[u8],
    command: u8,
    c: u8,
) -> Result<Option<Command>, Refusal>
    ensures refused { refusal_told result ≡ refusal numbered.controller conditions.now command c }
    ensures read { IfOk result (λ given. (command_number given ≡ command) × (command_channel given ≡ c)) }
{
    let n = numbered.controller.n;
    let mask = numbered.controller.mask;
    settings_refusal(n, mask, Refusal::Sections, Refusal::Mask)?;
    if !acceptable(numbered) {
        return Err(Refusal::Record);
    }
    if conditions.len() != usize::from(n) + 1 {
        return Err(Refusal::ConditionCount);
    }
    if !conditions_fit(conditions) {
        return Err(Refusal::Condition);
    }
    read(n, command, c)
}
