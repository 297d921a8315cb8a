// A controller's record in 12 bytes, and a step's answer in 19.
ghost use Rattle.basics.specs.First.{first_of};
ghost use Rattle.basics.specs.Refusal.{refusal_number};
ghost use Rattle.chainplater.specs.Given.{StepOf};
ghost use Rattle.chainplater.specs.Record.{record_in, record_bytes, outcome_bytes, options_faults, refused_bytes, step_bytes};
ghost use Rattle.controller.specs.Step.{step_told};
ghost use Rattle.std.specs.Prelude.{length, ◌≡◌};

use basics::refusal::Refusal;
use basics::settings::settings_refusal;
use basics::two_at;
use controller::{Controller, Outcome, RefusedStep};
use pair::mark::Mark;

// Of options above 1 nothing is told here: a record that has them is refused before it is read.
#[tactic(auto, unfolding(crate::specs::Record::record_in))]
pub(crate) fn record_in(bytes: &[u8; 12]) -> Controller
    ensures { result ≡ record_in bytes.now }
{
    Controller {
        n: bytes[0],
        hold: bytes[1] == 1,
        mask: two_at(bytes, 2),
        w: two_at(bytes, 4),
        k1: bytes[6],
        k2: bytes[7],
        sent: bytes[8],
        left: two_at(bytes, 9),
        held: bytes[11],
    }
}

#[tactic(auto, unfolding(crate::specs::Record::record_bytes))]
pub(crate) fn record_bytes(s: Controller) -> [u8; 12]
    ensures { result ≡ record_bytes s }
{
    let [mask_high, mask_low] = s.mask.to_be_bytes();
    let [w_high, w_low] = s.w.to_be_bytes();
    let [left_high, left_low] = s.left.to_be_bytes();
    [
        s.n,
        u8::from(s.hold),
        mask_high,
        mask_low,
        w_high,
        w_low,
        s.k1,
        s.k2,
        s.sent,
        left_high,
        left_low,
        s.held,
    ]
}

// The refusal of a record whose options are above 1.
pub(crate) fn options_refusal(bytes: &[u8; 12]) -> Refusal
    ensures { refusal_number result ≡ first_of (options_faults (record_in bytes.now)) }
{
    let s = record_in(bytes);
    match settings_refusal(s.n, s.mask, Refusal::Sections, Refusal::Mask) {
        Ok(()) => Refusal::Record,
        Err(refusal) => refusal,
    }
}

// The number, the record as it was given, and zeros. The record is a slice with a length here and in `outcome_bytes`: tried with an
// array that is lent, the proof did not close, since nothing is known of its bytes.
pub(crate) fn refused_bytes(number: u8, given: &[u8]) -> [u8; 19]
    requires { length given.now ≡ 12 }
    ensures { result ≡ refused_bytes number given.now }
{
    let mut bytes = [0; 19];
    bytes[0] = number;
    bytes[1..13].copy_from_slice(given);
    bytes
}

// The answer of a step. Settings, and a refused record, are taken from the bytes that were given, which spares keeping them
// through the step.
pub(crate) fn outcome_bytes(answer: Result<Outcome, RefusedStep>, given: &[u8]) -> [u8; 19]
    requires { StepOf given.now (step_told answer) }
    ensures { result ≡ outcome_bytes (step_told answer) }
{
    let o = match answer {
        Ok(o) => o,
        Err(refused) => return refused_bytes(refused.refusal.number(), given),
    };
    let s = o.controller;
    let [left_high, left_low] = s.left.to_be_bytes();
    [
        0,
        given[0],
        given[1],
        given[2],
        given[3],
        given[4],
        given[5],
        s.k1,
        s.k2,
        s.sent,
        left_high,
        left_low,
        s.held,
        o.k1,
        o.k2,
        o.bridge,
        o.selector,
        Mark::number_or_0(o.mark),
        o.fate.number(),
    ]
}

// A record whose options are above 1 is refused before it is read.
pub(crate) fn step_bytes(
    given: &[u8; 12],
    k1: u8,
    k2: u8,
    conditions: &[u8],
    command: u8,
    channel: u8,
) -> [u8; 19]
    ensures { result ≡ step_bytes given.now k1 k2 conditions.now command channel }
{
    if 1 < given[1] {
        return refused_bytes(options_refusal(given).number(), given);
    }
    let answer = record_in(given).step(k1, k2, conditions, command, channel);
    outcome_bytes(answer, given)
}
