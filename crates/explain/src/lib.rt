// The judge of captured lines (01, 'The judge'; 02, g). It sees bytes alone.
#![tactic(auto)]

mod cause;
mod filling;
mod shown;
mod table;
mod trace;

ghost use Rattle.std.specs.Prelude.{◌/◌, ◌++◌, ◌≡◌};
ghost use Rattle.basics.specs.Capture.{size_faults};
ghost use Rattle.basics.specs.First.{first_of};
ghost use Rattle.basics.specs.Refusal.{refusal_told};
ghost use Rattle.explain.specs.Causes.{room_faults, Causes};
ghost use Rattle.explain.specs.Verdict.{told, Right};

use crate::filling::fill;
use crate::trace::scan;
use basics::capture::size_refusal;
use basics::refusal::Refusal;
use basics::settings::Settings;
use controller::Controller;
use request::Request;

// Explained, with the number of steps; or unexplained, with the first step up to which there is no explanation.
#[derive(Clone, Copy, Debug, PartialEq, Eq)]
pub enum Verdict {
    Explained(u16),
    Unexplained(u16),
}

// Hold changes no verdict (`hold_exact` at the front door), so the scan goes by the controller without it. (Its first lines are
// those of `judge_causes` but for the refusals: one function for both would be no plainer than its two lines.)
pub fn judge(settings: Settings, capture: &[u8]) -> Result<Verdict, Refusal>
    ensures { Right settings.n settings.hold settings.mask settings.w capture.now (told result) }
{
    let s = Controller::fresh(Settings {
        hold: false,
        ..settings
    })?;
    size_refusal(capture.len())?;
    Ok(scan(s, capture))
}

// Refusals 8, 9, and 11 for a table that is shorter than the steps.
fn causes_refusal(size: usize, room: usize, room2: usize) -> Result<(), Refusal>
    ensures { refusal_told result ≡ first_of (size_faults size ++ room_faults (size / 4) room room2) }
{
    size_refusal(size)?;
    let steps = size / 4;
    if (room < steps) | (room2 < steps) {
        return Err(Refusal::CausesRoom);
    }
    Ok(())
}

// The judge, which fills the tables of a capture that is explained with causes, one a step (02, a).
pub fn judge_causes(
    settings: Settings,
    capture: &[u8],
    conditions: &mut [u32],
    commands: &mut [u16],
) -> Result<Verdict, Refusal>
    ensures { Causes settings.n settings.hold settings.mask settings.w capture.now conditions.old commands.old (told result) conditions.new commands.new }
{
    let s = Controller::fresh(Settings {
        hold: false,
        ..settings
    })?;
    causes_refusal(capture.len(), conditions.len(), commands.len())?;
    Ok(fill(settings.hold, s, capture, conditions, commands))
}

// The records that the bytes so far leave open: this one, if `heard`, and this one with the idle pair accepted, if `idle`.
// Each flag speaks of a record of its own, and no value goes with either. `Fit` is no ghost field of it: where nothing is left
// open, the definition `next` makes one that does not fit.
#[derive(Clone, Copy)]
pub(crate) struct Records {
    pub controller: Controller,
    pub heard: bool,
    pub idle: bool,
}

// What is asked for, and its rank. (The controller's `RankedRequest` keeps as a fact that it is its rank. Here it is what was looked
// up for a row, and `commanded` alone needs the fact, so that type would be no plainer.)
#[derive(Clone, Copy)]
pub(crate) struct Ranked {
    pub request: Request,
    pub rank: u8,
}

// A row: the pair that is received, and the one that is sent.
#[derive(Clone, Copy)]
pub(crate) struct Row {
    pub k1: u8,
    pub k2: u8,
    pub sent_k1: u8,
    pub sent_k2: u8,
}

// The pair that is accepted behind a row unless section 0 has failed: the received one, if it fits, else the one before; and
// the rank of what it asks for. `fits` goes with no value of its own: the three others are there either way.
#[derive(Clone, Copy)]
pub(crate) struct Heard {
    pub fits: bool,
    pub k1: u8,
    pub k2: u8,
    pub rank: u8,
}
