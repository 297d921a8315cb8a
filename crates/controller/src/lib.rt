// The controller: one end of a bidirectional, revertive 1:n group (01, 'Settings' and 'One step'; 02, g).
#![tactic(auto)]

mod acceptance;
mod answer;
pub mod asked;
pub mod codes;
pub mod command;
mod local;
mod numbered;
mod ranked;
mod refusal;
pub mod section;
pub mod wait;

ghost use Rattle.basics.specs.Answer.{Answers};
ghost use Rattle.controller.specs.Settings.{making_told, making_case, making};
ghost use Rattle.controller.specs.Step.{step_told, step_case, step};
ghost use Rattle.std.specs.Prelude.{◌≡◌};

use crate::answer::moved;
use crate::numbered::{Numbered, Received};
use crate::refusal::refusal_of;
use basics::refusal::Refusal;
use basics::settings::{Settings, settings_refusal};
use pair::mark::Mark;
use pair::table::numbers;
use request::Request;
use request::command::Fate;

// The settings n, hold, mask and W, as fields of its own, since the definitions of records (`fresh`, `acceptable`, `step`) and the
// theorems on them cite each; the accepted pair; the K1 last sent; the steps of wait left; the held command as a K1,
// where the setting hold keeps it.
#[derive(Clone, Copy, Debug, PartialEq, Eq)]
pub struct Controller {
    pub n: u8,
    pub hold: bool,
    pub mask: u16,
    pub w: u16,
    pub k1: u8,
    pub k2: u8,
    pub sent: u8,
    pub left: u16,
    pub held: u8,
}

impl Controller {
    // The idle pair, 00 08: accepted by a fresh record, and where section 0 has failed.
    pub const IDLE_K1: u8 = 0x00;

    pub const IDLE_K2: u8 = 0x08;

    // No command is held: the K1 of NR.
    pub const NONE_HELD: u8 = 0x00;

    pub fn fresh(settings: Settings) -> Result<Controller, Refusal>
        ensures { Answers making_told making_case (making settings.n settings.hold settings.mask settings.w) result }
    {
        let Settings { n, hold, mask, w } = settings;
        settings_refusal(n, mask, Refusal::Sections, Refusal::Mask)?;
        Ok(Controller {
            n,
            hold,
            mask,
            w,
            k1: Controller::IDLE_K1,
            k2: Controller::IDLE_K2,
            sent: Controller::IDLE_K1,
            left: 0,
            held: Controller::NONE_HELD,
        })
    }

    // Command and channel are numbers here, and conditions bytes: refusals 5 to 7 are about those that are none.
    pub fn step(
        self,
        k1: u8,
        k2: u8,
        conditions: &[u8],
        command: u8,
        channel: u8,
    ) -> Result<Outcome, RefusedStep>
        ensures { Answers step_told step_case (step self k1 k2 conditions.now command channel) result }
    {
        // One look for each of the K1 values of a step.
        let table = numbers();
        let numbered = Numbered {
            controller: self,
            accepted: table[usize::from(self.k1)],
            sent: table[usize::from(self.sent)],
            held: table[usize::from(self.held)],
        };
        let received = Received {
            k1,
            k2,
            number: table[usize::from(k1)],
        };
        match refusal_of(numbered, conditions, command, channel) {
            Ok(command) => Ok(moved(self, received, conditions, command)),
            Err(refusal) => Err(RefusedStep {
                refusal,
                controller: self,
            }),
        }
    }
}

// The pair that a step has accepted: its bytes, what it asks for, the channel it bridges; and the mark of the received.
#[derive(Clone, Copy)]
pub(crate) struct Accepted {
    pub k1: u8,
    pub k2: u8,
    pub request: Request,
    pub bridged: u8,
    pub mark: Option<Mark>,
}

// What a step answers that is not refused.
#[derive(Clone, Copy, Debug, PartialEq, Eq)]
pub struct Outcome {
    pub controller: Controller,
    pub k1: u8,
    pub k2: u8,
    pub bridge: u8,
    pub selector: u8,
    pub mark: Option<Mark>,
    pub fate: Fate,
}

// A refused step: it hands the record back as it came.
#[derive(Clone, Copy, Debug, PartialEq, Eq)]
pub struct RefusedStep {
    pub refusal: Refusal,
    pub controller: Controller,
}
