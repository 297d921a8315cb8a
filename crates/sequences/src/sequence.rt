// A sequence of steps of one controller, and how it is printed: its settings, and a line a step.
use crate::answer::Answer;
use basics::settings::Settings;
use controller::Controller;
use controller::command::{Command, channel, number};
use std::fmt;
use std::fmt::Write;

// Two sections of low priority, W = 3, without hold, as most sequences have them.
pub(crate) const TWO: Settings = Settings {
    n: 2,
    hold: false,
    mask: 0,
    w: 3,
};

// As a record begins. No settings of this program are refused: the zeros stand in the place of a proof of that.
pub(crate) fn start(settings: Settings) -> Controller {
    let Ok(controller) = Controller::fresh(settings) else {
        return Controller {
            n: 0,
            hold: false,
            mask: 0,
            w: 0,
            k1: 0,
            k2: 0,
            sent: 0,
            left: 0,
            held: 0,
        };
    };
    controller
}

// What a step is handed: the received pair, the conditions, and the command if there is one.
#[derive(Clone, Copy)]
pub(crate) struct Step(pub u8, pub u8, pub &'static [u8], pub Option<Command>);

impl Step {
    fn take(self, controller: Controller) -> Answer {
        let Step(k1, k2, conditions, command) = self;
        Answer(controller.step(k1, k2, conditions, number(command), channel(command)))
    }
}

impl fmt::Display for Step {
    fn fmt<W: fmt::Write>(&self, f: &mut fmt::Formatter<W>) -> fmt::Result {
        let Step(k1, k2, conditions, command) = *self;
        write!(f, "{k1:02X} {k2:02X} ")?;
        for condition in conditions {
            write!(f, "{condition}")?;
        }
        write!(f, " {} {}", number(command), channel(command))
    }
}

#[derive(Clone, Copy)]
pub(crate) struct Sequence {
    pub name: &'static str,
    pub settings: Settings,
    pub steps: &'static [Step],
}

impl Sequence {
    pub(crate) fn print(&self, out: &mut impl Write) -> fmt::Result {
        let Settings { n, hold, mask, w } = self.settings;
        let held = if hold { " hold" } else { "" };
        writeln!(out, "{}: n {n} mask {mask} W {w}{held}", self.name)?;
        let mut controller = start(self.settings);
        for step in self.steps {
            let answer = step.take(controller);
            writeln!(out, "{step}: {answer}")?;
            controller = answer.controller();
        }
        Ok(())
    }
}
