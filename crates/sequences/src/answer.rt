// What a step answered, as it is printed, counted and summed up.
use controller::{Controller, Outcome, RefusedStep};
use pair::mark::Mark;
use std::fmt;

#[derive(Clone, Copy)]
pub(crate) struct Answer(pub Result<Outcome, RefusedStep>);

impl Answer {
    // The number of the refusal, 0 where the step was taken.
    pub(crate) fn refusal(self) -> u8 {
        match self.0 {
            Ok(_) => 0,
            Err(refused) => refused.refusal.number(),
        }
    }

    pub(crate) fn controller(self) -> Controller {
        match self.0 {
            Ok(o) => o.controller,
            Err(refused) => refused.controller,
        }
    }

    // The refusal, K1 and K2, the bridge, the selector, the mark and the fate; a refused step answers zeros.
    pub(crate) fn numbers(self) -> [u8; 7] {
        match self.0 {
            Ok(o) => {
                let mark = Mark::number_or_0(o.mark);
                let fate = o.fate.number();
                [0, o.k1, o.k2, o.bridge, o.selector, mark, fate]
            }
            Err(refused) => [refused.refusal.number(), 0, 0, 0, 0, 0, 0],
        }
    }
}

impl fmt::Display for Answer {
    fn fmt<W: fmt::Write>(&self, f: &mut fmt::Formatter<W>) -> fmt::Result {
        let [refusal, k1, k2, bridge, selector, mark, fate] = self.numbers();
        write!(f, "{refusal} {k1:02X} {k2:02X} ")?;
        write!(f, "{bridge} {selector} {mark} {fate}")
    }
}
