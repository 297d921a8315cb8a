// Long walks of one controller over drawn inputs, for comparison with the peer: counts, and a sum over all that is answered.
ghost use Rattle.std.specs.Prelude.{◌≤◌, ◌<◌};

use crate::answer::Answer;
use crate::sequence::start;
use basics::settings::Settings;
use controller::{Controller, Outcome};
use request::command::Fate;
use std::fmt;
use std::fmt::Write;

const STEPS: u32 = 20000;

// Draws inputs for n sections. The numbers come from a generator modulo a prime.
#[derive(Drop)]
struct Draws {
    n: u8,
    last: u64,
    ghost n_fits: { n ≤ 14 },
}

impl Draws {
    fn next(&mut self) -> u64 {
        self.last = self.last % 2147483647 * 48271 % 2147483647;
        self.last
    }

    // One of the k numbers from 0 on.
    fn below(&mut self, k: u8) -> u8
        requires { 0 < k }
        ensures { result < k }
    {
        (self.next() % u64::from(k)) as u8
    }

    fn settings(&mut self, hold: bool) -> Settings {
        let bits: u64 = 1 << self.n;
        let mask = (self.next() % bits) as u16;
        let w = (self.next() % 4) as u16;
        Settings {
            n: self.n,
            hold,
            mask,
            w,
        }
    }

    fn pair(&mut self) -> (u8, u8) {
        let channels = self.n + 2;
        let code = self.below(16);
        let channel = self.below(channels);
        let bridged = self.below(channels);
        let line = match self.below(8) {
            line @ 6.. => line,
            _ => 0,
        };
        (code * 16 + channel, bridged * 16 + 0b1000 + line)
    }

    // Seldom degraded or failed.
    fn condition(&mut self) -> u8 {
        match self.below(self.n * 8 + 8) {
            condition @ 0..3 => condition,
            _ => 0,
        }
    }

    // A condition for section 0 and for each of the n. The others are not drawn for.
    fn conditions(&mut self) -> [u8; 15] {
        let mut conditions = [0; 15];
        for condition in &mut conditions[..=usize::from(self.n)] {
            *condition = self.condition();
        }
        conditions
    }

    // The command and its channel, which is n + 1 at times: numbers, since what a step refuses is drawn too.
    fn command(&mut self) -> (u8, u8) {
        match self.below(16) {
            command @ 0..3 => (command, 0),
            command @ 3..5 => (command, self.below(self.n + 1) + 1),
            _ => (0, 0),
        }
    }
}

// A sum over numbers in their order.
#[derive(Clone, Copy, Default)]
struct Sum(u64);

impl Sum {
    fn add(&mut self, value: u16) {
        self.0 = (self.0 % 65521 * 31 + u64::from(value)) % 65521;
    }

    fn add_answer(&mut self, answer: Answer) {
        for number in answer.numbers() {
            self.add(u16::from(number));
        }
    }

    // The held command is of the record only with hold (02, g); without, the sum is of the record of 01.
    fn add_record(&mut self, s: Controller) {
        for byte in [s.k1, s.k2, s.sent] {
            self.add(u16::from(byte));
        }
        self.add(s.left);
        if s.hold {
            self.add(u16::from(s.held));
        }
    }
}

// What was counted on a walk.
#[derive(Default, Drop)]
struct Counts {
    refused: u32,
    taken: u32,
    denied: u32,
    marked: u32,
    sum: Sum,
}

impl Counts {
    // At the end of its type a count stays.
    fn add(&mut self, answer: Answer) {
        match answer.0 {
            Ok(o) => self.add_taken(o),
            Err(_) => self.refused = self.refused.saturating_add(1),
        }
        self.sum.add_answer(answer);
        self.sum.add_record(answer.controller());
    }

    fn add_taken(&mut self, o: Outcome) {
        match o.fate {
            Fate::NoCommand => {}
            Fate::Taken => self.taken = self.taken.saturating_add(1),
            Fate::Denied => self.denied = self.denied.saturating_add(1),
        }
        if o.mark.is_some() {
            self.marked = self.marked.saturating_add(1);
        }
    }
}

impl fmt::Display for Counts {
    fn fmt<W: fmt::Write>(&self, f: &mut fmt::Formatter<W>) -> fmt::Result {
        write!(f, "{} {} ", self.refused, self.taken)?;
        write!(f, "{} {} {}", self.denied, self.marked, self.sum.0)
    }
}

fn print_walk(out: &mut impl Write, n: u8, hold: bool) -> fmt::Result
    requires { n ≤ 14 }
{
    let mut draws = Draws {
        n,
        last: u64::from(n),
    };
    let settings = draws.settings(hold);
    let mut controller = start(settings);
    let mut counts = Counts::default();
    for _ in 0..STEPS {
        let (k1, k2) = draws.pair();
        let conditions = draws.conditions();
        let (command, channel) = draws.command();
        let conditions = &conditions[..=usize::from(n)];
        let answer = Answer(controller.step(k1, k2, conditions, command, channel));
        counts.add(answer);
        controller = answer.controller();
    }
    let Settings { mask, w, .. } = settings;
    writeln!(out, "{n} {mask} {w}: {counts}")
}

// The same draws for both settings of hold, so that a line of the one table stands against that of the other.
pub(crate) fn print_walks(out: &mut impl Write) -> fmt::Result {
    for hold in [false, true] {
        let with_hold = if hold { " with hold" } else { "" };
        writeln!(
            out,
            "\nwalks of {STEPS} steps{with_hold}: n mask W: refused, taken, denied, marked, sum"
        )?;
        for n in 1..15 {
            print_walk(out, n, hold)?;
        }
    }
    Ok(())
}
