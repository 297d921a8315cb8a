// Refusals 1 to 7: each alone, two at once, and what of a record or of a command is refused.
use crate::answer::Answer;
use crate::sequence::TWO;
use basics::refusal::number_or_0;
use basics::settings::Settings;
use controller::Controller;
use std::fmt;
use std::fmt::Write;

// As fresh makes it of two sections, W = 3, without hold.
const GOOD: Controller = Controller {
    n: 2,
    hold: false,
    mask: 0,
    w: 3,
    k1: Controller::IDLE_K1,
    k2: Controller::IDLE_K2,
    sent: Controller::IDLE_K1,
    left: 0,
    held: Controller::NONE_HELD,
};

fn print_all_fresh(out: &mut impl Write) -> fmt::Result {
    writeln!(out, "\nrefusals of fresh: n, mask: refusal")?;
    let settings = [
        (0, 0),
        (15, 0),
        (0, 1),
        (255, 65535),
        (1, 2),
        (2, 4),
        (14, 16384),
        (15, 32768),
        (1, 1),
        (2, 3),
        (14, 16383),
    ];
    for (n, mask) in settings {
        let settings = Settings { n, mask, ..TWO };
        let refusal = number_or_0(&Controller::fresh(settings));
        writeln!(out, "{n} {mask}: {refusal}")?;
    }
    Ok(())
}

// A step that is to be taken: the first condition, and whether the last one is left out.
#[derive(Clone, Copy)]
struct Trial {
    controller: Controller,
    first: u8,
    short: bool,
    command: u8,
    channel: u8,
}

impl Trial {
    const GOOD: Trial = Trial {
        controller: GOOD,
        first: 0,
        short: false,
        command: 0,
        channel: 0,
    };

    fn take(self) -> Answer {
        let conditions = [self.first, 0, 0];
        let count = if self.short { 2 } else { 3 };
        let conditions = &conditions[..count];
        Answer(
            self.controller
                .step(0x00, 0x08, conditions, self.command, self.channel),
        )
    }

    // Whether the step is refused and hands the record back.
    fn is_handed_back(self, answer: Answer) -> bool {
        match answer.0 {
            Ok(_) => false,
            Err(refused) => refused.controller == self.controller,
        }
    }
}

// What a step is refused for, under the number of the refusal.
// (No `Refusal`: a fault is what is spoilt, and two are put into one step.)
#[derive(Clone, Copy)]
enum Fault {
    Sections = 1,
    Mask = 2,
    Record = 3,
    ConditionCount = 4,
    Condition = 5,
    Command = 6,
    CommandChannel = 7,
}

impl Fault {
    const ALL: [Fault; 7] = [
        Fault::Sections,
        Fault::Mask,
        Fault::Record,
        Fault::ConditionCount,
        Fault::Condition,
        Fault::Command,
        Fault::CommandChannel,
    ];

    fn put_into(self, mut t: Trial) -> Trial {
        match self {
            Fault::Sections => t.controller.n = 0,
            Fault::Mask => t.controller.mask = 32768,
            Fault::Record => t.controller.sent = 0x10,
            Fault::ConditionCount => t.short = true,
            Fault::Condition => t.first = 3,
            Fault::Command => t.command = 5,
            Fault::CommandChannel => t.channel = 9,
        }
        t
    }
}

fn print_faults(out: &mut impl Write) -> fmt::Result {
    writeln!(
        out,
        "\nrefusals of a step, by two faults: rows and columns are the faults 1 to 7\n  1 2 3 4 5 6 7"
    )?;
    let mut handed_back: u32 = 0;
    for first in Fault::ALL {
        write!(out, "{}", first as u8)?;
        for second in Fault::ALL {
            let trial = second.put_into(first.put_into(Trial::GOOD));
            let answer = trial.take();
            write!(out, " {}", answer.refusal())?;
            if trial.is_handed_back(answer) {
                handed_back = handed_back.saturating_add(1);
            }
        }
        writeln!(out)?;
    }
    writeln!(out, "zeros and the given record: {handed_back} of 49")
}

// The record, and whether it is refused a step in which nothing is bad and nothing is commanded.
fn print_record(out: &mut impl Write, s: Controller) -> fmt::Result {
    write!(out, "{} {} {} {} ", s.n, u8::from(s.hold), s.mask, s.w)?;
    write!(out, "{:02X} {:02X} {:02X} ", s.k1, s.k2, s.sent)?;
    let count = usize::from(s.n) + 1;
    let conditions = [0u8; 15];
    let answer = Answer(s.step(0x00, 0x08, &conditions[..count.min(15)], 0, 0));
    writeln!(out, "{} {:02X}: {}", s.left, s.held, answer.refusal())
}

// (Each of the five tables of records below sets other fields: one function for all five would be no plainer, since it would take a
// closure that makes the record.)
fn print_by_accepted(out: &mut impl Write) -> fmt::Result {
    let accepted = [
        (0x00, 0x08),
        (0x00, 0x00),
        (0x00, 0x0F),
        (0x00, 0x2E),
        (0x11, 0x08),
        (0xA3, 0x08),
        (0x00, 0x38),
    ];
    for (k1, k2) in accepted {
        print_record(out, Controller { k1, k2, ..GOOD })?;
    }
    Ok(())
}

fn print_by_sent(out: &mut impl Write) -> fmt::Result {
    let masks_and_sent = [
        (0, 0x10),
        (0, 0xC0),
        (0, 0xC3),
        (0, 0x01),
        (0, 0x22),
        (0, 0xD0),
        (3, 0xD0),
        (0, 0xB0),
        (0, 0xD1),
        (1, 0xD1),
        (1, 0xC1),
        (1, 0xC2),
        (2, 0xA1),
        (2, 0xA2),
        (2, 0xB2),
        (0, 0xB1),
    ];
    for (mask, sent) in masks_and_sent {
        print_record(out, Controller { mask, sent, ..GOOD })?;
    }
    Ok(())
}

// With W = 0 no wait is good.
fn print_by_wait(out: &mut impl Write) -> fmt::Result {
    let waits = [
        (3, 0x61, 0),
        (3, 0x61, 1),
        (3, 0x61, 3),
        (3, 0x61, 4),
        (0, 0x61, 0),
        (0, 0x61, 1),
        (3, 0xC1, 1),
        (3, 0x00, 1),
        (3, 0xE2, 0),
    ];
    for (w, sent, left) in waits {
        let s = Controller {
            w,
            sent,
            left,
            ..GOOD
        };
        print_record(out, s)?;
    }
    Ok(())
}

// With hold: none held, each command of two sections, then channels and requests that no command has (02, g).
fn print_by_held(out: &mut impl Write) -> fmt::Result {
    let held = [
        0x00, 0xF0, 0xE1, 0xE2, 0x81, 0x82, 0xE3, 0xE0, 0x83, 0x80, 0xF1, 0x01, 0xC1, 0xD0, 0x61,
        0x22,
    ];
    for held in held {
        let s = Controller {
            hold: true,
            held,
            ..GOOD
        };
        print_record(out, s)?;
    }
    Ok(())
}

// Nothing is held without the setting; with it, the K1 last sent is asked for nothing more than before (02, g).
fn print_held_otherwise(out: &mut impl Write) -> fmt::Result {
    for held in [0xF0, 0xE1, 0x81, 0x01] {
        print_record(out, Controller { held, ..GOOD })?;
    }
    let sent_and_held = [
        (0xF0, 0, 0x00),
        (0xE1, 0, 0x00),
        (0xE1, 0, 0x82),
        (0x61, 2, 0x81),
    ];
    for (sent, left, held) in sent_and_held {
        let s = Controller {
            hold: true,
            sent,
            left,
            held,
            ..GOOD
        };
        print_record(out, s)?;
    }
    Ok(())
}

// Of fourteen sections, the last one of high priority.
const FOURTEEN: Controller = Controller {
    n: 14,
    mask: 8192,
    w: 65535,
    k1: 0xEE,
    k2: 0xE8,
    sent: 0xDE,
    ..GOOD
};

fn print_records(out: &mut impl Write) -> fmt::Result {
    writeln!(
        out,
        "\nrefusals by the record: n hold mask W, accepted, sent, left, held: refusal"
    )?;
    print_by_accepted(out)?;
    print_by_sent(out)?;
    print_by_wait(out)?;
    print_record(out, FOURTEEN)?;
    let waiting = Controller {
        k1: 0x6E,
        sent: 0x6E,
        left: 65535,
        ..FOURTEEN
    };
    print_record(out, waiting)?;
    print_by_held(out)?;
    print_held_otherwise(out)?;
    for held in [0xEE, 0x8E, 0xEF] {
        let s = Controller {
            hold: true,
            held,
            ..FOURTEEN
        };
        print_record(out, s)?;
    }
    Ok(())
}

fn print_commands(out: &mut impl Write) -> fmt::Result {
    writeln!(
        out,
        "\nrefusals by the command, n 2: rows are commands 0 to 5, columns channels 0 to 3\n  0 1 2 3"
    )?;
    for command in 0..6u8 {
        write!(out, "{command}")?;
        for channel in 0..4 {
            let answer = Answer(GOOD.step(0x00, 0x08, &[0, 0, 0], command, channel));
            write!(out, " {}", answer.refusal())?;
        }
        writeln!(out)?;
    }
    Ok(())
}

pub(crate) fn print_refusals(out: &mut impl Write) -> fmt::Result {
    print_all_fresh(out)?;
    print_faults(out)?;
    print_records(out)?;
    print_commands(out)
}
