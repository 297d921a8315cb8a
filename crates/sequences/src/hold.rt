// The setting hold (02, g): each sequence with it and then without, where rule 5 of 01 forgets what is not sent.
use crate::sequence::{Sequence, Step, TWO};
use basics::settings::Settings;
use controller::command::Command::{Clear, Forced, Lockout, Manual};
use std::fmt;
use std::fmt::Write;

const SEQUENCES: &[Sequence] = &[
    // With hold, SF0 outranks the switch for as long as it lasts, and the switch then comes back.
    Sequence {
        name: "a forced switch under a failed section 0",
        settings: TWO,
        steps: &[
            Step(0x00, 0x08, &[0, 0, 0], Some(Forced(1))),
            Step(0x00, 0x08, &[2, 0, 0], None),
            Step(0x00, 0x08, &[2, 0, 0], None),
            Step(0x00, 0x08, &[0, 0, 0], None),
        ],
    },
    // With hold, a new command is taken though it is not sent; once the section is good the command outranks the wait, and
    // so nothing of the wait is left.
    Sequence {
        name: "a manual switch behind a failed section",
        settings: TWO,
        steps: &[
            Step(0x00, 0x08, &[0, 2, 0], Some(Manual(2))),
            Step(0x00, 0x08, &[0, 2, 0], None),
            Step(0x00, 0x08, &[0, 0, 0], None),
            Step(0x00, 0x08, &[0, 0, 0], None),
        ],
    },
    // One command is held, not a pile of them: what the lockout replaced is gone after the clear, with either setting.
    Sequence {
        name: "a lockout over a forced switch",
        settings: TWO,
        steps: &[
            Step(0x00, 0x08, &[0, 0, 0], Some(Forced(1))),
            Step(0x00, 0x08, &[0, 0, 0], Some(Lockout)),
            Step(0x00, 0x08, &[0, 0, 0], Some(Clear)),
            Step(0x00, 0x08, &[0, 0, 0], None),
        ],
    },
    // With hold, a command that is not sent still stands in the way of one of its rank, and gives way to one of higher rank.
    Sequence {
        name: "a second command while the first is overridden",
        settings: TWO,
        steps: &[
            Step(0x00, 0x08, &[0, 0, 0], Some(Manual(1))),
            Step(0x00, 0x08, &[2, 0, 0], Some(Manual(2))),
            Step(0x00, 0x08, &[2, 0, 0], Some(Forced(2))),
            Step(0x00, 0x08, &[0, 0, 0], None),
            Step(0x00, 0x08, &[0, 0, 0], Some(Clear)),
        ],
    },
];

pub(crate) fn print_sequences(out: &mut impl Write) -> fmt::Result {
    for sequence in SEQUENCES {
        for hold in [true, false] {
            let settings = Settings {
                hold,
                ..sequence.settings
            };
            Sequence {
                settings,
                ..*sequence
            }
            .print(out)?;
        }
    }
    Ok(())
}
