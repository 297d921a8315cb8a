// The paper's sequences, and some with commands.
use crate::sequence::{Sequence, Step, TWO};
use basics::settings::Settings;
use controller::command::Command::{Clear, Forced, Lockout, Manual};
use std::fmt;
use std::fmt::Write;

const THREE: Settings = Settings { n: 3, ..TWO };

// The conditions of fourteen sections, the last one failed, and the last one degraded.
const FAILED: &[u8] = &[0, 0, 0, 0, 0, 0, 0, 0, 0, 0, 0, 0, 0, 0, 2];

const DEGRADED: &[u8] = &[0, 0, 0, 0, 0, 0, 0, 0, 0, 0, 0, 0, 0, 0, 1];

const SEQUENCES: &[Sequence] = &[
    Sequence {
        name: "P1",
        settings: TWO,
        steps: &[Step(0x00, 0x08, &[0, 0, 0], None)],
    },
    Sequence {
        name: "P2 P3 P8 P9",
        settings: TWO,
        steps: &[
            Step(0x00, 0x08, &[0, 0, 1], None),
            Step(0x22, 0x28, &[0, 0, 1], None),
            Step(0x22, 0x28, &[0, 0, 0], None),
            Step(0x22, 0x28, &[0, 0, 0], None),
            Step(0x22, 0x28, &[0, 0, 0], None),
            Step(0x22, 0x28, &[0, 0, 0], None),
        ],
    },
    Sequence {
        name: "P4 P5 P6",
        settings: TWO,
        steps: &[
            Step(0xA2, 0x08, &[0, 0, 0], None),
            Step(0xA2, 0x28, &[0, 0, 0], None),
            Step(0xA2, 0x28, &[0, 2, 0], None),
        ],
    },
    Sequence {
        name: "P2 P3 P7",
        settings: TWO,
        steps: &[
            Step(0x00, 0x08, &[0, 0, 1], None),
            Step(0x22, 0x28, &[0, 0, 1], None),
            Step(0xC1, 0x08, &[0, 0, 1], None),
        ],
    },
    Sequence {
        name: "P10",
        settings: TWO,
        steps: &[Step(0x00, 0x08, &[2, 0, 0], Some(Forced(1)))],
    },
    Sequence {
        name: "P11",
        settings: TWO,
        steps: &[Step(0x00, 0x08, &[0, 2, 2], None)],
    },
    Sequence {
        name: "P11",
        settings: Settings { mask: 2, ..TWO },
        steps: &[Step(0x00, 0x08, &[0, 2, 2], None)],
    },
    Sequence {
        name: "P2 P12",
        settings: TWO,
        steps: &[
            Step(0x00, 0x08, &[0, 0, 1], None),
            Step(0x11, 0x08, &[0, 0, 1], None),
        ],
    },
    Sequence {
        name: "P13",
        settings: TWO,
        steps: &[
            Step(0x00, 0x08, &[0, 0, 2], None),
            Step(0x00, 0x08, &[0, 2, 2], None),
        ],
    },
    // First come stays (02, d): after its own request, and not after RR.
    Sequence {
        name: "first come stays",
        settings: THREE,
        steps: &[
            Step(0x00, 0x08, &[0, 0, 2, 0], None),
            Step(0x00, 0x08, &[0, 2, 2, 0], None),
            Step(0x22, 0x28, &[0, 2, 2, 0], None),
        ],
    },
    Sequence {
        name: "no claim after RR",
        settings: THREE,
        steps: &[
            Step(0x00, 0x08, &[0, 0, 2, 0], None),
            Step(0xE3, 0x08, &[0, 2, 2, 0], None),
            Step(0x00, 0x08, &[0, 2, 2, 0], None),
        ],
    },
    // What does not stay: before section 0, once repaired, against the far end.
    Sequence {
        name: "the tie of section 0",
        settings: Settings { mask: 1, ..THREE },
        steps: &[
            Step(0x00, 0x08, &[0, 1, 0, 0], None),
            Step(0x21, 0x18, &[0, 1, 0, 0], None),
            Step(0x21, 0x18, &[1, 1, 0, 0], None),
        ],
    },
    Sequence {
        name: "a place is lost",
        settings: THREE,
        steps: &[
            Step(0x00, 0x08, &[0, 0, 2, 0], None),
            Step(0x22, 0x28, &[0, 2, 2, 2], None),
            Step(0x22, 0x28, &[0, 2, 0, 2], None),
            Step(0x22, 0x28, &[0, 2, 2, 2], None),
        ],
    },
    Sequence {
        name: "between the ends",
        settings: THREE,
        steps: &[
            Step(0x00, 0x08, &[0, 0, 2, 0], None),
            Step(0xC1, 0x08, &[0, 2, 2, 0], None),
            Step(0xC1, 0x18, &[0, 2, 2, 0], None),
        ],
    },
    // Line bits 111 (02, c), beside bit 5 at 0 and other line bits; then with commands, and with a condition above 2.
    Sequence {
        name: "line bits 111",
        settings: TWO,
        steps: &[
            Step(0x00, 0x08, &[0, 0, 1], None),
            Step(0x22, 0x2F, &[0, 0, 1], None),
            Step(0x22, 0x28, &[0, 0, 1], None),
            Step(0x22, 0x27, &[0, 0, 1], None),
            Step(0x22, 0x2D, &[0, 0, 1], None),
        ],
    },
    Sequence {
        name: "line bits 111 and commands",
        settings: TWO,
        steps: &[
            Step(0xA1, 0x1F, &[0, 0, 0], Some(Forced(1))),
            Step(0xA1, 0x1F, &[0, 0, 0], Some(Lockout)),
            Step(0xA1, 0x1F, &[3, 0, 0], None),
            Step(0xA1, 0x18, &[0, 0, 0], Some(Clear)),
        ],
    },
    Sequence {
        name: "no wait",
        settings: Settings { w: 0, ..TWO },
        steps: &[
            Step(0x00, 0x08, &[0, 0, 1], None),
            Step(0x22, 0x28, &[0, 0, 1], None),
            Step(0x22, 0x28, &[0, 0, 0], None),
        ],
    },
    // Section 14 failed, degraded, good; then a channel that no section has, and one command.
    Sequence {
        name: "channel 14",
        settings: Settings {
            n: 14,
            mask: 8192,
            ..TWO
        },
        steps: &[
            Step(0x00, 0x08, FAILED, None),
            Step(0x2E, 0xE8, FAILED, None),
            Step(0x2E, 0xE8, DEGRADED, None),
            Step(0x2E, 0xE8, &[0; 15], None),
            Step(0xAF, 0x08, &[0; 15], None),
            Step(0xEE, 0xE8, &[0; 15], None),
            Step(0x00, 0x08, &[0; 15], Some(Manual(14))),
        ],
    },
    Sequence {
        name: "commands",
        settings: TWO,
        steps: &[
            Step(0x00, 0x08, &[0, 0, 0], Some(Manual(2))),
            Step(0x22, 0x28, &[0, 0, 0], None),
            Step(0x22, 0x28, &[0, 0, 0], Some(Manual(1))),
            Step(0x22, 0x28, &[0, 0, 0], Some(Forced(1))),
            Step(0x21, 0x18, &[0, 0, 0], Some(Forced(1))),
            Step(0x21, 0x18, &[0, 0, 0], Some(Lockout)),
            Step(0x20, 0x08, &[0, 0, 0], None),
            Step(0x20, 0x08, &[0, 0, 0], Some(Clear)),
            Step(0x00, 0x08, &[0, 0, 0], None),
        ],
    },
    Sequence {
        name: "clear ends the wait",
        settings: TWO,
        steps: &[
            Step(0x00, 0x08, &[0, 1, 0], None),
            Step(0x21, 0x18, &[0, 0, 0], None),
            Step(0x21, 0x18, &[0, 0, 0], Some(Clear)),
            Step(0x21, 0x18, &[0, 0, 0], None),
        ],
    },
];

pub(crate) fn print_sequences(out: &mut impl Write) -> fmt::Result {
    writeln!(
        out,
        "\nthe paper's sequences, a line per step: received, conditions, command, channel: refusal, K1 K2, bridge, selector, mark, fate"
    )?;
    for sequence in SEQUENCES {
        sequence.print(out)?;
    }
    Ok(())
}
