// K1 values beside their numbers in the table of K1 values (02, j), which a step looks up once.
ghost use Rattle.pair.specs.Request.{requests};
ghost use Rattle.pair.specs.Table.{number_for};
ghost use Rattle.std.specs.Prelude.{◌≡◌};

use crate::Controller;

// A record: the numbers of the accepted K1, of the one last sent, and of the held command.
#[derive(Clone, Copy)]
pub(crate) struct Numbered {
    pub controller: Controller,
    pub accepted: u16,
    pub sent: u16,
    pub held: u16,
    ghost accepted_is: { accepted ≡ number_for requests controller.k1 },
    ghost sent_is: { sent ≡ number_for requests controller.sent },
    ghost held_is: { held ≡ number_for requests controller.held },
}

// A received pair: the number of its K1.
#[derive(Clone, Copy)]
pub(crate) struct Received {
    pub k1: u8,
    pub k2: u8,
    pub number: u16,
    ghost number_is: { number ≡ number_for requests k1 },
}
