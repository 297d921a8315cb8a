// What becomes of a command, for callers that show or count it.
ghost use Rattle.request.specs.Command.{fate_number};
ghost use Rattle.std.specs.Prelude.{◌≡◌};

#[derive(Clone, Copy, Debug, PartialEq, Eq)]
pub enum Fate {
    NoCommand,
    Taken,
    Denied,
}

impl Fate {
    // The paper's number of it.
    pub fn number(self) -> u8
        ensures { result ≡ fate_number self }
    {
        self as u8
    }
}
