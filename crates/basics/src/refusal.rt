// The numbered refusals (01, 'Numbered refusals'; 02, a, c, e and f), for every entry that may refuse.
ghost use Rattle.basics.specs.Refusal.{refusal_number, refusal_told};
ghost use Rattle.std.specs.Prelude.{◌≡◌};

use std::error::Error;
use std::fmt;

#[derive(Clone, Copy, Debug, PartialEq, Eq)]
pub enum Refusal {
    /// n is outside 1 to 14.
    Sections = 1,
    /// The mask has a bit at n or above.
    Mask = 2,
    /// The record is none that a controller can have.
    Record = 3,
    /// The conditions are not n + 1.
    ConditionCount = 4,
    /// A condition is above 2.
    Condition = 5,
    /// The command is above 4.
    Command = 6,
    /// The command's channel is not one that it may have.
    CommandChannel = 7,
    /// The capture's bytes are not whole steps.
    CaptureBytes = 8,
    /// The capture is above 65,536 bytes.
    CaptureLength = 9,
    /// No usable pair decodes to the record.
    NotDecoded = 10,
    /// A table of causes is shorter than the steps.
    CausesRoom = 11,
    /// The table has fewer entries than there are changes.
    SwitchesRoom = 12,
    /// The capture has fewer steps than are spoken of.
    StepAbsent = 13,
    /// The list is not that of the changes.
    SwitchesOther = 16,
    /// The book is above 65,536 bytes.
    BookLength = 20,
    /// The book is below 2 bytes.
    BookShort = 21,
    /// The book's byte 0 is not 1.
    BookVersion = 22,
    /// The book has more than 64 captures.
    BookCount = 23,
    /// The contents are cut.
    ContentsCut = 24,
    /// The options, a book's spare byte, are above 1.
    Options = 25,
    /// A body does not begin where it belongs.
    Offset = 26,
    /// A body passes the end of the book.
    BodyCut = 27,
    /// Bytes are left over behind the last body.
    BytesLeft = 28,
    /// The output is too short.
    OutputShort = 29,
    /// The joined bodies are not four times the sum of the steps.
    BodiesLength = 30,
    /// An entry's n is outside 1 to 14.
    EntrySections = 31,
    /// An entry's mask has a bit at n or above.
    EntryMask = 32,
}

impl Refusal {
    /// The number that the papers give it.
    pub fn number(self) -> u8
        ensures { result ≡ refusal_number self }
    {
        self as u8
    }
}

/// The number of an answer's refusal, 0 where it is none.
pub fn number_or_0<A>(answer: &Result<A, Refusal>) -> u8
    ensures { result ≡ refusal_told answer.now }
{
    match answer {
        Ok(_) => 0,
        Err(refusal) => refusal.number(),
    }
}

// As the programs print it.
impl fmt::Display for Refusal {
    fn fmt<W: fmt::Write>(&self, f: &mut fmt::Formatter<W>) -> fmt::Result {
        write!(f, "refused {}", self.number())
    }
}

impl Error for Refusal {}

#[cfg(test)]
mod tests {
    use super::*;
    use std::test::Fail;

    #[test]
    fn printed(rt: HostRuntime) -> Result<(), Fail> {
        assert_eq!(rt;
            format!(in rt.alloc(); "{}", Refusal::Sections)?.as_str(),
            "refused 1"
        );
        assert_eq!(rt;
            format!(in rt.alloc(); "{}", Refusal::EntryMask)?.as_str(),
            "refused 32"
        );
        Ok(())
    }
}
