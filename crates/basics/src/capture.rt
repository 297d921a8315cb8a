// The size of a capture (01, refusals 8 and 9), for every entry that takes one.
ghost use Rattle.basics.specs.Capture.{size_faults};
ghost use Rattle.basics.specs.First.{first_of};
ghost use Rattle.basics.specs.Refusal.{refusal_told};
ghost use Rattle.std.specs.Prelude.{◌≡◌};

use crate::refusal::Refusal;

const MOST: usize = 65536;

pub fn size_refusal(size: usize) -> Result<(), Refusal>
    ensures { refusal_told result ≡ first_of (size_faults size) }
{
    if size % 4 != 0 {
        return Err(Refusal::CaptureBytes);
    }
    if MOST < size {
        return Err(Refusal::CaptureLength);
    }
    Ok(())
}
