// A capture's steps, and where the sent K1 stands in them (02, e).
ghost use Rattle.std.specs.Prelude.{IfOk, ◌≡◌};
ghost use Rattle.basics.specs.First.{first_of};
ghost use Rattle.basics.specs.Refusal.{refusal_told};
ghost use Rattle.switches.specs.Extend.{steps_faults};
ghost use Rattle.switches.specs.Walk.{Rows};

use basics::capture::size_refusal;
use basics::refusal::Refusal;

// The third of a step's four bytes.
pub(crate) const SENT: usize = 2;

// The steps of a capture; or refusals 8, 9, and 13 where they are fewer than these.
pub(crate) fn rows_of(capture: &[u8], steps: usize) -> Result<&[[u8; 4]], Refusal>
    ensures refusal { refusal_told result ≡ first_of (steps_faults capture.now steps) }
    ensures rows { IfOk result (λ rows. Rows capture.now steps rows.now) }
{
    size_refusal(capture.len())?;
    let (rows, _) = capture.as_chunks::<4>();
    if rows.len() < steps {
        return Err(Refusal::StepAbsent);
    }
    Ok(rows)
}
