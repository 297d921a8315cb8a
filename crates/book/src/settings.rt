// Refusals 25, 31 and 32 of an entry, which the reader and the writer both ask for (01, 'Numbered refusals'; 02, f and g).
ghost use Rattle.basics.specs.First.{first_of};
ghost use Rattle.basics.specs.Refusal.{refusal_told};
ghost use Rattle.book.specs.Format.{settings_faults};
ghost use Rattle.std.specs.Prelude.{◌≡◌};

use crate::Entry;
use basics::refusal::Refusal;
use basics::settings::settings_refusal;

#[tactic(auto, using(basics::proofs::Refusals::settings_told))]
pub(crate) fn check_settings(e: Entry) -> Result<(), Refusal>
    ensures { refusal_told result ≡ first_of (settings_faults e) }
{
    if 1 < e.spare {
        return Err(Refusal::Options);
    }
    settings_refusal(e.n, e.mask, Refusal::EntrySections, Refusal::EntryMask)
}
