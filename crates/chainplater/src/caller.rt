// What a caller in C hands in, and is handed: the options byte beside settings; the bytes of an answer, or zeros where it is
// refused, and the number of its refusal, or 0.
ghost use Rattle.basics.specs.Refusal.{refusal_told};
ghost use Rattle.chainplater.specs.Caller.{bytes_told, settings_for};
ghost use Rattle.std.specs.Prelude.{◌≡◌};

use basics::refusal::Refusal;
use basics::settings::Settings;

pub(crate) fn put<const SIZE: usize>(
    answer: Result<[u8; SIZE], Refusal>,
    out: &mut [u8; SIZE],
) -> u8
    ensures value { result ≡ refusal_told answer.entry }
    ensures out_after { out.new ≡ bytes_told SIZE answer.entry }
{
    let (bytes, number) = match answer {
        Ok(bytes) => (bytes, 0),
        Err(refusal) => ([0; SIZE], refusal.number()),
    };
    *out = bytes;
    number
}

// Options above 1 are none, which is refused before all else.
pub(crate) fn settings(n: u8, options: u8, mask: u16, w: u16) -> Result<Settings, Refusal>
    ensures { result ≡ settings_for n options mask w }
{
    if options > 1 {
        return Err(Refusal::Options);
    }
    let hold = options == 1;
    Ok(Settings { n, hold, mask, w })
}
