// The settings of a group, and whether they are such as one may have (01, 'Settings'), for every refusal that goes by it.
ghost use Rattle.basics.specs.First.{first_error};
ghost use Rattle.basics.specs.Settings.{sections_fit, mask_fits, settings_checks};
ghost use Rattle.std.specs.Prelude.{◌≡◌};

// n working sections, 1 to 14; whether an unsent command stays held (02, g); the mask of the sections of high priority; the
// restoral wait W in steps. Any values may stand here: `settings_refusal` tells which a group may have.
#[derive(Clone, Copy, Debug, PartialEq, Eq)]
pub struct Settings {
    pub n: u8,
    pub hold: bool,
    pub mask: u16,
    pub w: u16,
}

pub fn sections_fit(n: u8) -> bool
    ensures { result ≡ sections_fit n }
{
    (1..=14).contains(&n)
}

// A mask of 16 bits has none at 16 or above.
fn mask_fits(n: u8, mask: u16) -> bool
    ensures { result ≡ mask_fits n mask }
{
    n >= 16 || mask >> n == 0
}

// The answer that goes with what does not fit, n before the mask.
pub fn settings_refusal<E: Copy>(n: u8, mask: u16, first: E, second: E) -> Result<(), E>
    ensures { result ≡ first_error (settings_checks first second n mask) }
{
    if !sections_fit(n) {
        return Err(first);
    }
    if !mask_fits(n, mask) {
        return Err(second);
    }
    Ok(())
}
