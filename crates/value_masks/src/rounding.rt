//! Magnitudes rounded to the decimals of a mask, a half away from zero.

ghost use Rattle.std.specs.Prelude.{◌≡◌, ◌≤◌, ◌<◌, ◌-◌, ◌++◌, ◌/◌, ◌^◌, nat_lt, replicate};
ghost use Rattle.abl_values.specs.Arithmetic.{rounded};
ghost use Rattle.abl_values.specs.Texts.{last_digits};
ghost use Rattle.value_masks.specs.Put.{units_of};

use abl_base::limits::DECIMAL_PLACES;
use abl_values::rounded;

/// A magnitude rounded to the decimals of a mask.
#[derive(Clone, Copy)]
pub(crate) struct Magnitude {
    /// The digits before the point.
    pub(crate) whole: u128,
    /// The magnitude in units of its last digit.
    pub(crate) units: u128,
    /// The number of decimals computed, at most `DECIMAL_PLACES`; further mask decimals are zeros.
    pub(crate) digits: usize,
}

impl Magnitude {
    /// The magnitude of a decimal, as it is stored, rounded to this number of decimals, a half away
    /// from zero.
    pub(crate) fn of(stored: u128, decimals: usize) -> Magnitude
        ensures whole { result.whole ≡ units_of decimals stored / 10 ^ decimals }
        ensures after { last_digits result.digits result.units ++ replicate (decimals - result.digits) 48
            ≡ last_digits decimals (units_of decimals stored) }
        ensures zero { nat_lt 0 result.units ≡ nat_lt 0 (units_of decimals stored) }
        ensures digits { result.digits ≤ decimals }
    {
        let digits = decimals.min(DECIMAL_PLACES);
        let units = rounded(stored, ten_to(DECIMAL_PLACES - digits));
        Magnitude {
            whole: units / ten_to(digits),
            units,
            digits,
        }
    }
}

/// 10 to the power of at most ten.
fn ten_to(power: usize) -> u128
    requires { power ≤ 10 }
    ensures value { result ≡ 10 ^ power }
    ensures positive { 0 < result }
{
    10u128.pow(power as u32)
}
