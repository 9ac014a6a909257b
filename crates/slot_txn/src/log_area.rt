//! The area of the log.

ghost use Rattle.std.specs.Prelude.{◌≡◌, ◌⊎◌, ◌≤◌};

/// The area of the log, 1 or 2.
pub fn log_area(area: u8) -> u8
    ensures place { (1 ≤ result) × (result ≤ 2) }
    ensures same { (area ≡ 1) ⊎ (area ≡ 2) → result ≡ area }
{
    if area == 2 { 2 } else { 1 }
}
