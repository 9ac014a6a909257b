//! Where the places of a text were written.

ghost use Rattle.std.specs.Prelude.{◌≡◌};

use abl_base::Place;

/// Where the places of a text were written, as far as a listing says it: a text may have been put
/// together of others.
pub trait OwnLines {
    ghost use Rattle.std.specs.Prelude.{ℕ};
    ghost use Rattle.abl_base.specs.declared.place.Place.{Place as ThePlace};

    /// The line that a place of the text has in the text where it was written.
    ghost own_line: { Self → ThePlace → ℕ };

    /// The line of this place, from 1.
    fn line_of(&self, place: Place) -> u32
        ensures { result ≡ own_line self.now place };
}
