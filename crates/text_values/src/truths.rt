//! Texts that denote truth values.

ghost use Rattle.std.specs.Prelude.{◌≡◌};
ghost use Rattle.text_values.specs.TextValues.{truth_in};

use abl_values::same_name;

/// The LOGICAL that a text denotes: yes, no, true, false or a first letter of these, in any case.
pub fn truth_in(text: &[u8]) -> Option<bool>
    ensures { result ≡ truth_in text.now }
{
    if same_name(text, b"yes")
        || same_name(text, b"true")
        || same_name(text, b"y")
        || same_name(text, b"t")
    {
        Some(true)
    } else if same_name(text, b"no")
        || same_name(text, b"false")
        || same_name(text, b"n")
        || same_name(text, b"f")
    {
        Some(false)
    } else {
        None
    }
}
