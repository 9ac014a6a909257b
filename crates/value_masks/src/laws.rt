//! What holds of the definitions alone. Each law is what its function ensures.

ghost use Rattle.value_masks.specs.Laws.{TextsHaveTheMasksWidth};

/// What is written of a value under a mask that is one for it has the mask's width, that of `?` and
/// of a number that does not fit included.
pub fn masked_texts_have_the_masks_width()
    ensures { TextsHaveTheMasksWidth }
{}
