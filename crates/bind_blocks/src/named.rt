//! The blocks around a place, by a label or a property. The rules U on labels are judged apart.

ghost use Rattle.std.specs.Prelude.{◌≡◌};
ghost use Rattle.bind_blocks.specs.Named.{block_named, first_block};
ghost use Rattle.bind_blocks.specs.Views.{sought_test};

use abl_values::same_name;
use bind_names::Around;
use syntax_tree::Word;

/// The blocks that are looked for.
#[derive(Clone, Copy)]
pub enum Sought<'a> {
    Iterating,
    /// Those that can be undone.
    Undoing,
    Numbered(u32),
    Labelled(&'a [u8]),
}

fn is_sought(sought: Sought<'_>, x: &Around) -> bool
    ensures { result ≡ sought_test sought.entry x.now }
{
    match sought {
        Sought::Iterating => x.iterates,
        Sought::Undoing => x.undoes,
        Sought::Numbered(number) => x.number == number,
        Sought::Labelled(label) => match &x.label {
            None => false,
            Some(name) => same_name(name.as_slice(), label),
        },
    }
}

/// The number of the innermost such block, and that of the procedure's where there is none.
pub fn first_block(sought: Sought<'_>, around: &[Around]) -> u32
    ensures { result ≡ first_block (sought_test sought.entry) around.now }
{
    let mut last = 0;
    for x in around {
        if is_sought(sought, x) {
            return x.number;
        }
        last = x.number;
    }
    last
}

/// The number of the block with the label, or of the innermost such block where there is no label.
pub fn block_named(otherwise: Sought<'_>, around: &[Around], label: &Option<Word>) -> u32
    ensures { result ≡ block_named (sought_test otherwise.entry) around.now label.now }
{
    match label {
        None => first_block(otherwise, around),
        Some(label) => first_block(Sought::Labelled(label.spelling.as_slice()), around),
    }
}
