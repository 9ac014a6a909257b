//! Text forms: what IMPORT reads of a line and what PUT and STRING write under any mask, beside what
//! EXPORT writes (given out again from `value_masks`) and the texts that denote values (from
//! `text_values`). It depends on these two and on `text_forms`. The layer above may rely on
//! `specs/Masked.antt` and `Imports.antt`, which `masked` and `import_line` compute; on `text_forms`
//! there, the forms that expressions and statements take as a parameter; on `Lines.antt`, which says
//! what a line is by its elements; and on `laws`. Its rows are those of `test_values`.
#![tactic(auto)]

pub mod answer;
mod element;
pub mod import;
pub mod laws;
mod line;
pub mod mask;

pub use answer::{ImportFault, Imported};
pub use import::import_line;
pub use mask::{is_mask_for, masked};
pub use text_values::number_in;
pub use value_masks::{export_line, mask_fits, plain};
