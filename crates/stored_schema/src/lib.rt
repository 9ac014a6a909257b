//! A schema, and how a database stores the rows of its tables. A `StoredSchema` has a schema, the
//! stored fields of each table and the text by which a database keeps both: the canonical text, with
//! dropped fields at their places. The layer above may rely on `laid_out`, a schema as it is stored
//! at creation, and on `seen_by`, which gives the stored schema as another schema sees it, exactly
//! where the two agree (`specs/Agreement.antt`). It depends on `abl_values` and `stored_fields`.
#![tactic(auto)]

pub mod agreement;
pub mod laws;
pub mod laying;
pub mod seeing;
pub mod stored;
pub mod text;

pub use agreement::agree;
pub use laying::laid_out;
pub use seeing::seen_by;
pub use stored::{StoredFields, StoredSchema};
pub use text::stored_text;
