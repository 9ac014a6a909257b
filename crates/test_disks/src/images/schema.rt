//! The two schemas of the rows.

ghost use Rattle.std.specs.Prelude.{◌≡◌, IfSome};
ghost use Rattle.schema_reader.specs.Meaning.{schema_of};
ghost use Rattle.schema_lines.specs.Files.{items_of};

use abl_values::Schema;
use schema_reader::read_df;
use std::alloc::Global;

/// One table with a unique index, and a sequence.
pub const CUSTOMERS: &[u8] = b"ADD TABLE \"customer\"
ADD FIELD \"num\" OF \"customer\" AS integer
ADD FIELD \"name\" OF \"customer\" AS character
ADD INDEX \"num\" ON \"customer\"
  UNIQUE
  PRIMARY
  INDEX-FIELD \"num\" ASCENDING
ADD SEQUENCE \"next\"
  INITIAL 5
.
";

/// The same without the index and the sequence.
pub const PLAIN: &[u8] = b"ADD TABLE \"customer\"
ADD FIELD \"num\" OF \"customer\" AS integer
ADD FIELD \"name\" OF \"customer\" AS character
.
";

/// The schema of a file. None means out of memory: the files of this module break no rule.
pub fn schema(alloc: Global, text: &[u8]) -> Option<Schema>
    ensures { IfSome result (λ schema. schema ≡ schema_of (items_of text.now)) }
{
    match read_df(alloc, text) {
        Ok(schema) => Some(schema),
        Err(_) => None,
    }
}
