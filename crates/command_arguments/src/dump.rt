//! The arguments of the command `dump` (this project's choice).

ghost use Rattle.std.specs.Prelude.{◌≡◌, ◌<◌, ◌∷◌, IfErr, IfOk, codes, length};
ghost use Rattle.command_arguments.specs.CommandLine.{IsWrong, NamesDump};

use crate::parts::Arg;

/// What the arguments `dump SCHEMA TABLE` name.
#[derive(Clone, Copy)]
pub struct DumpArguments<'a> {
    /// The name of the schema file, not empty.
    pub schema: &'a [u8],
    /// The name of the table, not empty.
    pub table: &'a [u8],
}

/// The dump of a table of this schema, where its name follows, is not empty, and is the last argument.
/// Otherwise the number of the wrong argument, from 0. `dump` and SCHEMA are counted as the first two.
fn read_table<'a>(schema: &'a [u8], arguments: &'a [Arg]) -> Result<DumpArguments<'a>, u32>
    requires { 0 < length schema.now }
    ensures form { IfOk result (NamesDump (codes "dump" ∷ schema.now ∷ arguments.now)) }
    ensures wrong { IfErr result (IsWrong (codes "dump" ∷ schema.now ∷ arguments.now)) }
{
    let Some((table, more)) = arguments.split_first() else {
        return Err(2);
    };
    let table = table.as_slice();
    if table.is_empty() {
        return Err(2);
    }
    if !more.is_empty() {
        return Err(3);
    }
    Ok(DumpArguments { schema, table })
}

/// What the arguments after `dump` name, or the number of the wrong argument.
pub(crate) fn read_dump(arguments: &[Arg]) -> Result<DumpArguments<'_>, u32>
    ensures form { IfOk result (NamesDump (codes "dump" ∷ arguments.now)) }
    ensures wrong { IfErr result (IsWrong (codes "dump" ∷ arguments.now)) }
{
    let Some((schema, rest)) = arguments.split_first() else {
        return Err(1);
    };
    let schema = schema.as_slice();
    if schema.is_empty() {
        return Err(1);
    }
    read_table(schema, rest)
}
