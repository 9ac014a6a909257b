//! The arguments of the command `create` (this project's choice).

ghost use Rattle.std.specs.Prelude.{◌≡◌, ◌∷◌, IfErr, IfOk, codes};
ghost use Rattle.command_arguments.specs.CommandLine.{IsWrong, NamesCreate};

use crate::parts::Arg;

/// What the arguments `create SCHEMA` name.
#[derive(Clone, Copy)]
pub struct CreateArguments<'a> {
    /// The name of the schema file, not empty.
    pub schema: &'a [u8],
}

/// What the arguments after `create` name, or the number of the wrong argument.
pub(crate) fn read_create(arguments: &[Arg]) -> Result<CreateArguments<'_>, u32>
    ensures form { IfOk result (NamesCreate (codes "create" ∷ arguments.now)) }
    ensures wrong { IfErr result (IsWrong (codes "create" ∷ arguments.now)) }
{
    let Some((schema, more)) = arguments.split_first() else {
        return Err(1);
    };
    let schema = schema.as_slice();
    if schema.is_empty() {
        return Err(1);
    }
    if !more.is_empty() {
        return Err(2);
    }
    Ok(CreateArguments { schema })
}
