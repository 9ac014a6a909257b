//! The arguments of the command `check` (this project's choice).

ghost use Rattle.std.specs.Prelude.{◌≡◌, ◌≤◌, ◌<◌, ◌∷◌, All, IfErr, IfOk, [], codes, get_or, length, take};
ghost use Rattle.command_arguments.specs.CommandLine.{IsWrong, NamesCheck};

use crate::parts::Arg;

/// What the arguments `check SCHEMA PROG...` name.
#[derive(Clone, Copy)]
pub struct CheckArguments<'a> {
    /// The name of the schema file, not empty.
    pub schema: &'a [u8],
    /// The names of the source files, 1 to 16, not empty.
    pub programs: &'a [Arg],
}

/// The index of the first empty name, or the count of names.
fn first_empty(names: &[Arg]) -> usize
    ensures within { result ≤ length names.now }
    ensures some { All (λ name. 0 < length name) (take result names.now) }
    ensures empty { result < length names.now → length (get_or names.now result []) ≡ 0 }
{
    for (at, name) in names.iter().enumerate() {
        if name.as_slice().is_empty() {
            return at;
        }
    }
    names.len()
}

/// The programs of a check of this schema, where 1 to 16 follow and none is empty. Otherwise the
/// number of the wrong argument, from 0. `check` and SCHEMA are counted as the first two.
fn read_programs<'a>(schema: &'a [u8], programs: &'a [Arg]) -> Result<CheckArguments<'a>, u32>
    requires { 0 < length schema.now }
    ensures form { IfOk result (NamesCheck (codes "check" ∷ schema.now ∷ programs.now)) }
    ensures wrong { IfErr result (IsWrong (codes "check" ∷ schema.now ∷ programs.now)) }
{
    let empty = first_empty(programs);
    if empty >= 16 && programs.len() > 16 {
        return Err(18);
    }
    if empty < programs.len() {
        return Err(empty as u32 + 2);
    }
    if programs.is_empty() {
        return Err(2);
    }
    Ok(CheckArguments { schema, programs })
}

/// What the arguments after `check` name, or the number of the wrong argument.
pub(crate) fn read_check(arguments: &[Arg]) -> Result<CheckArguments<'_>, u32>
    ensures form { IfOk result (NamesCheck (codes "check" ∷ arguments.now)) }
    ensures wrong { IfErr result (IsWrong (codes "check" ∷ arguments.now)) }
{
    let Some((schema, programs)) = arguments.split_first() else {
        return Err(1);
    };
    let schema = schema.as_slice();
    if schema.is_empty() {
        return Err(1);
    }
    read_programs(schema, programs)
}
