//! The argument of a client (this project's choice).

ghost use Rattle.std.specs.Prelude.{◌≡◌, ◌++◌, ◌∷◌, All, ◌≢◌, IfSome, IfNone, option_copied};
ghost use Rattle.command_arguments.specs.CommandLine.{ClientFiles, IsClientFiles, IsFileName, IsInput, IsName, client_argument, client_in, input_part};
ghost use Rattle.command_arguments.specs.Places.{AreFiles, IsClient};

use crate::parts::{index_of, is_file_name, is_name};

/// A client that an argument names.
#[derive(Clone, Copy)]
pub struct ClientArgument<'a> {
    /// The client's name, 1 to 16 ASCII letters or digits.
    pub name: &'a [u8],
    /// The name of the source file, not empty and without `<`.
    pub program: &'a [u8],
    /// The name of the file that is the client's input, in the same form; without one the input is
    /// empty.
    pub input: Option<&'a [u8]>,
}

/// The files of a client.
#[derive(Clone, Copy)]
struct FilesPart<'a> {
    program: &'a [u8],
    input: Option<&'a [u8]>,
}

/// The files that `PROG` or `PROG<INPUT` names.
fn files_in(part: &[u8]) -> Option<FilesPart<'_>>
    ensures some { IfSome result (λ files. IsFileName files.program.now × IsInput (option_copied files.input) × (part.now ≡ files.program.now ++ input_part (option_copied files.input))) }
    ensures none { IfNone result (¬ AreFiles part.now) }
{
    let Some(at) = index_of(b'<', part) else {
        return program_alone(part);
    };
    let program = &part[..at];
    let (_, input) = part.split_at(at + 1);
    if is_file_name(program) && is_file_name(input) {
        Some(FilesPart {
            program,
            input: Some(input),
        })
    } else {
        None
    }
}

/// The files that `PROG` names, where there is no `<`.
fn program_alone(part: &[u8]) -> Option<FilesPart<'_>>
    requires { All (λ byte. byte ≢ 60) part.now }
    ensures some { IfSome result (λ files. IsFileName files.program.now × IsInput (option_copied files.input) × (part.now ≡ files.program.now ++ input_part (option_copied files.input))) }
    ensures none { IfNone result (¬ AreFiles part.now) }
{
    if is_file_name(part) {
        Some(FilesPart {
            program: part,
            input: None,
        })
    } else {
        None
    }
}

/// The name and the files of `NAME=PROG` or `NAME=PROG<INPUT`.
fn parts_of(arg: &[u8]) -> Option<(&[u8], FilesPart<'_>)>
    ensures some { IfSome result (λ parts. IsName parts.0.now × IsFileName parts.1.program.now × IsInput (option_copied parts.1.input) × (arg.now ≡ parts.0.now ++ 61 ∷ (parts.1.program.now ++ input_part (option_copied parts.1.input)))) }
    ensures none { IfNone result (¬ IsClient arg.now) }
{
    let at = index_of(b'=', arg)?;
    let name = &arg[..at];
    let (_, part) = arg.split_at(at + 1);
    let files = files_in(part)?;
    if is_name(name) {
        Some((name, files))
    } else {
        None
    }
}

/// The client that the argument names, where it has the form `NAME=PROG` or `NAME=PROG<INPUT`. An
/// argument names one client at most.
pub fn client_of(arg: &[u8]) -> Option<ClientArgument<'_>>
    ensures some { IfSome result (λ client. IsClientFiles (client_in client) × (arg.now ≡ client_argument (client_in client))) }
    ensures none { IfNone result ((c : ClientFiles) → IsClientFiles c → ¬ (arg.now ≡ client_argument c)) }
    ensures one { (c : ClientFiles) → IsClientFiles c → arg.now ≡ client_argument c → IfSome result (λ client. client_in client ≡ c) }
{
    match parts_of(arg) {
        Some((name, files)) => Some(ClientArgument {
            name,
            program: files.program,
            input: files.input,
        }),
        None => None,
    }
}
