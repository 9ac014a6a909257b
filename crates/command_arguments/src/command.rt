//! The command that the arguments name.

ghost use Rattle.std.specs.Prelude.{◌≡◌, ◌∷◌, ℕ, IfErr, IfNone, IfOk, IfSome, List, codes};
ghost use Rattle.command_arguments.specs.CommandLine.{IsWrong, NamesCommand};

use crate::bank::{BankArguments, read_bank};
use crate::check::{CheckArguments, read_check};
use crate::create::{CreateArguments, read_create};
use crate::dump::{DumpArguments, read_dump};
use crate::parts::Arg;
use crate::run::{RunArguments, read_run};

/// The command that the arguments name.
#[derive(Clone, Copy)]
pub enum Command<'a> {
    /// Run sources, each as a client.
    Run(RunArguments<'a>),
    /// List the blocks of sources.
    Check(CheckArguments<'a>),
    /// Run a bank.
    Bank(BankArguments),
    /// Make a database.
    Create(CreateArguments<'a>),
    /// Write the rows of a table.
    Dump(DumpArguments<'a>),
}

/// The arguments after this word, where it is the first one.
fn after<'a>(word: &[u8], arguments: &'a [Arg]) -> Option<&'a [Arg]>
    ensures some { IfSome result (λ rest. arguments.now ≡ word.now ∷ rest.now) }
    ensures none { IfNone result ((rest : List (List ℕ)) → ¬ (arguments.now ≡ word.now ∷ rest)) }
{
    let (first, rest) = arguments.split_first()?;
    if first.as_slice() == word {
        Some(rest)
    } else {
        None
    }
}

/// The command that the arguments name, where they have the form `run SCHEMA STEPS MODE CLIENT...` with
/// 1 to 16 clients whose names differ, `check SCHEMA PROG...` with 1 to 16 PROG,
/// `bank START CLIENTS ACCOUNTS TRANSFERS`, `create SCHEMA` or `dump SCHEMA TABLE`; else the number of the
/// wrong argument, from 0, which is the count of arguments where more are missing.
pub fn read_command(arguments: &[Arg]) -> Result<Command<'_>, u32>
    ensures form { IfOk result (NamesCommand arguments.now) }
    ensures wrong { IfErr result (IsWrong arguments.now) }
{
    match after(b"check", arguments) {
        Some(rest) => match read_check(rest) {
            Ok(check) => Ok(Command::Check(check)),
            Err(argument) => Err(argument),
        },
        None => read_other(arguments),
    }
}

/// The command that the arguments name, where the first one is not `check`.
fn read_other(arguments: &[Arg]) -> Result<Command<'_>, u32>
    requires { (rest : List (List ℕ)) → ¬ (arguments.now ≡ codes "check" ∷ rest) }
    ensures form { IfOk result (NamesCommand arguments.now) }
    ensures wrong { IfErr result (IsWrong arguments.now) }
{
    match after(b"create", arguments) {
        Some(rest) => match read_create(rest) {
            Ok(create) => Ok(Command::Create(create)),
            Err(argument) => Err(argument),
        },
        None => read_dump_or_run(arguments),
    }
}

/// The command that the arguments name, where the first one is neither `check` nor `create`.
fn read_dump_or_run(arguments: &[Arg]) -> Result<Command<'_>, u32>
    requires check { (rest : List (List ℕ)) → ¬ (arguments.now ≡ codes "check" ∷ rest) }
    requires create { (rest : List (List ℕ)) → ¬ (arguments.now ≡ codes "create" ∷ rest) }
    ensures form { IfOk result (NamesCommand arguments.now) }
    ensures wrong { IfErr result (IsWrong arguments.now) }
{
    match after(b"dump", arguments) {
        Some(rest) => match read_dump(rest) {
            Ok(dump) => Ok(Command::Dump(dump)),
            Err(argument) => Err(argument),
        },
        None => read_bank_or_run(arguments),
    }
}

/// The run or the bank that the arguments name, where they name no other command.
fn read_bank_or_run(arguments: &[Arg]) -> Result<Command<'_>, u32>
    requires check { (rest : List (List ℕ)) → ¬ (arguments.now ≡ codes "check" ∷ rest) }
    requires create { (rest : List (List ℕ)) → ¬ (arguments.now ≡ codes "create" ∷ rest) }
    requires dump { (rest : List (List ℕ)) → ¬ (arguments.now ≡ codes "dump" ∷ rest) }
    ensures form { IfOk result (NamesCommand arguments.now) }
    ensures wrong { IfErr result (IsWrong arguments.now) }
{
    match after(b"bank", arguments) {
        Some(_) => match read_bank(arguments) {
            Ok(bank) => Ok(Command::Bank(bank)),
            Err(argument) => Err(argument),
        },
        None => match read_run(arguments) {
            Ok(run) => Ok(Command::Run(run)),
            Err(argument) => Err(argument),
        },
    }
}
