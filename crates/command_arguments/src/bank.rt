//! The arguments of the command `bank` (this project's choice).

ghost use Rattle.std.specs.Prelude.{◌≡◌, ◌≤◌, ◌<◌, ◌+◌, ◌↔◌, IfErr, IfOk, IsTrue, length, slice_get, take};
ghost use Rattle.command_arguments.specs.CommandLine.{HaveBankForm, IsNumber, IsWrongIn, NamesBank};
ghost use Rattle.command_arguments.specs.Places.{FitBank, FitsBank, bank_form};

use crate::parts::{Arg, is_decimal, number_in};

/// What the arguments `bank START CLIENTS ACCOUNTS TRANSFERS` name.
#[derive(Clone, Copy, Debug)]
pub struct BankArguments {
    /// Where the generator begins: 0 to 2147483647.
    pub start: u32,
    /// The number of clients that make transfers: 1 to 8.
    pub clients: u32,
    /// The number of accounts: 2 to 10000.
    pub accounts: u32,
    /// The number of transfers: 1 to 50000.
    pub transfers: u32,
}

/// A place of the form.
#[derive(Clone, Copy, Debug)]
pub enum BankPlace {
    Command,
    Start,
    Clients,
    Accounts,
    Transfers,
}

impl BankPlace {
    /// The place of this number, from 0.
    fn at(place: usize) -> Option<BankPlace>
        ensures { result ≡ slice_get bank_form place }
    {
        match place {
            0 => Some(BankPlace::Command),
            1 => Some(BankPlace::Start),
            2 => Some(BankPlace::Clients),
            3 => Some(BankPlace::Accounts),
            4 => Some(BankPlace::Transfers),
            _ => None,
        }
    }

    /// Whether the argument may be there.
    fn takes(self, arg: &[u8]) -> bool
        ensures { IsTrue result ↔ FitsBank self arg.now }
    {
        match self {
            BankPlace::Command => arg == b"bank".as_slice(),
            BankPlace::Start => is_number(0, 2_147_483_647, arg),
            BankPlace::Clients => is_number(1, 8, arg),
            BankPlace::Accounts => is_number(2, 10_000, arg),
            BankPlace::Transfers => is_number(1, 50_000, arg),
        }
    }
}

/// Whether the argument is a number without a leading zero, within these bounds.
fn is_number(least: u64, most: u64, arg: &[u8]) -> bool
    ensures { IsTrue result ↔ IsNumber least most arg.now }
{
    is_decimal(arg) && number_in(arg) >= least && number_in(arg) <= most
}

/// The index of the first argument that does not fit its place, or the count of arguments.
fn first_misfit(arguments: &[Arg]) -> usize
    ensures within { result ≤ length arguments.now }
    ensures fits { FitBank bank_form (take result arguments.now) }
    ensures first { result < length arguments.now → ¬ FitBank bank_form (take (result + 1) arguments.now) }
{
    for (place, arg) in arguments.iter().enumerate() {
        let fits = match BankPlace::at(place) {
            Some(at) => at.takes(arg.as_slice()),
            None => false,
        };
        if !fits {
            return place;
        }
    }
    arguments.len()
}

/// What the arguments name, where they have the form `bank START CLIENTS ACCOUNTS TRANSFERS`. Otherwise
/// the number of the argument that is wrong by this form, from 0; where more arguments are missing, this
/// is the count of arguments.
pub fn read_bank(arguments: &[Arg]) -> Result<BankArguments, u32>
    ensures form { IfOk result (NamesBank arguments.now) }
    ensures wrong { IfErr result (IsWrongIn HaveBankForm arguments.now) }
{
    let misfit = first_misfit(arguments);
    if misfit < 5 {
        return Err(misfit as u32);
    }
    if arguments.len() > 5 {
        return Err(5);
    }
    Ok(BankArguments {
        start: number_in(arguments[1].as_slice()) as u32,
        clients: number_in(arguments[2].as_slice()) as u32,
        accounts: number_in(arguments[3].as_slice()) as u32,
        transfers: number_in(arguments[4].as_slice()) as u32,
    })
}
