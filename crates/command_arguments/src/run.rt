//! The arguments of the command `run` (this project's choice).

ghost use Rattle.std.specs.Prelude.{◌≡◌, ◌≢◌, ◌≤◌, ◌<◌, ◌+◌, ◌↔◌, All, List, false, length, map, take, IsTrue, IfOk, IfErr, slice_get};
ghost use Rattle.command_arguments.specs.CommandLine.{AreClients, ClientFiles, HaveRunForm, IsClientFiles, IsWrongIn, Names, client_argument};
ghost use Rattle.command_arguments.specs.Places.{FitAll, Fits, form};

use crate::client::client_of;
use crate::parts::{Arg, Mode, is_steps, mode_of, number_in};

/// What the arguments `run SCHEMA STEPS MODE CLIENT...` name. A CLIENT is `NAME=PROG` or
/// `NAME=PROG<INPUT`.
#[derive(Clone, Copy)]
pub struct RunArguments<'a> {
    /// The name of the schema file, not empty.
    pub schema: &'a [u8],
    /// How many units each client may spend, from 1 to 999999999.
    pub steps: u64,
    /// What is written besides the clients' outputs.
    pub mode: Mode,
    /// The arguments of the clients, 1 to 16, each of the form that `client_of` reads. No two have
    /// one name.
    pub clients: &'a [Arg],
}

/// A place of the form before the clients.
#[derive(Clone, Copy, Debug)]
pub enum Argument {
    Command,
    Schema,
    Steps,
    Mode,
}

/// The place of this number, from 0.
fn argument_at(place: usize) -> Option<Argument>
    ensures { result ≡ slice_get form place }
{
    match place {
        0 => Some(Argument::Command),
        1 => Some(Argument::Schema),
        2 => Some(Argument::Steps),
        3 => Some(Argument::Mode),
        _ => None,
    }
}

/// Whether the argument may be at that place.
fn fits(argument: Argument, arg: &[u8]) -> bool
    ensures { IsTrue result ↔ Fits argument arg.now }
{
    match argument {
        Argument::Command => arg == b"run".as_slice(),
        Argument::Schema => !arg.is_empty(),
        Argument::Steps => is_steps(arg),
        Argument::Mode => mode_of(arg).is_some(),
    }
}

/// The number of the first argument that does not fit its place, or the count of arguments.
fn first_misfit(arguments: &[Arg]) -> usize
    ensures within { result ≤ length arguments.now }
    ensures fits { FitAll form (take result arguments.now) }
    ensures first { result < length arguments.now → ¬ FitAll form (take (result + 1) arguments.now) }
{
    for (place, arg) in arguments.iter().enumerate() {
        let fits = match argument_at(place) {
            Some(argument) => fits(argument, arg.as_slice()),
            None => false,
        };
        if !fits {
            return place;
        }
    }
    arguments.len()
}

/// Whether no client of these arguments has the name.
fn is_new(name: &[u8], clients: &[Arg]) -> bool
    ensures yes { IsTrue result → (cs : List ClientFiles) → clients.now ≡ map client_argument cs → All IsClientFiles cs → All (λ (c : ClientFiles). c.name ≢ name.now) cs }
    ensures no { result ≡ false → (cs : List ClientFiles) → clients.now ≡ map client_argument cs → All IsClientFiles cs → ¬ All (λ (c : ClientFiles). c.name ≢ name.now) cs }
{
    for arg in clients {
        if let Some(other) = client_of(arg.as_slice()) {
            if other.name == name {
                return false;
            }
        }
    }
    true
}

/// The index of the first argument that is no client, or whose client has the name of one before it;
/// the count of arguments where there is none.
fn first_wrong(arguments: &[Arg]) -> usize
    ensures within { result ≤ length arguments.now }
    ensures clients { AreClients (take result arguments.now) }
    ensures wrong { result < length arguments.now → ¬ AreClients (take (result + 1) arguments.now) }
{
    for (at, arg) in arguments.iter().enumerate() {
        match client_of(arg.as_slice()) {
            Some(client) => {
                if !is_new(client.name, &arguments[..at]) {
                    return at;
                }
            }
            None => return at,
        }
    }
    arguments.len()
}

/// What the arguments name, where they have the form `run SCHEMA STEPS MODE CLIENT...` with 1 to 16
/// clients whose names differ. Otherwise the number of the argument that is wrong by this form, from
/// 0; where more arguments are missing, this is the count of arguments.
pub fn read_run(arguments: &[Arg]) -> Result<RunArguments<'_>, u32>
    ensures form { IfOk result (λ run. Names arguments.now run) }
    ensures wrong { IfErr result (IsWrongIn HaveRunForm arguments.now) }
{
    let misfit = first_misfit(arguments);
    if misfit < 4 {
        return Err(misfit as u32);
    }
    let (_, clients) = arguments.split_at(4);
    let wrong = first_wrong(clients);
    if wrong >= 16 && clients.len() > 16 {
        return Err(20);
    }
    if wrong < clients.len() {
        return Err(wrong as u32 + 4);
    }
    if clients.is_empty() {
        return Err(4);
    }
    let Some(mode) = mode_of(arguments[3].as_slice()) else {
        unreachable!()
    };
    Ok(RunArguments {
        schema: arguments[1].as_slice(),
        steps: number_in(arguments[2].as_slice()),
        mode,
        clients,
    })
}
