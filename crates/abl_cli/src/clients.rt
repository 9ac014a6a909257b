//! The clients that the arguments of a run name.

ghost use Rattle.std.specs.Prelude.{◌≡◌, ◌++◌, All, IfOk, List, OnOk, map};
ghost use Rattle.command_arguments.specs.CommandLine.{ClientFiles, IsClientFiles, client_argument, client_in};

use abl_base::Bytes;
use command_arguments::{Arg, ClientArgument, client_of};
use std::alloc::{AllocError, Global};

/// The clients that these arguments name, in order.
pub(crate) fn clients_of(
    alloc: Global,
    arguments: &[Arg],
) -> Result<Vec<ClientArgument<'_>>, AllocError>
    ensures { (cs : List ClientFiles) → arguments.now ≡ map client_argument cs → All IsClientFiles cs → IfOk result (λ clients. map client_in clients.items ≡ cs) }
{
    let mut clients = Vec::new(alloc);
    add_clients(arguments, &mut clients)?;
    Ok(clients)
}

/// Adds the clients that these arguments name.
fn add_clients<'a>(
    arguments: &'a [Arg],
    clients: &mut Vec<ClientArgument<'a>>,
) -> Result<(), AllocError>
    ensures { (cs : List ClientFiles) → arguments.now ≡ map client_argument cs → All IsClientFiles cs → OnOk result (map client_in clients.new.items ≡ map client_in clients.old.items ++ cs) }
{
    let Some((argument, rest)) = arguments.split_first() else {
        return Ok(());
    };
    let Some(client) = client_of(argument.as_slice()) else {
        return Ok(());
    };
    clients.push(client)?;
    add_clients(rest, clients)
}

/// The names of the clients.
pub(crate) fn names_of(
    alloc: Global,
    clients: &[ClientArgument<'_>],
) -> Result<Vec<Bytes>, AllocError>
    ensures { IfOk result (λ names. names.items ≡ map (λ (c : ClientFiles). c.name) (map client_in clients.now)) }
{
    let mut names = Vec::new(alloc);
    add_names(alloc, clients, &mut names)?;
    Ok(names)
}

/// Adds the names of the clients.
fn add_names(
    alloc: Global,
    clients: &[ClientArgument<'_>],
    names: &mut Vec<Bytes>,
) -> Result<(), AllocError>
    ensures { OnOk result (names.new.items ≡ names.old.items ++ map (λ (c : ClientFiles). c.name) (map client_in clients.now)) }
{
    let Some((client, rest)) = clients.split_first() else {
        return Ok(());
    };
    names.push(Bytes::of(alloc, client.name)?)?;
    add_names(alloc, rest, names)
}
