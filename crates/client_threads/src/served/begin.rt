//! A client that is to run.

ghost use Rattle.std.specs.Prelude.{IfOk};
ghost use Rattle.client_threads.specs.served.Served.{IsClientOf};

use abl_base::Bytes;
use abl_values::Schema;
use block_code::Code;
use client_core::{Client, Inputs};
use std::alloc::{AllocError, Global};

/// The client that is to run this code over this schema, with its own input and these named ones. It
/// may spend this number of units.
pub fn client_to_run(
    alloc: Global,
    schema: Schema,
    units: u64,
    code: Code,
    input: Bytes,
    named: Vec<Bytes>,
) -> Result<Client, AllocError>
    ensures { IfOk result (IsClientOf units schema.tables code input named.items) }
{
    let inputs = Inputs {
        schema,
        own: input,
        named,
    };
    match Client::new(alloc, code, inputs, units) {
        Ok(client) => Ok(client),
        Err(error) => Err(error),
    }
}
