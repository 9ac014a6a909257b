//! From the arguments of a run to its clients, ready to run.

ghost use Rattle.std.specs.Prelude.{◌≡◌, ◌≤◌, ◌⊎◌, ◌++◌, ◌∷◌, [], List, IfErr, IfOk, OnOk, length, map};
ghost use Rattle.command_arguments.specs.CommandLine.{client_in};
ghost use Rattle.run_report.specs.declared.refusal.Refusal.TheVariants.{NoMemory};
ghost use Rattle.source_files.specs.Files.{AreSame, OneIsNotRead};
ghost use Rattle.source_files.specs.Compiled.{schema_in};
ghost use Rattle.abl_cli.specs.Command.{Prevents};
ghost use Rattle.abl_cli.specs.Inside.{AreBegun, IsBegun, IsReady, inputs_of};

use abl_base::Bytes;
use abl_values::Schema;
use block_code::Code;
use client_core::Client;
use client_threads::served::client_to_run;
use command_arguments::ClientArgument;
use host_io::Files;
use run_report::Refusal;
use source_files::{ClientTexts, Compiled, compiled_in, read, read_clients, read_named, schema_of};
use std::alloc::Global;

/// What a run needs: the text of the schema file, its schema, and the clients, ready to run.
#[derive(Drop)]
pub struct Loaded {
    pub df: Bytes,
    pub schema: Schema,
    pub clients: Vec<Client>,
}

/// Reads the schema file, and the source and the input of each client, compiles the sources where the
/// schema breaks no rule, and reads the files after INPUT FROM. Each client may spend this number of
/// units.
pub fn load<F: Files>(
    alloc: Global,
    files: &mut F,
    schema: &[u8],
    clients: &[ClientArgument<'_>],
    units: u64,
) -> Result<Loaded, Refusal>
    requires { length clients.now ≤ 16 }
    ensures ready { IfOk result (λ loaded. IsReady (F.state files.old) schema.now (map client_in clients.now) units loaded.schema loaded.clients.items) }
    ensures schema { IfOk result (λ loaded. loaded.schema ≡ schema_in loaded.df) }
    ensures prevented { IfErr result (Prevents (F.state files.old) (F.state files.new).faults schema.now (map client_in clients.now)) }
{
    let df = read(alloc, files, schema)?;
    let mut texts = Vec::new(alloc);
    read_clients(alloc, files, clients, &mut texts)?;
    let compiled = compiled_in(alloc, df.as_slice(), &texts)?;
    let Compiled { schema, codes } = compiled;
    let mut begun = Vec::new(alloc);
    begin_clients(alloc, files, df.as_slice(), units, codes, texts, &mut begun)?;
    Ok(Loaded {
        df,
        schema,
        clients: begun,
    })
}

/// Reads the files after INPUT FROM, and adds a client for each code, with its input and a schema of
/// its own, which is that of the text.
fn begin_clients<F: Files>(
    alloc: Global,
    files: &mut F,
    df: &[u8],
    units: u64,
    codes: Vec<Code>,
    texts: Vec<ClientTexts>,
    clients: &mut Vec<Client>,
) -> Result<(), Refusal>
    requires { length codes.items ≡ length texts.items }
    ensures begun { OnOk result ((more : List _) × (clients.new.items ≡ clients.old.items ++ more) × AreBegun (F.state files.old) units (schema_in df.now).tables codes.items texts.items more) }
    ensures refused { IfErr result (λ refusal. (refusal ≡ NoMemory) ⊎ OneIsNotRead (F.state files.old) (F.state files.new).faults (inputs_of codes.items) refusal) }
{
    let mut codes = codes;
    let mut texts = texts;
    if codes.is_empty() || texts.is_empty() {
        return Ok(());
    }
    let code = codes.remove(0);
    let text = texts.remove(0);
    add_client(alloc, files, df, units, code, text, clients)?;
    begin_clients(alloc, files, df, units, codes, texts, clients)
}

/// Adds the client of this code with the input of its texts, and the files after INPUT FROM that the
/// code names.
fn add_client<F: Files>(
    alloc: Global,
    files: &mut F,
    df: &[u8],
    units: u64,
    code: Code,
    text: ClientTexts,
    clients: &mut Vec<Client>,
) -> Result<(), Refusal>
    ensures begun { OnOk result ((client : _) × (clients.new.items ≡ clients.old.items ++ client ∷ []) × IsBegun (F.state files.old) units (schema_in df.now).tables code text.input client) }
    ensures same { OnOk result (AreSame (F.state files.old) (F.state files.new)) }
    ensures refused { IfErr result (λ refusal. (refusal ≡ NoMemory) ⊎ OneIsNotRead (F.state files.old) (F.state files.new).faults code.inputs.items refusal) }
{
    let Ok(()) = clients.reserve(1) else {
        return Err(Refusal::NoMemory);
    };
    let ClientTexts { source, input } = text;
    drop(source);
    let client = begin_client(alloc, files, df, units, code, input)?;
    clients.push_reserved(client);
    Ok(())
}

/// The client of this code with this input, and the files after INPUT FROM that the code names. The
/// text is that of a schema file which breaks no rule, so that an error in it means out of memory.
fn begin_client<F: Files>(
    alloc: Global,
    files: &mut F,
    df: &[u8],
    units: u64,
    code: Code,
    input: Bytes,
) -> Result<Client, Refusal>
    ensures begun { IfOk result (IsBegun (F.state files.old) units (schema_in df.now).tables code input) }
    ensures same { OnOk result (AreSame (F.state files.old) (F.state files.new)) }
    ensures refused { IfErr result (λ refusal. (refusal ≡ NoMemory) ⊎ OneIsNotRead (F.state files.old) (F.state files.new).faults code.inputs.items refusal) }
{
    let named = read_named(alloc, files, code.inputs.as_slice())?;
    let Ok(schema) = schema_of(alloc, df) else {
        return Err(Refusal::NoMemory);
    };
    match client_to_run(alloc, schema, units, code, input, named) {
        Ok(client) => Ok(client),
        Err(_) => Err(Refusal::NoMemory),
    }
}
