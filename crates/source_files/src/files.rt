//! The files that a command reads before the rules are looked at.

ghost use Rattle.std.specs.Prelude.{◌≡◌, ◌++◌, List, Some, IfErr, IfOk, OnOk, map, option_copied};
ghost use Rattle.command_arguments.specs.CommandLine.{client_in};
ghost use Rattle.source_files.specs.Files.{AreSame, AskedIsNotRead, AsksClient, AsksClients, HasClient, HasInput, HasText, HaveClients, HaveTexts, IsNotRead, OneIsNotRead};

use crate::sources::read_source;
use crate::texts::SourceTexts;
use abl_base::Bytes;
use command_arguments::ClientArgument;
use host_io::{FileFault, Files};
use preprocessor::NamedText;
use run_report::Refusal;
use std::alloc::Global;

/// The most bytes that a schema file, a source, a file that a source needs, or an input may have.
pub const MAX_FILE_BYTES: u64 = 1_048_576;

/// The texts of a client that are read before the rules are checked.
#[derive(Drop)]
pub struct ClientTexts {
    pub source: SourceTexts,
    pub input: Bytes,
}

/// Reads the source of each client with the files that it needs, and then its input, and adds their
/// texts.
pub fn read_clients<F: Files>(
    alloc: Global,
    files: &mut F,
    clients: &[ClientArgument<'_>],
    texts: &mut Vec<ClientTexts>,
) -> Result<(), Refusal>
    ensures read { OnOk result ((more : List ClientTexts) × (texts.new.items ≡ texts.old.items ++ more) × HaveClients (F.state files.old) (map client_in clients.now) more) }
    ensures same { OnOk result (AreSame (F.state files.old) (F.state files.new)) }
    ensures refused { IfErr result (AskedIsNotRead (F.state files.old) (F.state files.new).faults (AsksClients (F.state files.old) (map client_in clients.now))) }
{
    let Some((client, rest)) = clients.split_first() else {
        return Ok(());
    };
    let read = read_client(alloc, files, client)?;
    let Ok(()) = texts.push(read) else {
        return Err(Refusal::NoMemory);
    };
    read_clients(alloc, files, rest, texts)
}

/// The texts of the client's source and input.
fn read_client<F: Files>(
    alloc: Global,
    files: &mut F,
    client: &ClientArgument<'_>,
) -> Result<ClientTexts, Refusal>
    ensures texts { IfOk result (HasClient (F.state files.old) (client_in client.now)) }
    ensures same { OnOk result (AreSame (F.state files.old) (F.state files.new)) }
    ensures refused { IfErr result (AskedIsNotRead (F.state files.old) (F.state files.new).faults (AsksClient (F.state files.old) (client_in client.now))) }
{
    let source = read_source(alloc, files, client.program)?;
    match read_input(alloc, files, client.input) {
        Ok(input) => Ok(ClientTexts { source, input }),
        Err(refusal) => Err(refusal),
    }
}

/// The text of the client's input: that of its file, and empty without one.
fn read_input<F: Files>(
    alloc: Global,
    files: &mut F,
    input: Option<&[u8]>,
) -> Result<Bytes, Refusal>
    ensures text { IfOk result (HasInput (F.state files.old) (option_copied input.entry)) }
    ensures refused { IfErr result (AskedIsNotRead (F.state files.old) (F.state files.new).faults (λ name. option_copied input.entry ≡ Some name)) }
    ensures same { OnOk result (AreSame (F.state files.old) (F.state files.new)) }
{
    match input {
        Some(name) => read(alloc, files, name),
        None => Ok(Bytes::empty(alloc)),
    }
}

/// The texts of the files of these names, in order.
pub fn read_named<F: Files>(
    alloc: Global,
    files: &mut F,
    names: &[Bytes],
) -> Result<Vec<Bytes>, Refusal>
    ensures texts { IfOk result (λ texts. HaveTexts (F.state files.old) names.now texts.items) }
    ensures refused { IfErr result (OneIsNotRead (F.state files.old) (F.state files.new).faults names.now) }
    ensures same { OnOk result (AreSame (F.state files.old) (F.state files.new)) }
{
    let mut texts = Vec::new(alloc);
    for name in names {
        match read(alloc, files, name.as_slice()) {
            Ok(text) => match texts.push(text) {
                Ok(()) => {}
                Err(_) => return Err(Refusal::NoMemory),
            },
            Err(refusal) => return Err(refusal),
        }
    }
    Ok(texts)
}

/// The text of the file of this name.
pub fn read<F: Files>(alloc: Global, files: &mut F, name: &[u8]) -> Result<Bytes, Refusal>
    ensures text { IfOk result (HasText (F.state files.old) name.now) }
    ensures refused { IfErr result (IsNotRead (F.state files.old) (F.state files.new).faults name.now) }
    ensures same { OnOk result (AreSame (F.state files.old) (F.state files.new)) }
{
    let Ok(name) = Bytes::of(alloc, name) else {
        return Err(Refusal::NoMemory);
    };
    match read_text(files, name) {
        Ok(text) => Ok(text.bytes),
        Err(refusal) => Err(refusal),
    }
}

/// The file of this name, with its text.
pub(crate) fn read_text<F: Files>(files: &mut F, name: Bytes) -> Result<NamedText, Refusal>
    ensures name { IfOk result (λ text. text.name ≡ name) }
    ensures text { IfOk result (λ text. HasText (F.state files.old) name text.bytes) }
    ensures refused { IfErr result (IsNotRead (F.state files.old) (F.state files.new).faults name) }
    ensures same { OnOk result (AreSame (F.state files.old) (F.state files.new)) }
{
    match files.read(&name, MAX_FILE_BYTES) {
        Ok(bytes) => Ok(NamedText { name, bytes }),
        Err(FileFault::Failed) => Err(Refusal::File { name }),
        Err(FileFault::TooLong) => Err(Refusal::TooLong {
            name,
            most: MAX_FILE_BYTES,
        }),
        Err(FileFault::NoMemory) => Err(Refusal::NoMemory),
    }
}
