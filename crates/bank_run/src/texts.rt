//! The clients of a bank, in order: `setup`, `c1` to `cN`, `total`.

ghost use Rattle.std.specs.Prelude.{◌≡◌, ◌++◌, ◌<◌, ◌≤◌, IfOk, length, true};
ghost use Rattle.preprocessor.specs.Laws.{is_plain};
ghost use Rattle.source_files.specs.declared.files.TheConstants.{MAX_FILE_BYTES};
ghost use Rattle.source_files.specs.Expansions.{alone};
ghost use Rattle.bank_run.specs.Texts.{IsBank, bank_names, bank_texts, client_name};

use crate::inputs::transfer::write_number;
use crate::inputs::{Bank, SETUP_SOURCE, TOTAL_SOURCE, TRANSFER_SOURCE, client_input, setup_input};
use abl_base::Bytes;
use source_files::{ClientTexts, SourceTexts};
use std::alloc::{AllocError, Global};

/// The sources and inputs of the clients.
pub fn texts_of(alloc: Global, bank: Bank) -> Result<Vec<ClientTexts>, AllocError>
    requires { IsBank bank }
    ensures { IfOk result (λ texts. texts.items ≡ bank_texts bank) }
{
    let mut texts = Vec::new(alloc);
    texts.push(text_of(alloc, SETUP_SOURCE, setup_input(alloc, bank.accounts)?)?)?;
    for client in 0..bank.clients {
        let input = client_input(alloc, bank, client)?;
        texts.push(text_of(alloc, TRANSFER_SOURCE, input)?)?;
    }
    texts.push(text_of(alloc, TOTAL_SOURCE, Bytes::empty(alloc))?)?;
    Ok(texts)
}

/// The texts of a client with this source, which has neither `{` nor `&`, and this input.
fn text_of(alloc: Global, source: &[u8], input: Bytes) -> Result<ClientTexts, AllocError>
    requires short { length source.now ≤ MAX_FILE_BYTES }
    requires plain { is_plain source.now ≡ true }
    ensures { IfOk result (λ texts. texts ≡ record { source = alone source.now; input = input }) }
{
    let source = SourceTexts::alone(alloc, source)?;
    Ok(ClientTexts { source, input })
}

/// The names of the clients.
pub fn names_of(alloc: Global, clients: u32) -> Result<Vec<Bytes>, AllocError>
    requires { clients ≤ 8 }
    ensures { IfOk result (λ names. names.items ≡ bank_names clients) }
{
    let mut names = Vec::new(alloc);
    names.push(Bytes::of(alloc, b"setup")?)?;
    for before in 0..clients {
        names.push(client_name(alloc, before)?)?;
    }
    names.push(Bytes::of(alloc, b"total")?)?;
    Ok(names)
}

/// The name of the client that makes transfers and has this many before it.
fn client_name(alloc: Global, before: u32) -> Result<Bytes, AllocError>
    requires { before < 8 }
    ensures { IfOk result (λ name. name ≡ client_name before) }
{
    let mut name = Bytes::of(alloc, b"c")?;
    write_number(&mut name, before + 1)?;
    Ok(name)
}
