//! The inputs of the clients of a bank.

ghost use Rattle.std.specs.Prelude.{◌≡◌, ◌<◌, ◌≤◌, ◌*◌, ◌++◌, [], if◌then◌else◌, IfOk, OnOk};
ghost use Rattle.bank_run.specs.inputs.Bank.{account_line, client_input, setup_input, transfer_line};

use crate::inputs::bank::Bank;
use crate::inputs::draws::Draws;
use crate::inputs::transfer::{Transfer, write_number};
use abl_base::Bytes;
use std::alloc::{AllocError, Global};

/// The input of the client with this number, from 0: the lines of its transfers, in order. The clients
/// have the transfers by turns.
pub fn client_input(alloc: Global, bank: Bank, client: u32) -> Result<Bytes, AllocError>
    requires start { bank.start < 2147483648 }
    requires clients { 1 ≤ bank.clients }
    requires accounts { 2 ≤ bank.accounts }
    requires few { bank.accounts ≤ 10000 }
    ensures { IfOk result (λ text. text ≡ client_input bank client) }
{
    let mut text = Bytes::empty(alloc);
    let mut draws = Draws { state: bank.start };
    for number in 0..bank.transfers {
        let transfer = Transfer::draw(&mut draws, bank.accounts);
        write_if(&mut text, number % bank.clients == client, transfer)?;
    }
    Ok(text)
}

/// Appends the line of a transfer, if it is the client's.
fn write_if(text: &mut Bytes, own: bool, transfer: Transfer) -> Result<(), AllocError>
    ensures { OnOk result (text.new ≡ text.old ++ (if own then transfer_line transfer else [])) }
{
    if own {
        transfer.write_line(text)?;
    }
    Ok(())
}

/// The input of the client that opens the accounts: a line for each, with its number and 1,000.
pub fn setup_input(alloc: Global, accounts: u32) -> Result<Bytes, AllocError>
    requires { accounts ≤ 10000 }
    ensures { IfOk result (λ text. text ≡ setup_input accounts) }
{
    let mut text = Bytes::empty(alloc);
    for before in 0..accounts {
        write_account(&mut text, before + 1)?;
    }
    Ok(text)
}

/// Appends the line of an account.
fn write_account(text: &mut Bytes, account: u32) -> Result<(), AllocError>
    ensures { OnOk result (text.new ≡ text.old ++ account_line account) }
{
    write_number(text, account)?;
    text.extend_from_slice(b" 1000\n")
}
