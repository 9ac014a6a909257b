//! A transfer.

ghost use Rattle.std.specs.Prelude.{◌≡◌, ◌<◌, ◌≤◌, ◌++◌, OnOk, decimal};
ghost use Rattle.bank_run.specs.inputs.Bank.{advanced, other_account, transfer_from, transfer_line};

use crate::inputs::draws::Draws;
use abl_base::Bytes;
use itoa::Buffer;
use std::alloc::AllocError;

/// A transfer of an amount from one account to another one.
#[derive(Clone, Copy, Debug)]
pub struct Transfer {
    pub from: u32,
    pub to: u32,
    /// 1 to 100.
    pub amount: u32,
}

impl Transfer {
    /// The transfer that the next three draws make.
    pub fn draw(draws: &mut Draws, accounts: u32) -> Transfer
        requires accounts { 2 ≤ accounts }
        requires few { accounts ≤ 10000 }
        requires state { draws.old.state < 2147483648 }
        ensures transfer { result ≡ transfer_from accounts draws.old.state }
        ensures state { draws.new.state ≡ advanced (advanced (advanced draws.old.state)) }
        ensures range { draws.new.state < 2147483648 }
    {
        let from = draws.draw() % accounts + 1;
        let number = draws.draw() % (accounts - 1) + 1;
        let amount = draws.draw() % 100 + 1;
        Transfer {
            from,
            to: other_account(from, number),
            amount,
        }
    }

    /// Appends its line: the accounts and the amount with a blank between them, and a line feed.
    pub fn write_line(self, text: &mut Bytes) -> Result<(), AllocError>
        ensures { OnOk result (text.new ≡ text.old ++ transfer_line self) }
    {
        write_number(text, self.from)?;
        text.extend_from_slice(b" ")?;
        write_number(text, self.to)?;
        text.extend_from_slice(b" ")?;
        write_number(text, self.amount)?;
        text.extend_from_slice(b"\n")
    }
}

/// The account of this number among all others than one.
fn other_account(one: u32, number: u32) -> u32
    requires { number ≤ 10000 }
    ensures { result ≡ other_account one number }
{
    if number < one { number } else { number + 1 }
}

/// Appends a number in decimal digits.
pub fn write_number(text: &mut Bytes, number: u32) -> Result<(), AllocError>
    ensures { OnOk result (text.new ≡ text.old ++ decimal number) }
{
    let mut digits = Buffer::new();
    text.extend_from_slice(digits.format(number).as_bytes())
}
