//! What follows from the definitions of a bank. Each law is what its function ensures.

ghost use Rattle.std.specs.Prelude.{◌≡◌, ◌≤◌, ◌*◌, [], pos};
ghost use Rattle.bank_run.specs.declared.inputs.bank.Bank.{Bank as Numbers};
ghost use Rattle.bank_run.specs.declared.inputs.sources.TheConstants.{SETUP_SOURCE, TOTAL_SOURCE, TRANSFER_SOURCE};
ghost use Rattle.bank_run.specs.inputs.Total.{total};
ghost use Rattle.source_files.specs.Laws.{IsItself};

use source_files::laws::a_plain_source_is_itself;

/// The sum of the balances is 1,000 times the number of accounts, whatever transfers there are.
pub fn the_total_stays()
    ensures { (bank : Numbers) → 2 ≤ bank.accounts → total bank ≡ pos (1000 * bank.accounts) }
{}

/// Each source of a bank is its own expansion, so its clients do what it says as it stands.
pub fn each_source_expands_to_itself()
    ensures setup { IsItself [] SETUP_SOURCE.now }
    ensures transfer { IsItself [] TRANSFER_SOURCE.now }
    ensures total { IsItself [] TOTAL_SOURCE.now }
{
    a_plain_source_is_itself();
}
