//! The numbers of a bank.

/// The numbers of a bank, as the arguments of the command give them.
#[derive(Clone, Copy, Debug)]
pub struct Bank {
    /// Where the generator begins: 0 to 2,147,483,647.
    pub start: u32,
    /// The number of clients that make transfers: 1 to 8.
    pub clients: u32,
    /// The number of accounts: 2 to 10,000.
    pub accounts: u32,
    /// The number of transfers: 1 to 50,000.
    pub transfers: u32,
}
