//! Counts of faults and numbers of calls, which stay at their last value, 2^64 - 1. It depends on no
//! other crate. The crates above say by `Rose` that a fault comes only where its count rose in
//! that call, and their objects in memory fail at the calls of given numbers (`is_among`).

ghost use Rattle.std.specs.Prelude.{◌↔◌, IsTrue, Contains};

/// Whether the call of that number is one that is to fail.
pub fn is_among(fails: &[u64], number: u64) -> bool
    ensures { IsTrue result ↔ Contains fails.now number }
{
    fails.contains(&number)
}
