//! Laws of the units that a client spends, step by step: no step of the machine of `flat_machine` and no
//! answer leaves more of them, and where an operation is asked there are fewer.

pub mod laws;
