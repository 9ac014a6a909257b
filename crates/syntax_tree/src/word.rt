//! Keywords that choose among the forms of one part.

/// A function by its name, STRING aside.
#[derive(Clone, Copy, PartialEq, Eq)]
pub enum Function {
    Integer,
    Int64,
    Decimal,
    Substring,
    Length,
    Entry,
    NumEntries,
    Date,
    Year,
    Month,
    Day,
}

/// The direction of a parameter.
#[derive(Clone, Copy, PartialEq, Eq)]
pub enum Direction {
    Input,
    Output,
    InputOutput,
}

/// DO or REPEAT.
#[derive(Clone, Copy, PartialEq, Eq)]
pub enum BlockWord {
    Do,
    Repeat,
}

/// The keyword after FIND, `Only` where there is none.
#[derive(Clone, Copy, PartialEq, Eq)]
pub enum FindWhich {
    Only,
    First,
    Last,
    Next,
    Previous,
    Current,
}
