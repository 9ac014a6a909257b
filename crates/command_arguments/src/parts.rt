//! The parts of arguments: numbers, names and modes.

ghost use Rattle.std.specs.Prelude.{◌≡◌, ◌≤◌, ◌<◌, ◌+◌, ◌++◌, ◌∷◌, ◌↔◌, length, take, drop, All, ◌≢◌, IsTrue, IfSome, IfNone};
ghost use Rattle.command_arguments.specs.CommandLine.{IsDecimal, IsFileName, IsMode, IsName, IsSteps, mode_argument, number_of};
ghost use Rattle.std.specs.Char.{IsAsciiDigit};

use abl_base::Bytes;

/// An argument of the command line.
pub type Arg = Bytes;

/// What a run writes besides the outputs of its clients.
#[derive(Clone, Copy, Debug, PartialEq, Eq)]
pub enum Mode {
    /// The lines of the trace.
    Trace,
    /// Nothing.
    Quiet,
}

/// Whether the argument has the form of STEPS.
pub(crate) fn is_steps(arg: &[u8]) -> bool
    ensures { IsTrue result ↔ IsSteps arg.now }
{
    !arg.is_empty()
        && arg.len() <= 9
        && arg[0] != b'0'
        && arg.iter().all(|byte| byte.is_ascii_digit())
}

/// The number that the digits denote.
pub fn number_in(digits: &[u8]) -> u64
    requires digits { All IsAsciiDigit digits.now }
    requires short { length digits.now ≤ 10 }
    ensures { result ≡ number_of digits.now }
{
    let mut number = 0;
    for digit in digits {
        number = 10 * number + u64::from(*digit - b'0');
    }
    number
}

/// Whether the argument is a number in 1 to 10 decimal digits, without a leading zero.
pub(crate) fn is_decimal(arg: &[u8]) -> bool
    ensures { IsTrue result ↔ IsDecimal arg.now }
{
    !arg.is_empty()
        && arg.len() <= 10
        && (arg.len() == 1 || arg[0] != b'0')
        && arg.iter().all(|byte| byte.is_ascii_digit())
}

/// Whether the argument has the form of NAME.
pub(crate) fn is_name(arg: &[u8]) -> bool
    ensures { IsTrue result ↔ IsName arg.now }
{
    !arg.is_empty() && arg.len() <= 16 && arg.iter().all(|byte| byte.is_ascii_alphanumeric())
}

/// Whether the text has the form of PROG and INPUT.
pub(crate) fn is_file_name(text: &[u8]) -> bool
    ensures { IsTrue result ↔ IsFileName text.now }
{
    !text.is_empty() && text.iter().all(|byte| *byte != b'<')
}

/// The mode that the argument names.
pub(crate) fn mode_of(arg: &[u8]) -> Option<Mode>
    ensures some { IfSome result (λ mode. arg.now ≡ mode_argument mode) }
    ensures none { IfNone result (¬ IsMode arg.now) }
{
    if arg == b"trace".as_slice() {
        Some(Mode::Trace)
    } else if arg == b"quiet".as_slice() {
        Some(Mode::Quiet)
    } else {
        None
    }
}

/// The index of the first such byte of the text.
pub(crate) fn index_of(sought: u8, text: &[u8]) -> Option<usize>
    ensures some { IfSome result (λ at. (at < length text.now) × All (λ byte. byte ≢ sought) (take at text.now) × (text.now ≡ take at text.now ++ sought ∷ drop (at + 1) text.now)) }
    ensures none { IfNone result (All (λ byte. byte ≢ sought) text.now) }
{
    for (at, byte) in text.iter().enumerate() {
        if *byte == sought {
            return Some(at);
        }
    }
    None
}
