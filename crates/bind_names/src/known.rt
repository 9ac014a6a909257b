//! Variables and streams by their names: of the procedure, else of the external one.

ghost use Rattle.std.specs.Option.{is_some, option_map};
ghost use Rattle.std.specs.Prelude.{◌≡◌, MatchOption, None, Some};
ghost use Rattle.bind_names.specs.Names.{stream_in, stream_named, variable_in, variable_named};

use crate::names::{Defined, Known, NamedStream, NamedVariable};
use bound_tree::Variable;

/// The variable of this name that a procedure has defined.
pub fn variable_in<'a>(defined: &'a Defined, name: &[u8]) -> Option<&'a NamedVariable>
    ensures { MatchOption result (variable_in defined.now name.now ≡ None) (λ v. variable_in defined.now name.now ≡ Some v.now) }
{
    let number = defined.variables.find(name)?;
    Some(&defined.variables.as_slice()[number])
}

/// The stream of this name that a procedure has defined.
fn stream_in<'a>(defined: &'a Defined, name: &[u8]) -> Option<&'a NamedStream>
    ensures { MatchOption result (stream_in defined.now name.now ≡ None) (λ v. stream_in defined.now name.now ≡ Some v.now) }
{
    let number = defined.streams.find(name)?;
    Some(&defined.streams.as_slice()[number])
}

/// The variable of this name: of the procedure, else of the external one.
pub fn variable_of(known: &Known, name: &[u8]) -> Option<Variable>
    ensures variable { result ≡ option_map (λ x. x.variable) (variable_named known.now name.now) }
    ensures known { is_some result ≡ is_some (variable_named known.now name.now) }
{
    if let Some(v) = variable_in(&known.own, name) {
        return Some(v.variable);
    }
    let v = variable_in(known.outer.as_ref()?, name)?;
    let mut variable = v.variable;
    variable.external = true;
    Some(variable)
}

/// The number of the stream of this name: of the procedure, else of the external one.
pub fn stream_number(known: &Known, name: &[u8]) -> Option<u32>
    ensures number { result ≡ option_map (λ x. x.number) (stream_named known.now name.now) }
    ensures known { is_some result ≡ is_some (stream_named known.now name.now) }
{
    if let Some(stream) = stream_in(&known.own, name) {
        return Some(stream.number);
    }
    let stream = stream_in(known.outer.as_ref()?, name)?;
    Some(stream.number)
}
