//! The texts of an expansion, what is known while they are read, and what an expansion comes to.

ghost use Rattle.std.specs.Prelude.{◌≡◌, ◌+◌, ◌++◌, ◌<◌, ◌≤◌, ◌^◌, length, take, IfOk};
ghost use Rattle.preprocessor.specs.Texts.{argument_at, bytes_at, bytes_of, defined_number, found, last_maker, last_value, maker_number, marked, name_at, nth, value_of};

use crate::names::{Definition, Maker, same_bytes, same_name};
use abl_base::{Bytes, Items, Place, Rule};
use std::alloc::{AllocError, Global};

/// A text with its name.
#[derive(Drop)]
pub struct NamedText {
    pub name: Bytes,
    pub bytes: Bytes,
}

/// A byte of an expansion, with the text and the place that it was taken from.
#[derive(Clone, Copy)]
pub struct Mark {
    pub byte: u8,
    pub text: u32,
    pub place: Place,
}

/// What is known at a place.
#[derive(Drop)]
pub struct State {
    /// The definitions of the open texts, from the outermost text inwards, the latest last.
    pub locals: Items<Definition>,
    /// The definitions that hold in all that follows, the latest last.
    pub globals: Items<Definition>,
    /// The `&IF`s that are open in the text, the latest last; `true` in the part of `&ELSE`.
    pub branches: Items<bool>,
    /// How many bytes may still be read and given.
    pub budget: usize,
}

/// What an expansion comes to.
#[derive(Drop)]
pub enum Outcome {
    /// The bytes, and what is known after them.
    Gives(Items<Mark>, State),
    /// The first violation: its rule, the number of the text, and the place.
    Breaks(Rule, u32, Place),
    /// The name of the first file that is met and is not among the texts.
    Needs(Bytes),
}

/// An open text: its number, its arguments, and how many texts may be open inside it.
#[derive(Drop)]
pub struct Here {
    pub text: u32,
    pub arguments: Items<Bytes>,
    pub left: usize,
}

/// The number of the first text with this name.
pub fn found(name: &[u8], texts: &[NamedText]) -> Option<u32>
    requires { length texts.now < 2 ^ 32 }
    ensures { result ≡ found 0 name.now texts.now }
{
    let mut i: u32 = 0;
    let mut rest = texts;
    while let [text, tail @ ..] = rest {
        if same_bytes(text.name.as_slice(), name) {
            return Some(i);
        }
        i += 1;
        rest = tail;
    }
    None
}

/// The bytes of the text with this number.
pub fn bytes_at(texts: &[NamedText], i: u32) -> &[u8]
    ensures { result.now ≡ bytes_at texts.now i }
{
    match texts.get(i as usize) {
        Some(text) => text.bytes.as_slice(),
        None => &[],
    }
}

fn name_at(texts: &[NamedText], i: u32) -> &[u8]
    ensures { result.now ≡ name_at texts.now i }
{
    match texts.get(i as usize) {
        Some(text) => text.name.as_slice(),
        None => &[],
    }
}

fn nth(arguments: &[Bytes], i: usize) -> &[u8]
    ensures { result.now ≡ nth arguments.now i }
{
    match arguments.get(i) {
        Some(argument) => argument.as_slice(),
        None => &[],
    }
}

/// The argument with this number, and with 0 the name of the text; nothing where there is none.
pub fn argument_at<'a>(texts: &'a [NamedText], here: &'a Here, n: usize) -> &'a [u8]
    ensures { result.now ≡ argument_at texts.now here.now n }
{
    if n == 0 {
        name_at(texts, here.text)
    } else {
        nth(here.arguments.as_slice(), n - 1)
    }
}

fn last_value<'a>(found: &'a [u8], name: &[u8], definitions: &'a [Definition]) -> &'a [u8]
    ensures { result.now ≡ last_value found.now name.now definitions.now }
{
    let mut value = found;
    let mut rest = definitions;
    while let [definition, tail @ ..] = rest {
        if same_name(definition.name.as_slice(), name) {
            value = definition.value.as_slice();
        }
        rest = tail;
    }
    value
}

/// The value of the name; nothing where no definition of it is in force.
pub fn value_of<'a>(state: &'a State, name: &[u8]) -> &'a [u8]
    ensures { result.now ≡ value_of state.now name.now }
{
    let global = last_value(&[], name, state.globals.as_slice());
    last_value(global, name, state.locals.as_slice())
}

fn maker_number(maker: Maker) -> u8
    ensures is { result ≡ maker_number maker }
    ensures within { result ≤ 3 }
{
    match maker {
        Maker::ByGlobal => 1,
        Maker::ByArgument => 2,
        Maker::ByScoped => 3,
    }
}

fn last_maker(found: u8, name: &[u8], definitions: &[Definition]) -> u8
    requires { found ≤ 3 }
    ensures is { result ≡ last_maker found name.now definitions.now }
    ensures within { result ≤ 3 }
{
    let mut n = found;
    let mut rest = definitions;
    while let [definition, tail @ ..] = rest {
        if same_name(definition.name.as_slice(), name) {
            n = maker_number(definition.maker);
        }
        rest = tail;
    }
    n
}

/// What DEFINED gives: 0 where no definition of the name is in force, else 1, 2 or 3 where the one
/// that counts is by `&GLOBAL-DEFINE`, by an argument or by `&SCOPED-DEFINE`.
pub fn defined_number(state: &State, name: &[u8]) -> u8
    ensures is { result ≡ defined_number state.now name.now }
    ensures within { result ≤ 3 }
{
    let global = last_maker(0, name, state.globals.as_slice());
    last_maker(global, name, state.locals.as_slice())
}

/// The bytes, each taken from this place. Out of memory is the only error.
pub fn marked(
    alloc: Global,
    text: u32,
    place: Place,
    bytes: &[u8],
) -> Result<Items<Mark>, AllocError>
    ensures { IfOk result (λ marks. marks ≡ marked text place bytes.now) }
{
    let mut marks = Vec::with_capacity(alloc, bytes.len())?;
    for byte in bytes {
        marks.push(Mark {
            byte: *byte,
            text,
            place,
        })?;
    }
    Ok(Items::from_vec(marks))
}

/// The bytes that are given. Out of memory is the only error.
pub fn bytes_of(alloc: Global, marks: &[Mark]) -> Result<Bytes, AllocError>
    ensures { IfOk result (λ bytes. bytes ≡ bytes_of marks.now) }
{
    let mut bytes = Vec::with_capacity(alloc, marks.len())?;
    for mark in marks {
        bytes.push(mark.byte)?;
    }
    Ok(Items::from_vec(bytes))
}

/// The definitions and then these. Out of memory is the only error.
pub fn joined(
    definitions: Items<Definition>,
    more: Items<Definition>,
) -> Result<Items<Definition>, AllocError>
    ensures { IfOk result (λ all. all ≡ definitions ++ more) }
{
    let mut all = definitions.into_vec();
    let mut other = more.into_vec();
    all.append(&mut other)?;
    Ok(Items::from_vec(all))
}

/// The first `n` definitions.
pub fn first(definitions: Items<Definition>, n: usize) -> Items<Definition>
    ensures { result ≡ take n definitions }
{
    let mut kept = definitions.into_vec();
    kept.truncate(n);
    Items::from_vec(kept)
}
