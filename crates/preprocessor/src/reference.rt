//! What a reference says.

ghost use Rattle.std.specs.Prelude.{◌≡◌, ◌∷◌, [], IfOk, None, false, true};
ghost use Rattle.preprocessor.specs.References.{all_digits, argument_of, file_named, file_of, lone, named, number_of, reading, where_name};

use crate::mode::is_digit;
use crate::names::{Definition, Maker, is_name};
use abl_base::{Bytes, Items};
use std::alloc::{AllocError, Global};

/// A number above this one counts as this one: no text has so many arguments.
pub const MAX_ARGUMENT: usize = 1_048_576;

/// A file with its arguments and the names that are defined for it.
#[derive(Drop)]
pub struct FileReference {
    pub name: Bytes,
    pub arguments: Items<Bytes>,
    pub definitions: Items<Definition>,
}

/// What a reference says.
#[derive(Drop)]
pub enum Reference {
    /// Nothing that a reference may say.
    Faulty,
    Name(Bytes),
    Number(usize),
    File(FileReference),
}

/// What a word after the name of a file is.
#[derive(Drop)]
pub enum Argument {
    /// It begins with `&` and defines no name.
    Wrong,
    Positional(Bytes),
    Named(Definition),
}

fn all_digits(word: &[u8]) -> bool
    ensures { result ≡ all_digits word.now }
{
    let mut rest = word;
    while let [first, tail @ ..] = rest {
        if !is_digit(*first) {
            return false;
        }
        rest = tail;
    }
    true
}

fn number_of(word: &[u8]) -> usize
    requires { all_digits word.now ≡ true }
    ensures { result ≡ number_of 0 word.now }
{
    let mut n: usize = 0;
    let mut rest = word;
    while let [first, tail @ ..] = rest {
        n = n * 10 + usize::from(*first - b'0');
        if n > MAX_ARGUMENT {
            n = MAX_ARGUMENT;
        }
        rest = tail;
    }
    n
}

fn where_name(alloc: Global, name: Bytes, value: &[u8]) -> Result<Argument, AllocError>
    ensures { IfOk result (λ a. a ≡ where_name name value.now) }
{
    if is_name(name.as_slice()) {
        let value = Items::of(alloc, value)?;
        Ok(Argument::Named(Definition {
            name,
            value,
            maker: Maker::ByArgument,
        }))
    } else {
        Ok(Argument::Wrong)
    }
}

fn named(alloc: Global, bytes: &[u8]) -> Result<Argument, AllocError>
    ensures { IfOk result (λ a. a ≡ named [] bytes.now) }
{
    let mut name: Bytes = Items::empty(alloc);
    let mut rest = bytes;
    while let [first, tail @ ..] = rest {
        if *first == b'=' {
            return where_name(alloc, name, tail);
        }
        name.push(*first)?;
        rest = tail;
    }
    Ok(Argument::Wrong)
}

fn argument_of(alloc: Global, word: &[u8]) -> Result<Argument, AllocError>
    ensures { IfOk result (λ a. a ≡ argument_of word.now) }
{
    match word {
        [b'&', tail @ ..] => named(alloc, tail),
        _ => Ok(Argument::Positional(Items::of(alloc, word)?)),
    }
}

fn file_named(
    alloc: Global,
    name: &[u8],
    arguments: Items<Bytes>,
    definitions: Items<Definition>,
) -> Result<Reference, AllocError>
    ensures { IfOk result (λ r. r ≡ file_named name.now arguments definitions) }
{
    match name {
        [] => Ok(Reference::Faulty),
        [_, ..] => Ok(Reference::File(FileReference {
            name: Items::of(alloc, name)?,
            arguments,
            definitions,
        })),
    }
}

fn file_of(alloc: Global, name: &[u8], words: &[Bytes]) -> Result<Reference, AllocError>
    ensures { IfOk result (λ r. r ≡ file_of name.now [] [] words.now) }
{
    let mut arguments: Items<Bytes> = Items::empty(alloc);
    let mut definitions: Items<Definition> = Items::empty(alloc);
    let mut rest = words;
    while let [first, tail @ ..] = rest {
        match argument_of(alloc, first.as_slice())? {
            Argument::Wrong => return Ok(Reference::Faulty),
            Argument::Positional(word) => arguments.push(word)?,
            Argument::Named(definition) => definitions.push(definition)?,
        }
        rest = tail;
    }
    file_named(alloc, name, arguments, definitions)
}

fn lone(alloc: Global, word: &[u8]) -> Result<Reference, AllocError>
    ensures { IfOk result (λ r. r ≡ lone word.now) }
{
    match word {
        [] => Ok(Reference::Faulty),
        [first, tail @ ..] => {
            if *first == b'&' {
                if is_name(tail) {
                    Ok(Reference::Name(Items::of(alloc, tail)?))
                } else {
                    file_named(alloc, word, Items::empty(alloc), Items::empty(alloc))
                }
            } else if all_digits(word) {
                Ok(Reference::Number(number_of(word)))
            } else {
                file_named(alloc, word, Items::empty(alloc), Items::empty(alloc))
            }
        }
    }
}

/// What the words of a reference say. Out of memory is the only error.
pub fn reading(alloc: Global, words: &[Bytes]) -> Result<Reference, AllocError>
    ensures { IfOk result (λ r. r ≡ reading words.now) }
{
    match words {
        [] => Ok(Reference::Faulty),
        [word] => lone(alloc, word.as_slice()),
        [word, tail @ ..] => file_of(alloc, word.as_slice(), tail),
    }
}
