//! Phrases and options that are in one header or statement twice, and those that FIND CURRENT
//! cannot have (U6).

ghost use Rattle.std.specs.Prelude.{◌≡◌, map};
ghost use Rattle.bind_names.specs.Judged.{first_of};
ghost use Rattle.syntax_tree.specs.Typed.{record_option_of};
ghost use Rattle.block_rules.specs.Classes.{classes, mark_of_option, mark_of_phrase};
ghost use Rattle.block_rules.specs.Options.{is_one_of, of_variable_option, repeats};
ghost use Rattle.block_rules.specs.Rules.{current_breaks};

use crate::violations::broken;
use abl_base::{Place, Rule};
use bind_names::Violation;
use syntax_tree::{Phrase, RecordOption, VariableOption};

/// A phrase or option: which one it is, by a number, and the place of its first word.
#[derive(Clone, Copy)]
pub struct Mark {
    pub class: u8,
    pub place: Place,
}

/// The first phrase of a header that is one of those before it.
pub fn repeated_phrases(phrases: &[Phrase], first: &mut Option<Violation>)
    ensures { first.new ≡ first_of first.old (repeats (map mark_of_phrase phrases.now)) }
{
    for i in 0..phrases.len() {
        let next = phrase_mark(&phrases[i]);
        if has_phrase(&phrases[..i], next.class) {
            broken(first, Rule::U6, next.place);
            return;
        }
    }
}

/// Whether one of the phrases has this class.
fn has_phrase(phrases: &[Phrase], class: u8) -> bool
    ensures { result ≡ is_one_of (classes (map mark_of_phrase phrases.now)) class }
{
    for phrase in phrases {
        if phrase_mark(phrase).class == class {
            return true;
        }
    }
    false
}

/// Which phrase it is, and where.
fn phrase_mark(phrase: &Phrase) -> Mark
    ensures class { result.class ≡ (mark_of_phrase phrase.now).class }
    ensures place { result.place ≡ (mark_of_phrase phrase.now).place }
{
    match phrase {
        Phrase::While { at, .. } => marked(0, *at),
        Phrase::Transaction { at } => marked(1, *at),
        Phrase::OnError { at, .. } => marked(2, *at),
        Phrase::OnEndkey { at, .. } => marked(3, *at),
    }
}

/// The first option of a FIND or FOR that is one of those before it.
pub fn repeated_options(options: &[RecordOption], first: &mut Option<Violation>)
    ensures { first.new ≡ first_of first.old (repeats (map mark_of_option options.now)) }
{
    for i in 0..options.len() {
        let next = option_mark(&options[i]);
        if has_option(&options[..i], next.class) {
            broken(first, Rule::U6, next.place);
            return;
        }
    }
}

/// Whether one of the options has this class.
fn has_option(options: &[RecordOption], class: u8) -> bool
    ensures { result ≡ is_one_of (classes (map mark_of_option options.now)) class }
{
    for option in options {
        if option_mark(option).class == class {
            return true;
        }
    }
    false
}

/// Which option it is, and where.
fn option_mark(option: &RecordOption) -> Mark
    ensures class { result.class ≡ (mark_of_option option.now).class }
    ensures place { result.place ≡ (mark_of_option option.now).place }
{
    match option {
        RecordOption::Where { at, .. } => marked(0, *at),
        RecordOption::UseIndex { at, .. } => marked(1, *at),
        RecordOption::Lock { at, .. } => marked(2, *at),
        RecordOption::NoWait { at } => marked(3, *at),
        RecordOption::NoError { at } => marked(4, *at),
    }
}

/// The first variable option of a definition that is one of those before it.
pub fn repeated_variable_options(options: &[VariableOption], first: &mut Option<Violation>)
    ensures { first.new ≡ first_of first.old (repeats (map of_variable_option options.now)) }
{
    for i in 0..options.len() {
        let next = variable_option_mark(&options[i]);
        if has_variable_option(&options[..i], next.class) {
            broken(first, Rule::U6, next.place);
            return;
        }
    }
}

/// Whether one of the variable options has this class.
fn has_variable_option(options: &[VariableOption], class: u8) -> bool
    ensures { result ≡ is_one_of (classes (map of_variable_option options.now)) class }
{
    for option in options {
        if variable_option_mark(option).class == class {
            return true;
        }
    }
    false
}

/// Which variable option it is, and where.
fn variable_option_mark(option: &VariableOption) -> Mark
    ensures class { result.class ≡ (of_variable_option option.now).class }
    ensures place { result.place ≡ (of_variable_option option.now).place }
{
    match option {
        VariableOption::NoUndo { at } => marked(0, *at),
        VariableOption::Initial { at, .. } => marked(1, *at),
        VariableOption::Format { at, .. } => marked(2, *at),
        VariableOption::Label { at } => marked(3, *at),
    }
}

fn marked(class: u8, place: Place) -> Mark
    ensures class { result.class ≡ class }
    ensures place { result.place ≡ place }
{
    Mark { class, place }
}

/// WHERE and USE-INDEX on FIND CURRENT.
pub fn current_breaks(options: &[RecordOption], first: &mut Option<Violation>)
    ensures { first.new ≡ first_of first.old (current_breaks (map record_option_of options.now)) }
{
    for option in options {
        match option {
            RecordOption::Where { at, .. } => broken(first, Rule::U6, *at),
            RecordOption::UseIndex { at, .. } => broken(first, Rule::U6, *at),
            _ => {}
        }
    }
}
