//! The rules F1 to F12, and the first that a file breaks.

ghost use Rattle.std.specs.Prelude.{◌≡◌, [], IfOk, Option};
ghost use Rattle.schema_lines.specs.declared.item.Attribute.TheVariants.{Initial};
ghost use Rattle.std.specs.List.{list_any};
ghost use Rattle.abl_base.specs.declared.value.Kind.{Kind};
ghost use Rattle.schema_lines.specs.Attributes.{format_of, kind_of};
ghost use Rattle.schema_lines.specs.Initials.{mask_of};
ghost use Rattle.schema_reader.specs.Census.{component_count, component_rule, field_line_rule, field_rule, head_rule_in, index_line_rule, index_rule, is_component, is_field_named, is_named_again, line_rule_in, line_violation_in, name_rule, names_twice, sequence_line_rule, table_found};
ghost use Rattle.schema_reader.specs.Rules.{first_after, initial_fits};

use crate::census::{Census, Counted, TableCensus};
use crate::sizes::canonical_bytes;
use crate::violation::Violation;
use abl_base::limits::{
    MAX_CANONICAL_BYTES, MAX_FIELDS, MAX_INDEXES, MAX_PARTS, MAX_SEQUENCES, MAX_TABLES,
};
use abl_base::{Bytes, Kind, Rule};
use abl_values::{Named, is_name, same_name};
use schema_lines::attributes::{format_of, kind_of, sequence_number};
use schema_lines::initials::{initial_given, mask_of};
use schema_lines::item::{Attribute, Attributed, Component, Given, Head, Item};
use std::alloc::{AllocError, Global};

/// The first violation of a file with these items: the first line that breaks a rule, and the least
/// rule that it breaks.
pub fn first_violation(alloc: Global, items: &[Item]) -> Result<Option<Violation>, AllocError>
    ensures { IfOk result (λ violation. violation ≡ first_after [] items.now) }
{
    let mut census = Census::empty(alloc);
    let mut bytes: usize = 0;
    for item in items {
        if let Some(rule) = head_rule(&census, item) {
            return Ok(Some(Violation {
                rule,
                line: item.line,
            }));
        }
        bytes = bytes.saturating_add(canonical_bytes(alloc, &census, item)?);
        if bytes > MAX_CANONICAL_BYTES {
            return Ok(Some(Violation {
                rule: Rule::F12,
                line: item.line,
            }));
        }
        if let Some(violation) = line_violation(&census, item)? {
            return Ok(Some(violation));
        }
        census.count(alloc, item)?;
    }
    Ok(None)
}

/// The first rule that the first line of an item breaks, save the length of the canonical text.
fn head_rule(census: &Census, item: &Item) -> Option<Rule>
    ensures { result ≡ head_rule_in census.now item.now.attributes item.now.head }
{
    match &item.head {
        Head::Malformed => Some(Rule::F1),
        Head::Table { name } => name_rule(&census.names, name, Rule::F3, MAX_TABLES),
        Head::Field {
            name,
            table,
            kind: _,
        } => field_rule(census, name, table),
        Head::Index { name, table } => {
            index_rule(census, name, table, item.attributes.as_slice())
        }
        Head::Sequence { name } => { name_rule(&census.sequences, name, Rule::F11, MAX_SEQUENCES) }
    }
}

/// The first rule that a table or a sequence breaks beside these: `taken` where one has the name.
fn name_rule(names: &Named<Counted>, name: &Bytes, taken: Rule, most: usize) -> Option<Rule>
    ensures { result ≡ name_rule names.now name.now taken most }
{
    if !is_name(name.as_slice()) {
        Some(Rule::F2)
    } else if names.find(name.as_slice()).is_some() {
        Some(taken)
    } else if names.len() >= most {
        Some(Rule::F12)
    } else {
        None
    }
}

fn field_rule(census: &Census, name: &Bytes, table: &Bytes) -> Option<Rule>
    ensures { result ≡ field_rule (table_found census.now table.now) name.now table.now }
{
    if !(is_name(name.as_slice()) && is_name(table.as_slice())) {
        return Some(Rule::F2);
    }
    let Some(counted) = census.table(table.as_slice()) else {
        return Some(Rule::F4);
    };
    if counted.fields.find(name.as_slice()).is_some() {
        Some(Rule::F5)
    } else if counted.fields.len() >= MAX_FIELDS {
        Some(Rule::F12)
    } else {
        None
    }
}

fn index_rule(
    census: &Census,
    name: &Bytes,
    table: &Bytes,
    attributes: &[Attributed],
) -> Option<Rule>
    ensures { result ≡ index_rule (table_found census.now table.now) name.now table.now attributes.now }
{
    if !(is_name(name.as_slice()) && is_name(table.as_slice())) {
        return Some(Rule::F2);
    }
    let Some(counted) = census.table(table.as_slice()) else {
        return Some(Rule::F4);
    };
    let components = component_count(attributes);
    if counted.indexes.find(name.as_slice()).is_some() {
        Some(Rule::F6)
    } else if components == 0 || has_field_twice(attributes) {
        Some(Rule::F8)
    } else if counted.indexes.len() >= MAX_INDEXES || components > MAX_PARTS {
        Some(Rule::F12)
    } else {
        None
    }
}

/// How many INDEX-FIELD lines there are.
fn component_count(attributes: &[Attributed]) -> usize
    ensures { result ≡ component_count attributes.now }
{
    attributes
        .iter()
        .filter(|line| is_component(&line.attribute))
        .count()
}

fn is_component(attribute: &Attribute) -> bool
    ensures { result ≡ is_component attribute.now }
{
    matches!(attribute, Attribute::IndexField(_))
}

/// Says whether two INDEX-FIELD lines name one field, in any case.
fn has_field_twice(attributes: &[Attributed]) -> bool
    ensures { result ≡ names_twice attributes.now }
{
    let mut lines = attributes;
    while let [line, rest @ ..] = lines {
        if is_named_again(&line.attribute, rest) {
            return true;
        }
        lines = rest;
    }
    false
}

/// Says whether the field of an INDEX-FIELD line is named again in these lines, in any case.
fn is_named_again(attribute: &Attribute, lines: &[Attributed]) -> bool
    ensures { result ≡ is_named_again lines.now attribute.now }
{
    match attribute {
        Attribute::IndexField(Some(component)) => names_field(lines, component.field.as_slice()),
        _ => false,
    }
}

/// Says whether an INDEX-FIELD line names this field, in any case.
fn names_field(lines: &[Attributed], name: &[u8]) -> bool
    ensures { result ≡ list_any (λ a. is_field_named name.now a.attribute) lines.now }
{
    lines
        .iter()
        .any(|line| is_field_named(&line.attribute, name))
}

/// Says whether the line is an INDEX-FIELD line of this field, in any case.
fn is_field_named(attribute: &Attribute, name: &[u8]) -> bool
    ensures { result ≡ is_field_named name.now attribute.now }
{
    match attribute {
        Attribute::IndexField(Some(component)) => same_name(component.field.as_slice(), name),
        _ => false,
    }
}

/// The first violation in the attribute lines of an item whose first line breaks no rule.
fn line_violation(census: &Census, item: &Item) -> Result<Option<Violation>, AllocError>
    ensures { IfOk result (λ violation. violation ≡ line_violation_in census.now item.now item.now.attributes) }
{
    for line in item.attributes.as_slice() {
        if let Some(rule) = line_rule(census, item, &line.attribute)? {
            return Ok(Some(Violation {
                rule,
                line: line.line,
            }));
        }
    }
    Ok(None)
}

/// The first rule that an attribute line of an item breaks.
fn line_rule(
    census: &Census,
    item: &Item,
    attribute: &Attribute,
) -> Result<Option<Rule>, AllocError>
    ensures { IfOk result (λ rule. rule ≡ line_rule_in census.now item.now.attributes item.now.head attribute.now) }
{
    match &item.head {
        Head::Malformed | Head::Table { .. } => Ok(None),
        Head::Field {
            name: _,
            table: _,
            kind,
        } => field_line_rule(*kind, item.attributes.as_slice(), attribute),
        Head::Index { name: _, table } => match census.table(table.as_slice()) {
            None => Ok(None),
            Some(counted) => Ok(index_line_rule(counted, attribute)),
        },
        Head::Sequence { name: _ } => Ok(sequence_line_rule(attribute)),
    }
}

fn field_line_rule(
    kind: Option<Kind>,
    attributes: &[Attributed],
    attribute: &Attribute,
) -> Result<Option<Rule>, AllocError>
    ensures { IfOk result (λ rule. rule ≡ field_line_rule kind attributes.now attribute.now) }
{
    let fits = match attribute {
        Attribute::Initial(given) => initial_fits(kind, attributes, given)?,
        Attribute::Order(number) => number.is_some(),
        Attribute::Extent(number) => number.is_some(),
        _ => true,
    };
    Ok(if fits { None } else { Some(Rule::F10) })
}

/// Says whether INITIAL fits the field; that of an unsupported kind is not looked at.
fn initial_fits(
    kind: Option<Kind>,
    attributes: &[Attributed],
    given: &Option<Given>,
) -> Result<bool, AllocError>
    ensures { IfOk result (λ fits. let kept : Option Kind = kind_of kind attributes.now in fits ≡ initial_fits kept (mask_of kept (format_of attributes.now)) (Initial given.now)) }
{
    let Some(kind) = kind_of(kind, attributes) else {
        return Ok(true);
    };
    let mask = mask_of(Some(kind), format_of(attributes));
    Ok(initial_given(kind, mask, given)?.is_some())
}

fn index_line_rule(table: &TableCensus, attribute: &Attribute) -> Option<Rule>
    ensures { result ≡ index_line_rule table.now attribute.now }
{
    match attribute {
        Attribute::IndexField(component) => component_rule(table, component),
        Attribute::Primary => {
            if table.has_primary {
                Some(Rule::F9)
            } else {
                None
            }
        }
        _ => None,
    }
}

fn component_rule(table: &TableCensus, component: &Option<Component>) -> Option<Rule>
    ensures { result ≡ component_rule table.now component.now }
{
    let Some(component) = component else {
        return Some(Rule::F7);
    };
    let name = component.field.as_slice();
    if !is_name(name) {
        Some(Rule::F2)
    } else if table.fields.find(name).is_none() {
        Some(Rule::F7)
    } else {
        None
    }
}

fn sequence_line_rule(attribute: &Attribute) -> Option<Rule>
    ensures { result ≡ sequence_line_rule attribute.now }
{
    match attribute {
        Attribute::Initial(given) => {
            if sequence_number(given).is_none() {
                Some(Rule::F10)
            } else {
                None
            }
        }
        Attribute::Increment(None) | Attribute::Increment(Some(0)) => Some(Rule::F11),
        _ => None,
    }
}
