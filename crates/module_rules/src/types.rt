//! The Types of a module, by their names and the module's.

ghost use Rattle.std.specs.Prelude.{◌≡◌, IfOk, bytes_eq, option_map};
ghost use Rattle.std.specs.List.{list_any};
ghost use Rattle.module_parts.specs.View.{parts_view};
ghost use Rattle.vba_base.specs.Fold.{folded};
ghost use Rattle.vba_module.specs.Headers.{name_given, module_name, module_number, numbered_name, own_name, type_names, is_here, is_named, is_type_clause};
ghost use Rattle.vba_tree.specs.View.{listed_view, type_clause_view};

use module_parts::{Part, place_of};
use std::alloc::Global;
use vba_base::{Name, NoMemory, Units, name_of};
use vba_expression::{Literal, LiteralValue, TypeName, TypeQualifier};
use vba_tree::{AttributeLine, AttributeValue, DeclaredType, LineTree, TypeClause};

/// `vb_name`
const VB_NAME: [u16; 7] = [0x76, 0x62, 0x5F, 0x6E, 0x61, 0x6D, 0x65];

/// The Types of a module: the module's name and theirs.
#[derive(Drop)]
pub struct OwnTypes {
    pub module_name: Name,
    pub names: Vec<Name>,
}

/// The text that an attribute gives its module as its name.
fn name_given(line: &AttributeLine) -> Option<&Units>
    ensures { option_map (λ text. folded text.now) result
        ≡ name_given (listed_view (λ name. name) line.now.names) (listed_view (λ value. value) line.now.values) }
{
    if line.names.first.name.units() != VB_NAME.as_slice() {
        return None;
    }
    match (line.names.others.as_slice(), &line.values.first) {
        (
            [],
            AttributeValue {
                minus: None,
                literal: Literal {
                    value: LiteralValue::Text(text),
                    ..
                },
            },
        ) => Some(text),
        _ => None,
    }
}

/// The name that an attribute gives the module that parts are: the first one.
#[tactic(auto, using(std::proofs::lemmas::List::drop_more))]
fn module_name(alloc: Global, parts: &[Part]) -> Result<Option<Name>, NoMemory>
    ensures { IfOk result (λ name. name ≡ module_name (parts_view parts.now)) }
{
    for part in parts {
        if let Part::WholeLine(LineTree::Attribute(line)) = part {
            if let Some(text) = name_given(line) {
                return Ok(Some(name_of(alloc, text.units())?));
            }
        }
    }
    Ok(None)
}

/// The number of the module that parts are.
fn module_number(parts: &[Part]) -> u32
    ensures { result ≡ module_number (parts_view parts.now) }
{
    match parts {
        [] => 0,
        [part, ..] => place_of(part).module,
    }
}

/// An ASCII text as units.
fn units_of(alloc: Global, text: &[u8]) -> Result<Units, NoMemory>
    ensures { IfOk result (λ units. units ≡ text.now) }
{
    let mut units = Units::with_capacity(alloc, text.len())?;
    for byte in text {
        units.push(u16::from(*byte))?;
    }
    Ok(units)
}

/// The name of a module that no attribute names: Module and its number.
fn numbered_name(alloc: Global, number: u32) -> Result<Name, NoMemory>
    ensures { IfOk result (λ name. name ≡ numbered_name number) }
{
    let text = format!(in alloc; "Module{number}")?;
    let units = units_of(alloc, text.as_bytes())?;
    name_of(alloc, units.units())
}

/// The name of the module that parts are.
fn own_name(alloc: Global, parts: &[Part]) -> Result<Name, NoMemory>
    ensures { IfOk result (λ name. name ≡ own_name (parts_view parts.now)) }
{
    match module_name(alloc, parts)? {
        Some(name) => Ok(name),
        None => numbered_name(alloc, module_number(parts)),
    }
}

/// The Types that parts declare.
pub fn own_types(alloc: Global, parts: &[Part]) -> Result<OwnTypes, NoMemory>
    ensures name { IfOk result (λ types. types.module_name ≡ own_name (parts_view parts.now)) }
    ensures names { IfOk result (λ types. types.names.items ≡ type_names (parts_view parts.now)) }
{
    Ok(OwnTypes {
        module_name: own_name(alloc, parts)?,
        names: type_names(alloc, parts)?,
    })
}

/// The names of the Types that parts declare.
#[tactic(auto, using(std::proofs::lemmas::List::drop_more))]
fn type_names(alloc: Global, parts: &[Part]) -> Result<Vec<Name>, NoMemory>
    ensures { IfOk result (λ names. names.items ≡ type_names (parts_view parts.now)) }
{
    let mut names = Vec::new(alloc);
    for part in parts {
        if let Part::WholeLine(LineTree::TypeHeader(header)) = part {
            names.push(header.name.name.copy(alloc)?)?;
        }
    }
    Ok(names)
}

/// Is a name one of these?
fn is_among(names: &[Name], name: &Name) -> bool
    ensures { result ≡ list_any (bytes_eq name.now) names.now }
{
    names.iter().any(|other| *name == *other)
}

/// Stands no qualifier there, or the name of the module?
fn is_here(name: &Name, qualifier: &Option<TypeQualifier>) -> bool
    ensures { result ≡ is_here name.now qualifier.now }
{
    match qualifier {
        None => true,
        Some(qualifier) => qualifier.name.name == *name,
    }
}

/// Is a type one of these, by its name alone or behind the module's?
fn is_named(types: &OwnTypes, class: &TypeName) -> bool
    ensures { result ≡ is_named types.now.module_name types.now.names.items class.now }
{
    is_here(&types.module_name, &class.qualifier)
        && is_among(types.names.as_slice(), &class.name.name)
}

/// Is the type that is declared one of these?
pub fn is_own_type(types: &OwnTypes, clause: &Option<TypeClause>) -> bool
    ensures { result ≡ is_type_clause (is_named types.now.module_name types.now.names.items) (option_map type_clause_view clause.now) }
{
    match clause {
        Some(
            TypeClause {
                declared_type: DeclaredType::Named(class),
                ..
            },
        ) => is_named(types, class),
        _ => false,
    }
}
