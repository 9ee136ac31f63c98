//! The names of modules, and names as they are written.

ghost use Rattle.std.specs.Prelude.{◌≡◌, None, option_map, IfOk};
ghost use Rattle.module_parts.specs.View.{parts_view};
ghost use Rattle.vba_lexer.specs.Texts.{text_of};
ghost use Rattle.vba_tree.specs.View.{listed_view};
ghost use Rattle.bound_project.specs.View.{spelled_view};
ghost use Rattle.binder.specs.Sources as sources;

use crate::slices::{dropped, taken};
use bound_project::Spelled;
use module_parts::Part;
use std::alloc::Global;
use vba_base::{NoMemory, Units, name_of};
use vba_expression::{Literal, LiteralValue};
use vba_lexer::{Token, without_suffix};
use vba_tree::{AttributeLine, AttributeValue, LineTree};
use vba_words::Identifier;

/// `vb_name`
const VB_NAME: [u16; 7] = [0x76, 0x62, 0x5F, 0x6E, 0x61, 0x6D, 0x65];

/// A name without the brackets or the suffix.
fn written(units: &[u16], is_bracketed: bool) -> &[u16]
    ensures { result.now ≡ sources.written is_bracketed units.now }
{
    if is_bracketed {
        taken(dropped(units, 1), units.len().saturating_sub(2))
    } else {
        without_suffix(units)
    }
}

/// The text of a token, as far as it lies in the source.
fn text_of<'a>(text: &'a Units, token: &Token) -> &'a [u16]
    ensures { result.now ≡ text_of text.now token.now }
{
    let behind = dropped(text.units(), token.start as usize);
    taken(behind, token.end.saturating_sub(token.start) as usize)
}

/// A name as it is written in a text.
///
/// It fails only for want of memory.
pub fn spelled(alloc: Global, text: &Units, name: &Identifier) -> Result<Spelled, NoMemory>
    ensures { IfOk result (λ made. spelled_view made ≡ sources.spelled text.now name.now) }
{
    let units = written(text_of(text, &name.token), name.is_bracketed);
    Ok(Spelled {
        spelling: Units::from_units(alloc, units)?,
        fold: name.name.copy(alloc)?,
    })
}

/// The text that an attribute gives its module as its name.
fn name_given(line: &AttributeLine) -> Option<&Units>
    ensures { option_map (λ text. text.now) result
        ≡ sources.name_given (listed_view (λ name. name) line.now.names) (listed_view (λ value. value) line.now.values) }
{
    if line.names.first.name.units() != VB_NAME.as_slice() {
        return None;
    }
    match (line.names.others.as_slice(), &line.values.first) {
        (
            [],
            AttributeValue {
                minus: None,
                literal: Literal {
                    value: LiteralValue::Text(text),
                    ..
                },
            },
        ) => Some(text),
        _ => None,
    }
}

/// The name that an attribute gives the module that parts are: the first one.
#[tactic(auto, using(std::proofs::lemmas::List::drop_more))]
fn given_name(parts: &[Part]) -> Option<&Units>
    ensures { option_map (λ text. text.now) result ≡ sources.given_name (parts_view parts.now) }
{
    for part in parts {
        if let Part::WholeLine(LineTree::Attribute(line)) = part {
            if let Some(text) = name_given(line) {
                return Some(text);
            }
        }
    }
    None
}

/// An ASCII text as units.
fn units_of(alloc: Global, text: &[u8]) -> Result<Units, NoMemory>
    ensures { IfOk result (λ units. units ≡ text.now) }
{
    let mut units = Units::with_capacity(alloc, text.len())?;
    for byte in text {
        units.push(u16::from(*byte))?;
    }
    Ok(units)
}

/// The name of a module that no attribute names: Module and its number, from 1.
#[tactic(auto, using(crate::proofs::Numbered::numbered_fold))]
fn numbered_name(alloc: Global, number: usize) -> Result<Spelled, NoMemory>
    ensures { IfOk result (λ made. spelled_view made ≡ sources.name_or number None) }
{
    let text = format!(in alloc; "Module{number}")?;
    let spelling = units_of(alloc, text.as_bytes())?;
    let fold = name_of(alloc, spelling.units())?;
    Ok(Spelled { spelling, fold })
}

/// The name of the module that parts are, by its number from 1.
pub(crate) fn module_name(alloc: Global, number: usize, parts: &[Part]) -> Result<Spelled, NoMemory>
    ensures { IfOk result (λ made. spelled_view made ≡ sources.name_or number (sources.given_name (parts_view parts.now))) }
{
    match given_name(parts) {
        Some(text) => Ok(Spelled {
            spelling: text.copy(alloc)?,
            fold: name_of(alloc, text.units())?,
        }),
        None => numbered_name(alloc, number),
    }
}
