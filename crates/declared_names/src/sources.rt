//! Modules as they are written: their options, their names and what they declare.

ghost use Rattle.std.specs.Prelude.{◌≡◌, ◌<◌, suc, [], ◌∷◌, ◌++◌, map, IfOk, OnOk};
ghost use Rattle.module_parts.specs.View.{part_view, parts_view};
ghost use Rattle.binder.specs.Sources as sources;
ghost use Rattle.binder.specs.Declarations.{entries_in, in_module};
ghost use Rattle.binder.specs.Scopes.{spaces_from};
ghost use Rattle.declared_names.specs.Choices.{choice_in, passes};
ghost use Rattle.declared_names.specs.View.{source_view, space_view};

use crate::entries::entries_of;
use crate::naming::module_name;
use crate::space::{Source, Space};
use module_parts::Part;
use std::alloc::Global;
use vba_base::NoMemory;
use vba_tree::{LineTree, OptionChoice};
use vba_values::Compare;

/// The choice of an Option line.
fn choice_of(part: &Part) -> Option<OptionChoice>
    ensures { result ≡ choice_in (part_view part.now) }
{
    match part {
        Part::WholeLine(LineTree::Option(option)) => Some(option.choice),
        _ => None,
    }
}

/// Is it Option Explicit?
fn is_explicit(part: &Part) -> bool
    ensures { result ≡ passes sources.is_explicit (choice_in (part_view part.now)) }
{
    match choice_of(part) {
        Some(OptionChoice::Explicit(_)) => true,
        _ => false,
    }
}

/// Is it Option Base 1?
fn is_base_one(part: &Part) -> bool
    ensures { result ≡ passes sources.is_base_one (choice_in (part_view part.now)) }
{
    match choice_of(part) {
        Some(OptionChoice::BaseOne { .. }) => true,
        _ => false,
    }
}

/// Is it Option Compare Text?
fn is_compare_text(part: &Part) -> bool
    ensures { result ≡ passes sources.is_compare_text (choice_in (part_view part.now)) }
{
    match choice_of(part) {
        Some(OptionChoice::CompareText { .. }) => true,
        _ => false,
    }
}

/// Is there an Option Explicit?
#[tactic(auto, using(std::proofs::lemmas::List::drop_more, crate::proofs::Choices::one_more))]
fn has_explicit(parts: &[Part]) -> bool
    ensures { result ≡ sources.has_choice sources.is_explicit (parts_view parts.now) }
{
    for part in parts {
        if is_explicit(part) {
            return true;
        }
    }
    false
}

/// Is there an Option Base 1?
#[tactic(auto, using(std::proofs::lemmas::List::drop_more, crate::proofs::Choices::one_more))]
fn has_base_one(parts: &[Part]) -> bool
    ensures { result ≡ sources.has_choice sources.is_base_one (parts_view parts.now) }
{
    for part in parts {
        if is_base_one(part) {
            return true;
        }
    }
    false
}

/// Is there an Option Compare Text?
#[tactic(auto, using(std::proofs::lemmas::List::drop_more, crate::proofs::Choices::one_more))]
fn has_compare_text(parts: &[Part]) -> bool
    ensures { result ≡ sources.has_choice sources.is_compare_text (parts_view parts.now) }
{
    for part in parts {
        if is_compare_text(part) {
            return true;
        }
    }
    false
}

impl Source<'_> {
    /// Has every name to be declared?
    pub fn is_explicit(&self) -> bool
        ensures { result ≡ sources.has_choice sources.is_explicit (source_view self.now).parts }
    {
        has_explicit(self.parts)
    }

    /// The lower bound of arrays where none is written.
    pub fn base(&self) -> u8
        ensures { result ≡ sources.base_of (source_view self.now) }
    {
        if has_base_one(self.parts) { 1 } else { 0 }
    }

    /// How texts compare.
    pub fn compare(&self) -> Compare
        ensures { result ≡ sources.compare_of (source_view self.now) }
    {
        if has_compare_text(self.parts) {
            Compare::Folded
        } else {
            Compare::Binary
        }
    }
}

/// The module with a number, from 0.
fn space_of<'a>(alloc: Global, number: usize, source: Source<'a>) -> Result<Space<'a>, NoMemory>
    requires { number < usize.MAX }
    ensures { IfOk result (λ space. space_view space ≡ record {
      number = number;
      source = source_view source.entry;
      name = sources.name_or (suc number) (sources.given_name (source_view source.entry).parts);
      entries = entries_in in_module (source_view source.entry).parts;
    }) }
{
    Ok(Space {
        number,
        source,
        name: module_name(alloc, number + 1, source.parts)?,
        entries: entries_of(alloc, source.parts)?,
    })
}

/// Adds a module.
#[tactic(auto, using(crate::proofs::Pushes::spaces_push))]
fn push_space<'a>(spaces: &mut Vec<Space<'a>>, space: Space<'a>) -> Result<(), NoMemory>
    ensures { OnOk result (map space_view spaces.new.items ≡ map space_view spaces.old.items ++ space_view space.entry ∷ []) }
{
    Ok(spaces.push(space)?)
}

/// The modules of a project, in order, with what they declare.
///
/// It fails only for want of memory.
pub fn spaces_of<'a>(alloc: Global, sources: &[Source<'a>]) -> Result<Vec<Space<'a>>, NoMemory>
    ensures { IfOk result (λ spaces. map space_view spaces.items ≡ spaces_from 0 (map source_view sources.now)) }
{
    let mut spaces = Vec::new(alloc);
    for (number, source) in sources.iter().enumerate() {
        push_space(&mut spaces, space_of(alloc, number, *source)?)?;
    }
    Ok(spaces)
}
