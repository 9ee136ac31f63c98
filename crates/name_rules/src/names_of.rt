//! The names of fields, of parameters and of a procedure, in text order.

ghost use Rattle.std.specs.Prelude.{◌≡◌, [], ◌∷◌, ◌++◌, map, flat_map, option_map, OnOk, IfOk};
ghost use Rattle.constant_values.specs.declared_names.specs.binder.specs.Said.{said_in_part};
ghost use Rattle.constant_values.specs.declared_names.specs.View.{local_view, written_view};
ghost use Rattle.constant_values.specs.declared_names.specs.module_parts.specs.View.{part_view, parts_view};
ghost use Rattle.name_rules.specs.Naming.{declared_in, name_list, names_in};
ghost use Rattle.said_parts.specs.View.{all_said, field_view, said_view};
ghost use Rattle.vba_module.specs.Headers.{all_of, parameters_of};
ghost use Rattle.vba_tree.specs.View.{listed_view, parameter_view, parameters_view};

use constant_values::declared_names::module_parts::Part;
use constant_values::declared_names::{Local, Written, header_names};
use said_parts::{Said, push_part};
use std::alloc::Global;
use vba_base::NoMemory;
use vba_tree::{Listed, Parameter, Parameters, TypeMember};
use vba_words::Identifier;

/// Adds a name.
#[tactic(auto, using(crate::proofs::DeclaredHere::name_more))]
fn push_name<'a>(names: &mut Vec<&'a Identifier>, name: &'a Identifier) -> Result<(), NoMemory>
    ensures { OnOk result (map (λ x. x.now) names.new.items ≡ map (λ x. x.now) names.old.items ++ name.now ∷ []) }
{
    Ok(names.push(name)?)
}

/// The names of fields.
pub fn names_of_fields<'a>(
    alloc: Global,
    fields: &[&'a TypeMember],
) -> Result<Vec<&'a Identifier>, NoMemory>
    ensures { IfOk result (λ names. map (λ x. x.now) names.items ≡ map (λ f. f.name) (map (λ f. field_view f.now) fields.now)) }
{
    let mut names = Vec::new(alloc);
    for field in fields {
        push_name(&mut names, &field.name)?;
    }
    Ok(names)
}

/// Adds the names of parameters.
fn push_listed<'a>(
    names: &mut Vec<&'a Identifier>,
    list: &'a Listed<Parameter>,
) -> Result<(), NoMemory>
    ensures { OnOk result (map (λ x. x.now) names.new.items ≡ map (λ x. x.now) names.old.items
        ++ map (λ p. p.name) (all_of (listed_view parameter_view list.now))) }
{
    push_name(names, &list.first.name)?;
    for next in &list.others {
        push_name(names, &next.item.name)?;
    }
    Ok(())
}

/// The names of parameters, where they are written.
pub fn names_of_parameters<'a>(
    alloc: Global,
    parameters: &'a Option<Parameters>,
) -> Result<Vec<&'a Identifier>, NoMemory>
    ensures { IfOk result (λ names. map (λ x. x.now) names.items ≡ map (λ p. p.name) (parameters_of (option_map parameters_view parameters.now))) }
{
    let mut names = Vec::new(alloc);
    if let Some(
        Parameters {
            parameters: Some(list),
            ..
        },
    ) = parameters
    {
        push_listed(&mut names, list)?;
    }
    Ok(names)
}

/// The name that is declared, where one is.
#[tactic(auto, using(crate::proofs::DeclaredHere::arguments_declare))]
fn declared_name<'a>(said: Said<'a>) -> Option<&'a Identifier>
    ensures { name_list (option_map (λ x. x.now) result) ≡ map (λ l. l.name) (declared_in (said_view said.entry)) }
{
    match said {
        Said::Declares { variable, .. } => Some(&variable.name),
        Said::DeclaresConstant(constant) => Some(&constant.name),
        Said::Arguments(_) => None,
        Said::TypeNamed(_)
        | Said::NewNamed(_)
        | Said::ConstantExpression(_)
        | Said::Expression(_)
        | Said::Counter(_)
        | Said::Called(_)
        | Said::Redimmed { .. }
        | Said::GoesTo(_)
        | Said::Raises(_) => None,
    }
}

/// Adds a name, where there is one.
fn push_named<'a>(
    names: &mut Vec<&'a Identifier>,
    name: Option<&'a Identifier>,
) -> Result<(), NoMemory>
    ensures { OnOk result (map (λ x. x.now) names.new.items ≡ map (λ x. x.now) names.old.items ++ name_list (option_map (λ x. x.now) name.entry)) }
{
    match name {
        Some(name) => push_name(names, name),
        None => Ok(()),
    }
}

/// Adds the name that is declared, where one is.
fn push_declared<'a>(names: &mut Vec<&'a Identifier>, said: Said<'a>) -> Result<(), NoMemory>
    ensures { OnOk result (map (λ x. x.now) names.new.items ≡ map (λ x. x.now) names.old.items ++ map (λ l. l.name) (declared_in (said_view said.entry))) }
{
    push_named(names, declared_name(said))?;
    Ok(())
}

/// Adds the names that are declared.
fn push_all_declared<'a>(names: &mut Vec<&'a Identifier>, said: &[Said<'a>]) -> Result<(), NoMemory>
    ensures { OnOk result (map (λ x. x.now) names.new.items ≡ map (λ x. x.now) names.old.items ++ map (λ l. l.name) (declared_in (all_said said.now))) }
{
    for one in said {
        push_declared(names, *one)?;
    }
    Ok(())
}

/// Adds the names that a part of a procedure declares.
fn push_names_of_part<'a>(
    alloc: Global,
    names: &mut Vec<&'a Identifier>,
    is_static: bool,
    part: &'a Part,
) -> Result<(), NoMemory>
    ensures { OnOk result (map (λ x. x.now) names.new.items ≡ map (λ x. x.now) names.old.items
        ++ map (λ l. l.name) (declared_in (said_in_part is_static (part_view part.now)))) }
{
    let mut said = Vec::new(alloc);
    push_part(&mut said, part, is_static)?;
    push_all_declared(names, said.as_slice())
}

/// Adds the names that the parts of a procedure declare.
fn push_names_of_body<'a>(
    alloc: Global,
    names: &mut Vec<&'a Identifier>,
    is_static: bool,
    parts: &'a [Part],
) -> Result<(), NoMemory>
    ensures { OnOk result (map (λ x. x.now) names.new.items ≡ map (λ x. x.now) names.old.items
        ++ map (λ l. l.name) (declared_in (flat_map (said_in_part is_static) (parts_view parts.now)))) }
{
    for part in parts {
        push_names_of_part(alloc, names, is_static, part)?;
    }
    Ok(())
}

/// The names of what is declared.
fn names_of_locals<'a>(alloc: Global, locals: &[Local<'a>]) -> Result<Vec<&'a Identifier>, NoMemory>
    ensures { IfOk result (λ names. map (λ x. x.now) names.items ≡ map (λ l. l.name) (map local_view locals.now)) }
{
    let mut names = Vec::new(alloc);
    for local in locals {
        push_name(&mut names, local.name)?;
    }
    Ok(names)
}

/// The names that a procedure declares: those of its header, then those of its body.
pub fn names_of_procedure<'a>(
    alloc: Global,
    written: Written<'a>,
) -> Result<Vec<&'a Identifier>, NoMemory>
    ensures { IfOk result (λ names. map (λ x. x.now) names.items ≡ names_in (written_view written.entry)) }
{
    let header = header_names(alloc, written)?;
    let mut names = names_of_locals(alloc, header.as_slice())?;
    let is_static = written.header.static_word.is_some();
    push_names_of_body(alloc, &mut names, is_static, written.body.slice())?;
    Ok(names)
}
