// The members of classes, by their names.
ghost use Rattle.std.specs.Prelude.{◌≡◌, None, if◌then◌else◌, map, option_map};
ghost use Rattle.vba_values.specs.View.{view};
ghost use Rattle.bound_project.specs.View.{class_member_view, declarations_view, named_view};
ghost use Rattle.vba_meaning.specs.Defaults.{class_of_value, is_instance};
ghost use Rattle.vba_meaning.specs.LateBound.{member_named, public_variable, variable_named, way_by_name};
ghost use Rattle.run_memory.specs.Acts.{Acts};
ghost use Rattle.run_memory.specs.View.{memory_view, path_view};
ghost use Rattle.pcode.specs.View.{use_view};
ghost use Rattle.run_late.specs.View.{given_view, way_view};

use crate::sought::{Sought, how_many};
use crate::ways::{Way, way_of};
use bound_project::{Declarations, LateUse, Member, NamedMember, members_of};
use run_defaults::{class_of_value, is_instance, variable_of};
use run_memory::{Memory, Path};
use std::alloc::Global;
use vba_base::OrMemory;
use vba_values::{Bad, ObjRef, Value};

/// The member with a folded name.
fn member_named(members: &[NamedMember], name: &[u16]) -> Option<Member>
    ensures { option_map class_member_view result ≡ member_named (map named_view members.now) name.now }
{
    match members {
        [] => None,
        [first, members @ ..] => if first.fold.units() == name {
            Some(first.member)
        } else {
            member_named(members, name)
        },
    }
}

/// How a member of a value is used, by its name: none where the class has no such one.
pub fn way_by_name<'a>(
    memory: &Memory,
    declared: &Declarations,
    aim: LateUse,
    sought: Sought<'a>,
    base: &Value,
) -> Option<Way>
    ensures { option_map (way_view (declarations_view declared.now) (view base.now) (memory_view memory.now)) result
        ≡ way_by_name (declarations_view declared.now) (use_view aim) sought.entry.name.now (given_view sought.entry) (view base.now) (memory_view memory.now) }
{
    let members = members_of(declared, class_of_value(memory, base));
    let member = member_named(members, sought.name)?;
    way_of(
        declared,
        aim,
        how_many(sought.arguments, sought.given),
        member,
    )
}

/// The place of a public variable of an object, by its folded name: 438 where any other member has it, 91 for Nothing, 424
/// for what is no object.
pub fn public_variable(
    memory: &Memory,
    alloc: Global,
    declared: &Declarations,
    name: &[u16],
    value: &Value,
) -> Result<Path, OrMemory<Bad>>
    ensures { Acts path_view result (memory_view memory.now) (public_variable (declarations_view declared.now) name.now (view value.now) (memory_view memory.now)) }
{
    match value {
        Value::Object(ObjRef::Nothing) => Err(OrMemory::Fault(Bad::Raise(91))),
        Value::Object(_) => variable_named(memory, alloc, declared, name, value),
        _ => Err(OrMemory::Fault(Bad::Raise(424))),
    }
}

/// The same of an object that there is.
fn variable_named(
    memory: &Memory,
    alloc: Global,
    declared: &Declarations,
    name: &[u16],
    value: &Value,
) -> Result<Path, OrMemory<Bad>>
    ensures { let d = declarations_view declared.now in let m = memory_view memory.now in let v = view value.now in Acts path_view result m
        (variable_named d v (if is_instance v m then member_named (class_of_value d v m).members name.now else None) m) }
{
    if !is_instance(memory, value) {
        return Err(OrMemory::Fault(Bad::Raise(438)));
    }
    let members = members_of(declared, class_of_value(memory, value));
    place_of_variable(memory, alloc, declared, value, member_named(members, name))
}

/// The place of a variable of an object: no other member has one.
fn place_of_variable(
    memory: &Memory,
    alloc: Global,
    declared: &Declarations,
    value: &Value,
    member: Option<Member>,
) -> Result<Path, OrMemory<Bad>>
    ensures { Acts path_view result (memory_view memory.now) (variable_named (declarations_view declared.now) (view value.now) (option_map class_member_view member) (memory_view memory.now)) }
{
    match member {
        Some(Member::Variable { field, makes }) => {
            let path = variable_of(memory, alloc, declared, value, field, makes)?;
            Ok(path)
        }
        Some(Member::Procedure(_procedure)) => Err(OrMemory::Fault(Bad::Raise(438))),
        Some(
            Member::Property {
                reads: _reads,
                lets: _lets,
                sets: _sets,
            },
        ) => Err(OrMemory::Fault(Bad::Raise(438))),
        None => Err(OrMemory::Fault(Bad::Raise(438))),
    }
}
