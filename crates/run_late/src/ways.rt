// What does a use of a member: a variable, a procedure that is called, or a Let or Set.
ghost use Rattle.std.specs.Prelude.{◌≡◌, ◌&&◌, ℕ, Option, map, nat_lt, not, option_map};
ghost use Rattle.vba_values.specs.Val.{Val};
ghost use Rattle.bound_project.specs.Project.{Declarations as PlainDeclarations, is_procedure, is_property, is_variable};
ghost use Rattle.bound_project.specs.View.{class_member_view, declarations_view, parameter_view};
ghost use Rattle.vba_meaning.specs.Memory.{Memory as PlainMemory};
ghost use Rattle.vba_meaning.specs.LateBound.{Use, assigned_way, can_index_what, get_alone, get_for_object, indexes, reading, set_by, taken_by_way, way_of};
ghost use Rattle.bound_project.specs.Parameters.{has_parameters};
ghost use Rattle.pcode.specs.View.{use_view};
ghost use Rattle.run_late.specs.View.{given_view, names_view, way_view};

use crate::names::has_names;
use crate::sought::{Sought, how_many};
use bound_project::{
    Declarations, LateUse, Member, Parameter, has_parameters, parameters_of, result_of,
    without_last,
};
use run_defaults::{can_be_object, is_sub};

/// What does a use: a variable of the object, which may be declared As New; a procedure or Get that is called, and then
/// what it gives is used; a Let or Set, whose last parameter takes the value.
#[derive(Clone, Copy)]
pub enum Way {
    Variable { field: u32, makes: Option<u32> },
    Call { procedure: u32, is_get: bool },
    Setter { procedure: u32 },
}

/// Whether arguments are given to what takes none.
fn takes_none(parameters: &[Parameter], given: u32) -> bool
    ensures { result ≡ (nat_lt 0 given && not (has_parameters (map parameter_view parameters.now))) }
{
    given > 0 && !has_parameters(parameters)
}

/// A Get that may give an object.
fn get_for_object(declared: &Declarations, reads: Option<u32>) -> Option<Way>
    ensures { (v : Val) (m : PlainMemory) → option_map (way_view (declarations_view declared.now) v m) result ≡ get_for_object (declarations_view declared.now) reads }
{
    let procedure = reads?;
    if !can_be_object(result_of(declared, procedure)) {
        return None;
    }
    Some(Way::Call {
        procedure,
        is_get: true,
    })
}

/// How a property is assigned to: by its Let, or by what a Get gives.
fn let_way(
    declared: &Declarations,
    given: u32,
    reads: Option<u32>,
    lets: Option<u32>,
) -> Option<Way>
    ensures { (v : Val) (m : PlainMemory) → (sets : Option ℕ) → option_map (way_view (declarations_view declared.now) v m) result ≡ assigned_way (declarations_view declared.now) given v (is_property reads lets sets) m }
{
    let Some(procedure) = lets else {
        return get_for_object(declared, reads);
    };
    if takes_none(without_last(parameters_of(declared, procedure)), given) {
        return get_for_object(declared, reads);
    }
    Some(Way::Setter { procedure })
}

/// A Get that takes no arguments, which may give an object, where they index that.
fn get_alone(declared: &Declarations, given: u32, reads: Option<u32>) -> Option<Way>
    ensures { (v : Val) (m : PlainMemory) → option_map (way_view (declarations_view declared.now) v m) result ≡ get_alone (declarations_view declared.now) given reads }
{
    let procedure = reads?;
    if !takes_none(parameters_of(declared, procedure), given) {
        return None;
    }
    get_for_object(declared, Some(procedure))
}

/// How a property is set: by its Set, or by what a Get gives.
fn set_way(
    declared: &Declarations,
    given: u32,
    reads: Option<u32>,
    sets: Option<u32>,
) -> Option<Way>
    ensures { (v : Val) (m : PlainMemory) → option_map (way_view (declarations_view declared.now) v m) result ≡ set_by (declarations_view declared.now) given reads sets }
{
    let Some(procedure) = sets else {
        return get_alone(declared, given, reads);
    };
    if takes_none(without_last(parameters_of(declared, procedure)), given) {
        return get_alone(declared, given, reads);
    }
    Some(Way::Setter { procedure })
}

/// How a Sub or Function is used: what a Function gives is assigned to, and neither is set.
fn procedure_way(declared: &Declarations, aim: LateUse, procedure: u32) -> Option<Way>
    ensures { (given : ℕ) (v : Val) (m : PlainMemory) → option_map (way_view (declarations_view declared.now) v m) result ≡ way_of (declarations_view declared.now) (use_view aim) given v (is_procedure procedure) m }
{
    let call = Way::Call {
        procedure,
        is_get: false,
    };
    match aim {
        LateUse::Reading => Some(call),
        LateUse::Assigning => if is_sub(declared, procedure) {
            None
        } else {
            Some(call)
        },
        LateUse::Setting => None,
    }
}

/// How a property is read.
fn read_way(reads: Option<u32>) -> Option<Way>
    ensures { (d : PlainDeclarations) (given : ℕ) (lets sets : Option ℕ) (v : Val) (m : PlainMemory) → option_map (way_view d v m) result ≡ way_of d reading given v (is_property reads lets sets) m }
{
    let procedure = reads?;
    Some(Way::Call {
        procedure,
        is_get: true,
    })
}

/// How a member is used, with so many arguments.
pub fn way_of(declared: &Declarations, aim: LateUse, given: u32, member: Member) -> Option<Way>
    ensures { (v : Val) (m : PlainMemory) → option_map (way_view (declarations_view declared.now) v m) result ≡ way_of (declarations_view declared.now) (use_view aim) given v (class_member_view member) m }
{
    match member {
        Member::Variable { field, makes } => variable_way(field, makes),
        Member::Procedure(procedure) => procedure_way(declared, aim, procedure),
        Member::Property { reads, lets, sets } => match aim {
            LateUse::Reading => read_way(reads),
            LateUse::Assigning => let_way(declared, given, reads, lets),
            LateUse::Setting => set_way(declared, given, reads, sets),
        },
    }
}

/// How a variable is used.
#[tactic(auto, using(crate::proofs::Uses::variable_any))]
fn variable_way(field: u32, makes: Option<u32>) -> Option<Way>
    ensures { (d : PlainDeclarations) (aim : Use) (given : ℕ) (v : Val) (m : PlainMemory) → option_map (way_view d v m) result ≡ way_of d aim given v (is_variable field makes) m }
{
    Some(Way::Variable { field, makes })
}

/// The parameters that arguments go to.
pub fn taken_by_way(declared: &Declarations, way: Way) -> &[Parameter]
    ensures { (v : Val) (m : PlainMemory) → map parameter_view result.now ≡ taken_by_way (declarations_view declared.now) (way_view (declarations_view declared.now) v m way) }
{
    match way {
        Way::Variable { .. } => &[],
        Way::Call { procedure, .. } => parameters_of(declared, procedure),
        Way::Setter { procedure } => without_last(parameters_of(declared, procedure)),
    }
}

/// Whether what does it has something that arguments index: a variable, or a property without parameters.
fn can_index_what(declared: &Declarations, way: Way) -> bool
    ensures { (v : Val) (m : PlainMemory) → result ≡ can_index_what (declarations_view declared.now) (way_view (declarations_view declared.now) v m way) }
{
    match way {
        Way::Variable { .. } => true,
        Way::Call { procedure, is_get } => is_get
            && !has_parameters(parameters_of(declared, procedure)),
        Way::Setter { .. } => false,
    }
}

/// Whether arguments index what the member has.
pub fn indexes<'a>(declared: &Declarations, sought: Sought<'a>, way: Way) -> bool
    ensures { (v : Val) (m : PlainMemory) → result ≡ indexes (declarations_view declared.now) (names_view sought.entry) (given_view sought.entry) (way_view (declarations_view declared.now) v m way) }
{
    how_many(sought.arguments, sought.given) > 0
        && !has_names(sought.names)
        && can_index_what(declared, way)
}
